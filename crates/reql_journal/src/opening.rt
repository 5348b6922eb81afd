// How the journal of a table is opened.
ghost use Rattle.std.specs.Prelude.{◌≡◌, ◌+◌, ◌≤◌, ◌<◌, [], true, false, List, ℕ, Some, Ok, Err, IfOk, IfErr, OnOk};
ghost use Rattle.reql_disk.specs.Disk.{Past};
ghost use Rattle.reql_blocks.specs.Beginning.{Opens};
ghost use Rattle.reql_blocks.specs.Recovery.{Counted, HasRead};
ghost use Rattle.reql_table_records.specs.Standing.{blank, stands};
ghost use Rattle.reql_journal.specs.Opening.{ReadsNext, ReadsAll, OpensTable, RefusesTable};

use reql_blocks::{OpenFault, Reader};
use reql_disk::Disk;
use reql_memory::Memory;
use reql_records::Journal;
use reql_table_records::{Restores, TableRecord, apply_body};
use std::alloc::Global;

/// The journal of a table on a disk.
pub type TableJournal<D> = Journal<D, TableRecord>;

// Makes what the next block stands for, or answers false where the gate to come is closed.
fn read_next<D: Disk, T: Restores>(
    alloc: Global,
    reader: &mut Reader<D>,
    table: &mut T,
) -> Result<bool, OpenFault>
    ensures counted { Counted reader.old.told reader.new.told result }
    ensures size { reader.new.size ≡ reader.old.size }
    ensures goes { IfOk result (λ more. more ≡ true → reader.old.gate < reader.new.gate) }
    ensures within { IfOk result (λ more. more ≡ true → reader.new.gate ≤ reader.new.size) }
    ensures gate { IfOk result (λ more. more ≡ false → reader.new.gate + 1 ≤ reader.new.size) }
    ensures reads { (bodies : List (List ℕ)) (past : Past) → HasRead bodies past reader.old
        → stands bodies ≡ Some (T.standing table.old)
        → ReadsNext past reader.new (T.standing table.new) result }
{
    let at = reader.place();
    match reader.next(alloc) {
        Ok(Some(body)) => match apply_body(alloc, table, &body) {
            Ok(true) => Ok(true),
            Ok(false) => Err(OpenFault::Damaged { at }),
            Err(Memory) => Err(OpenFault::Memory),
        },
        Ok(None) => Ok(false),
        Err(why) => Err(why),
    }
}

// Makes what the blocks from here on stand for, up to the closed gate.
fn read_all<D: Disk, T: Restores>(
    alloc: Global,
    reader: &mut Reader<D>,
    table: &mut T,
) -> Result<(), OpenFault>
    ensures counted { Counted reader.old.told reader.new.told result }
    ensures gate { OnOk result (reader.new.gate + 1 ≤ reader.new.size) }
    ensures reads { (bodies : List (List ℕ)) (past : Past) → HasRead bodies past reader.old
        → stands bodies ≡ Some (T.standing table.old)
        → ReadsAll past reader.new (T.standing table.new) result }
{
    loop {
        match read_next(alloc, reader, table) {
            Ok(true) => {}
            Ok(false) => return Ok(()),
            Err(why) => return Err(why),
        }
    }
}

/// Opens the journal of a table, and makes of a table of nothing the one that it stands for. An empty
/// file is made one of a table of nothing; any other is synced, and stays as it is.
///
/// Damaged is answered exactly where the file isn't of the format, with the place of the gate of the
/// first block that isn't, or 0 where the file begins otherwise; a block is of the format where its
/// body is a JSON array of records each of which fits the table before it. Failed comes only where
/// the disk's count of faults rose. An error hands the disk back.
pub fn open<D: Disk, T: Restores + Drop>(
    alloc: Global,
    disk: D,
    table: T,
) -> Result<(TableJournal<D>, T), (D, OpenFault)>
    requires { T.standing table ≡ blank }
    ensures counted { IfOk result (λ o. (o.0.held.told.faults ≡ (D.told disk).faults)
        × (o.0.held.told.sound ≡ (D.told disk).sound)) }
    ensures counted_err { IfErr result (λ e.
        Counted {T = Unit {0}} (D.told disk) (D.told e.0) (Err e.1)) }
    ensures waiting { IfOk result (λ o. o.0.waiting ≡ []) }
    ensures opens { (past : Past) → (D.told disk).past ≡ Some past → IfOk result (λ o.
        (now : Past) × Opens past now × OpensTable now o.0 (T.standing o.1)) }
    ensures refuses { (past : Past) → (D.told disk).past ≡ Some past → IfErr result (λ e.
        RefusesTable past (D.told e.0).past e.1) }
{
    let mut reader = match Reader::open(disk) {
        Ok(reader) => reader,
        Err(refused) => return Err(refused),
    };
    let mut table = table;
    match read_all(alloc, &mut reader, &mut table) {
        Ok(()) => Ok((Journal::new(alloc, reader.finish()), table)),
        Err(why) => Err((reader.into_disk(), why)),
    }
}

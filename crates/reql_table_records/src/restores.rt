// Tables that are restored from records.
ghost use Rattle.std.specs.Prelude.{◌≡◌, map, IfOk};
ghost use Rattle.reql_table_records.specs.Records.{record_of};
ghost use Rattle.reql_table_records.specs.Standing.{Standing, Leads, after_record, after_records, after_body};

use crate::read::records_in;
use crate::record::TableRecord;
use reql_memory::Memory;
use std::alloc::Global;

/// A table that makes what records stand for.
pub trait Restores {
    /// Its documents and indexes, and whether it was dropped.
    ghost standing: { Self → Standing };

    /// Makes what a record stands for, or answers false where the record doesn't fit: then, and where
    /// memory ran out, nothing is said of the table.
    fn apply(&mut self, alloc: Global, made: TableRecord) -> Result<bool, Memory>
        ensures { IfOk result (λ done. Leads done
            (after_record (standing self.old) (record_of made)) (standing self.new)) };
}

fn apply_all<T: Restores>(
    alloc: Global,
    table: &mut T,
    records: Vec<TableRecord>,
) -> Result<bool, Memory>
    ensures { IfOk result (λ done. Leads done
        (after_records (T.standing table.old) (map record_of records.items))
        (T.standing table.new)) }
{
    for made in records {
        if !table.apply(alloc, made)? {
            return Ok(false);
        }
    }
    Ok(true)
}

/// Makes what the records of a block's body stand for, or answers false where the body isn't of the
/// format: then, and where memory ran out, nothing is said of the table.
pub fn apply_body<T: Restores>(alloc: Global, table: &mut T, body: &[u8]) -> Result<bool, Memory>
    ensures { IfOk result (λ done. Leads done
        (after_body (T.standing table.old) body.now) (T.standing table.new)) }
{
    match records_in(alloc, body)? {
        Some(records) => apply_all(alloc, table, records),
        None => Ok(false),
    }
}

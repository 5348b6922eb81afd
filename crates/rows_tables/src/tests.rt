use reql_core::{Base, TableCore};
use reql_datum::{Datum, Fields, Items, Memory, Name, Seq, Whole};
use reql_open_feed::OpenFeed;
use reql_shared::{Engine, Snap};
use reql_table::{Change, Table};
use reql_table_spec::{Cmd, Keeping, Limits, Order};
use reql_term::{Body, Op, Term, TermFields, Terms};
use reql_write_spec::{Act, Conflict, Returns, WriteCmd};
use std::alloc::Global;
use std::slice;
use std::test::Fail;

type Core = TableCore<OpenFeed>;

const TAIL: u32 = 4;

fn number(number: i64) -> Datum {
    match Whole::new(number) {
        Some(whole) => Datum::Num(whole),
        None => Datum::Null,
    }
}

// The document of a key.
fn document(alloc: Global, key: i64) -> Result<Datum, Memory> {
    let mut fields = Fields::new(alloc);
    drop(fields.put(Name::of(alloc, "id")?, number(key))?);
    Ok(Datum::Obj(fields))
}

fn order(alloc: Global, act: Act) -> Result<Order, Memory> {
    let write = WriteCmd {
        key: Name::of(alloc, "id")?,
        act,
        returns: Returns::No,
        hard: true,
    };
    Ok(Order {
        points: Seq::new(alloc),
        cmd: Cmd::Write(write),
    })
}

fn insert(alloc: Global, key: i64) -> Result<Order, Memory> {
    let mut docs = Items::new(alloc);
    docs.push(document(alloc, key)?)?;
    let act = Act::Insert {
        docs,
        conflict: Conflict::Error,
        made: Items::new(alloc),
    };
    order(alloc, act)
}

// The deletion of the document at a key.
fn delete(alloc: Global, key: i64) -> Result<Order, Memory> {
    let mut args = Terms::new(alloc);
    args.push(Term::Slot(0))?;
    args.push(Term::Lit(number(key)))?;
    let get = Term::Op {
        op: Op::Get,
        args,
        opts: TermFields::new(alloc),
    };
    let rows = Body::new(alloc, get)?;
    order(alloc, Act::Delete { rows })
}

fn give(core: &mut Core, order: Order) -> Result<(), Memory> {
    match core.apply(0, order) {
        Ok(_) => Ok(()),
        Err(_) => Err(Memory),
    }
}

// How many entries are kept since the base, and where that is.
fn kept_since(core: &Core) -> (u64, u64) {
    let (older, newer) = core.tail();
    let Base {
        place,
        stamp: _,
        table: _,
    } = core.base();
    (older.len() as u64 + newer.len() as u64, place)
}

// Whether all that may be kept is, or half of it at least since a base that moved, after the command of a key
// that counts them from 0.
fn keeps_half(core: &Core, key: i64) -> bool {
    let Ok(commands) = u64::try_from(key.saturating_add(1)) else {
        return false;
    };
    let (kept, base) = kept_since(core);
    let enough = if base == 0 {
        kept == commands
    } else {
        kept >= 2
    };
    enough && kept <= u64::from(TAIL) && base.checked_add(kept) == Some(commands)
}

// Whether so many documents are there, after so many commands.
fn stands(core: &Core, documents: u64, commands: u64) -> Result<bool, Memory> {
    let look = core.ask(&Snap)?;
    match &look.view {
        Some(table) => Ok(table.tree().len() == documents && look.place == commands),
        None => Ok(false),
    }
}

// Inserts ten documents, one a command. Whether what is kept is right after each.
fn keeps_half_of_each(alloc: Global, core: &mut Core) -> Result<bool, Memory> {
    let mut right = true;
    for key in 0..10 {
        give(core, insert(alloc, key)?)?;
        right = right && keeps_half(core, key);
    }
    Ok(right)
}

fn short_tail(alloc: Global) -> Result<bool, Memory> {
    let mut limits = Limits::usual();
    limits.tail = TAIL;
    let mut core = Core::new(alloc, &limits)?;
    let kept = keeps_half_of_each(alloc, &mut core)?;
    Ok(kept && stands(&core, 10, 10)?)
}

#[test]
fn a_tail_keeps_half_of_its_entries_at_least(rt: HostRuntime) -> Result<(), Fail> {
    assert!(rt; short_tail(rt.alloc())?);
    Ok(())
}

// A table that has the document of the key 1 from the start.
fn table_of_one(alloc: Global) -> Result<Table, Memory> {
    let mut table = Table::new(alloc);
    let change = Change {
        key: number(1),
        old: None,
        new: Some(document(alloc, 1)?),
    };
    let prepared = table.prepare(slice::from_ref(&change))?;
    table.install(prepared);
    Ok(table)
}

// Whether it hands over one change, of a document that is gone.
fn hands_a_deletion(core: &mut Core) -> bool {
    let kept = core.take_kept();
    match kept.as_slice() {
        [one] => one.new.is_none(),
        _ => false,
    }
}

fn hands_nothing(core: &mut Core) -> bool {
    core.take_kept().is_empty()
}

fn deletion(alloc: Global) -> Result<bool, Memory> {
    let mut core = Core::opened(alloc, table_of_one(alloc)?, false, &Limits::usual())?;
    let before = stands(&core, 1, 0)?;
    give(&mut core, delete(alloc, 1)?)?;
    let once = hands_a_deletion(&mut core) && hands_nothing(&mut core);
    Ok(before && once && stands(&core, 0, 1)?)
}

#[test]
fn a_deletion_is_handed_over_once(rt: HostRuntime) -> Result<(), Fail> {
    assert!(rt; deletion(rt.alloc())?);
    Ok(())
}

// Inserts the documents of the keys from one to another.
fn insert_from(alloc: Global, core: &mut Core, from: i64, to: i64) -> Result<(), Memory> {
    for key in from..to {
        give(core, insert(alloc, key)?)?;
    }
    Ok(())
}

// Whether a look at forty documents, taken between writes that change the table itself, still finds them when others have come
// and one has gone.
fn look_stays(alloc: Global) -> Result<bool, Memory> {
    let mut core = Core::new(alloc, &Limits::usual())?;
    insert_from(alloc, &mut core, 0, 40)?;
    let look = core.ask(&Snap)?;
    insert_from(alloc, &mut core, 40, 45)?;
    give(&mut core, delete(alloc, 7)?)?;
    let Some(table) = &look.view else {
        return Ok(false);
    };
    Ok(table.tree().len() == 40 && look.place == 40 && stands(&core, 44, 46)?)
}

#[test]
fn a_look_stays_as_it_was_when_documents_come_and_go(rt: HostRuntime) -> Result<(), Fail> {
    assert!(rt; look_stays(rt.alloc())?);
    Ok(())
}

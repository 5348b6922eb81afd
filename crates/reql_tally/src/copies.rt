// Copies of commands.
ghost use Rattle.std.specs.Prelude.{◌≡◌, IfOk};

use reql_datum::{Name, Point};
use reql_memory::{Memory, Seq};
use reql_table_spec::{Act, Cmd, FeedSpec, Order, WriteCmd};
use std::alloc::Global;

fn name_copy(name: &Option<Name>) -> Result<Option<Name>, Memory>
    ensures { IfOk result (λ n. n ≡ name.now) }
{
    match name {
        None => Ok(None),
        Some(name) => Ok(Some(name.copy()?)),
    }
}

fn spec_copy(spec: &FeedSpec) -> Result<FeedSpec, Memory>
    ensures { IfOk result (λ s. s ≡ spec.now) }
{
    Ok(FeedSpec {
        key: spec.key.copy()?,
        shape: spec.shape.copy()?,
        index: name_copy(&spec.index)?,
        kind: spec.kind,
        size: spec.size,
        offsets: spec.offsets,
        types: spec.types,
        squash: spec.squash,
    })
}

fn act_copy(act: &Act) -> Result<Act, Memory>
    ensures { IfOk result (λ a. a ≡ act.now) }
{
    match act {
        Act::Insert {
            docs,
            conflict,
            made,
        } => Ok(Act::Insert {
            docs: docs.copy()?,
            conflict: *conflict,
            made: made.copy()?,
        }),
        Act::Update { rows, change } => Ok(Act::Update {
            rows: rows.copy()?,
            change: change.copy()?,
        }),
        Act::Replace { rows, change } => Ok(Act::Replace {
            rows: rows.copy()?,
            change: change.copy()?,
        }),
        Act::Delete { rows } => Ok(Act::Delete { rows: rows.copy()? }),
    }
}

fn write_copy(write: &WriteCmd) -> Result<WriteCmd, Memory>
    ensures { IfOk result (λ w. w ≡ write.now) }
{
    Ok(WriteCmd {
        key: write.key.copy()?,
        act: act_copy(&write.act)?,
        returns: write.returns,
        hard: write.hard,
    })
}

fn cmd_copy(cmd: &Cmd) -> Result<Cmd, Memory>
    ensures { IfOk result (λ c. c ≡ cmd.now) }
{
    match cmd {
        Cmd::Write(write) => Ok(Cmd::Write(write_copy(write)?)),
        Cmd::IndexCreate(def) => Ok(Cmd::IndexCreate(def.copy()?)),
        Cmd::IndexDrop(name) => Ok(Cmd::IndexDrop(name.copy()?)),
        Cmd::IndexRename {
            old,
            new,
            overwrite,
        } => Ok(Cmd::IndexRename {
            old: old.copy()?,
            new: new.copy()?,
            overwrite: *overwrite,
        }),
        Cmd::Subscribe(spec) => Ok(Cmd::Subscribe(spec_copy(spec)?)),
        Cmd::Take { feed, max } => Ok(Cmd::Take {
            feed: *feed,
            max: *max,
        }),
        Cmd::Unsubscribe { feed } => Ok(Cmd::Unsubscribe { feed: *feed }),
        Cmd::Shut => Ok(Cmd::Shut),
        Cmd::Sync => Ok(Cmd::Sync),
    }
}

fn points_copy(alloc: Global, points: &Seq<Point>) -> Result<Seq<Point>, Memory>
    ensures { IfOk result (λ p. p ≡ points.now) }
{
    let copy = points.as_slice().to_vec(alloc)?;
    Ok(Seq::from_vec(copy))
}

/// The same command, with the same points, that shares what it holds.
pub(crate) fn copied(alloc: Global, order: &Order) -> Result<Order, Memory>
    ensures { IfOk result (λ o. o ≡ order.now) }
{
    Ok(Order {
        points: points_copy(alloc, &order.points)?,
        cmd: cmd_copy(&order.cmd)?,
    })
}

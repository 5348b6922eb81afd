// A table that a history is given again.
ghost use Rattle.std.specs.Prelude.{◌≡◌, ◌≤◌, map, IfOk};
ghost use Rattle.reql_table_machine_spec.specs.Fed.{changes_at};
ghost use Rattle.reql_table.specs.Seen.{documents_of, indexes_of};
ghost use Rattle.reql_table_spec.specs.Engines.{kept_of, seen_in};
ghost use Rattle.reql_table_spec.specs.Machine.{State, after, reply, seen, unused, known_cmd};
ghost use Rattle.reql_table_spec.specs.Replies.{said_of};
ghost use Rattle.reql_table_spec.specs.Table.{feeding, at_key};
ghost use Rattle.reql_core.specs.Core.{state_of};
ghost use Rattle.reql_tally.specs.Views.{IsSeen};

use crate::copies::copied;
use reql_core::{Opening, TableCore};
use reql_memory::Memory;
use reql_shared::{Engine, Snap};
use reql_table::Table;
use reql_table_spec::{Entry, Keeping, Kept, Limits, Look, Said};
use std::alloc::Global;
use std::marker::Model;

/// A table with its feeds, to which the entries of another one's history are given.
#[derive(Drop)]
pub(crate) struct Replica<F: Opening> {
    alloc: Global,
    core: TableCore<F>,
}

impl<F: Opening> Model for Replica<F> {
    ghost use Rattle.std.specs.Coded.{codes};
    ghost use Rattle.reql_datum.specs.Code.{plain_code, list_code, pairs_code};
    ghost use Rattle.reql_term.specs.FormCode.{form_code};
    ghost use Rattle.reql_table_spec.specs.Machine.{State};
    ghost use Rattle.reql_core.specs.Core.{state_of};

    ghost Value = { State };

    ghost coded = { Prim.hlevel (codes, plain_code, list_code, pairs_code, form_code) };

    ghost view = { λ r. state_of F.held r.core };
}

/// What an entry was answered, and the changes that it made.
#[derive(Drop)]
pub(crate) struct Ran {
    pub(crate) said: Said,
    pub(crate) kept: Vec<Kept>,
}

/// The table after so many changes.
#[derive(Drop)]
pub(crate) struct SeenTable {
    pub(crate) stamp: u64,
    pub(crate) table: Table,
}

fn table_in(look: Look<Table>) -> Option<SeenTable>
    ensures { (s : State) → seen_in documents_of indexes_of look ≡ seen s → IsSeen s result }
{
    let Look {
        place: _,
        stamp,
        view,
    } = look;
    match view {
        None => None,
        Some(table) => Some(SeenTable { stamp, table }),
    }
}

/// Looks at the table of an engine, if it wasn't dropped.
pub(crate) fn looked<F: Opening>(engine: &TableCore<F>) -> Result<Option<SeenTable>, Memory>
    ensures { IfOk result (IsSeen (state_of F.held engine.now)) }
{
    let look = engine.ask(&Snap)?;
    let seen = table_in(look);
    Ok(seen)
}

impl<F: Opening> Replica<F> {
    /// An empty table that nobody has used.
    pub(crate) fn new(alloc: Global, limits: &Limits) -> Result<Replica<F>, Memory>
        requires { 2 ≤ limits.now.tail }
        ensures { IfOk result (λ r. r ≡ unused limits.now.feeds limits.now.tail) }
    {
        let core = TableCore::new(alloc, limits)?;
        Ok(Replica { alloc, core })
    }

    /// Gives it an entry.
    #[tactic(auto, using(crate::proofs::Replayed::moves))]
    pub(crate) fn run(&mut self, entry: &Entry) -> Result<Ran, Memory>
        ensures state { IfOk result (λ _. self.new
            ≡ after self.old entry.now.by entry.now.order) }
        ensures said { IfOk result (λ r. said_of r.said
            ≡ (reply self.old entry.now.by entry.now.order).said) }
        ensures kept { IfOk result (λ r. map kept_of r.kept.items
            ≡ map at_key (changes_at (feeding self.old.most) self.old.table entry.now.by
            (known_cmd entry.now.order.cmd))) }
    {
        let order = copied(self.alloc, &entry.order)?;
        match self.core.apply(entry.by, order) {
            Ok(reply) => Ok(Ran {
                said: reply.said,
                kept: self.core.take_kept(),
            }),
            Err(_) => Err(Memory),
        }
    }

    /// Looks at the table, if it wasn't dropped.
    pub(crate) fn look(&self) -> Result<Option<SeenTable>, Memory>
        ensures { IfOk result (IsSeen self.now) }
    {
        looked(&self.core)
    }
}

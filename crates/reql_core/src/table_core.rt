// The engine of a table, and the base and the tail of its history.
ghost use Rattle.std.specs.Prelude.{◌≡◌, ◌≤◌, ◌+◌, ◌-◌, ◌<◌, ◌^◌, ◌++◌, [], map, true, false, IfOk, IfErr, OnErr};
ghost use Rattle.reql_table_machine_spec.specs.Feeds.{adds};
ghost use Rattle.reql_table_spec.specs.Engines.{kept_of};
ghost use Rattle.reql_table.specs.Seen.{documents_of, indexes_of};
ghost use Rattle.reql_table_spec.specs.Machine.{known_cmd, opened, unused};
ghost use Rattle.reql_table_spec.specs.Replies.{said_of};
ghost use Rattle.reql_table_spec.specs.Table.{feeding};
ghost use Rattle.reql_tail.specs.Kept.{IsKept, standing};
ghost use Rattle.reql_core.specs.Core.{Hands, IsSame, GoesOn, stand_of, state_of, IsTail};
ghost use Rattle.reql_core.specs.Live.{Does};
ghost use Rattle.reql_core.specs.Moments.{led_by};

use crate::live::LiveTable;
use crate::moment::Moment;
use crate::writing::Wrote;
use reql_memory::Memory;
use reql_opening::Opening;
use reql_table::Table;
use reql_table_spec::{Entry, Kept, Limits, Order, Said};
use reql_tail::Tail;
use std::alloc::Global;
use std::marker::Model;

/// The engine of a table. It has no disk: it never fails, and it keeps the last entries of its history
/// in memory, and a base from which they go on.
#[derive(Drop)]
pub struct TableCore<F: Opening> {
    pub(crate) live: LiveTable<F>,
    pub(crate) tail: Tail<Moment>,
    // What the last command changed.
    pub(crate) kept: Vec<Kept>,
}

impl<F: Opening> Model for TableCore<F> {
    ghost use Rattle.std.specs.Prelude.{map};
    ghost use Rattle.std.specs.Coded.{codes};
    ghost use Rattle.reql_datum.specs.Code.{plain_code};
    ghost use Rattle.reql_term.specs.FormCode.{form_code};
    ghost use Rattle.reql_table_spec.specs.Engines.{kept_of};
    ghost use Rattle.reql_core.specs.Core.{Core, IsTail};

    ghost Value = { Core F };

    ghost coded = { Prim.hlevel (codes, plain_code, form_code) };

    ghost view = { λ c. record { live = c.live; tail = c.tail; kept = map kept_of c.kept.items } };

    ghost invariant = { λ c. IsTail c.tail c.live.moment };
}

/// The base of a table's history: the table after so many entries and so many changes. It is lent.
pub struct Base<'a> {
    pub place: u64,
    pub stamp: u64,
    pub table: &'a Table,
}

/// Whether a command that was answered so adds an entry.
pub(crate) fn adds_entry(said: &Said) -> bool
    ensures { result ≡ adds (feeding 0) (said_of said.now) }
{
    match said {
        Said::Nothing => false,
        Said::Gone => false,
        Said::HistoryFull { count: _ } => false,
        Said::Done(_) => true,
        Said::Changed => true,
        Said::IndexExists => true,
        Said::IndexMissing => true,
        Said::Opened {
            feed: _,
            opening: _,
        } => true,
        Said::FeedsFull { count: _ } => true,
        Said::Batch {
            skipped: _,
            last: _,
            items: _,
        } => true,
        Said::FeedUnknown { feed: _ } => true,
        Said::Closed => true,
    }
}

// The tail has the command as its last entry, if the command adds one.
#[tactic(auto, using(crate::proofs::Tails::goes_by, crate::proofs::Tails::stays_by))]
fn lengthen(tail: &mut Tail<Moment>, by: u64, order: Order, said: &Said)
    requires ready { tail.old.ready ≡ true }
    ensures goes { (adds (feeding 0) (said_of said.now) ≡ true) → standing stand_of led_by tail.new
        ≡ led_by (standing stand_of led_by tail.old) (record { by = by; order = order }) }
    ensures stays { (adds (feeding 0) (said_of said.now) ≡ false) → tail.new ≡ tail.old }
    ensures goes_on { GoesOn (adds (feeding 0) (said_of said.now)) tail.old tail.new
        (record { by = by; order = order }) }
{
    if adds_entry(said) {
        tail.push(Entry { by, order });
    }
}

impl<F: Opening> TableCore<F> {
    /// An engine that nobody has used, over an empty table.
    pub fn new(alloc: Global, limits: &Limits) -> Result<TableCore<F>, Memory>
        requires { 2 ≤ limits.now.tail }
        ensures state { IfOk result (λ c. state_of F.held c ≡ unused limits.now.feeds limits.now.tail) }
        ensures base { IfOk result (λ c. c.tail.base ≡ c.tail.opening) }
        ensures most { IfOk result (λ c. c.tail.most ≡ limits.now.tail) }
        ensures entries { IfOk result (λ c. c.tail.entries ≡ []) }
        ensures kept { IfOk result (λ c. c.kept ≡ []) }
    {
        let core = TableCore::opened(alloc, Table::new(alloc), false, limits)?;
        Ok(core)
    }

    /// An engine that nobody has used, over a table that was kept, at place 0.
    pub fn opened(
        alloc: Global,
        table: Table,
        shut: bool,
        limits: &Limits,
    ) -> Result<TableCore<F>, Memory>
        requires { 2 ≤ limits.now.tail }
        ensures state { IfOk result (λ c. state_of F.held c ≡ opened limits.now.feeds
            limits.now.tail (documents_of table) (indexes_of table) shut) }
        ensures base { IfOk result (λ c. c.tail.base ≡ record { table = table; place = 0; stamp = 0 }) }
        ensures opening { IfOk result (λ c. c.tail.opening ≡ c.tail.base) }
        ensures most { IfOk result (λ c. c.tail.most ≡ limits.now.tail) }
        ensures entries { IfOk result (λ c. c.tail.entries ≡ []) }
        ensures kept { IfOk result (λ c. c.kept ≡ []) }
    {
        let start = Moment {
            table: table.share()?,
            place: 0,
            stamp: 0,
        };
        Ok(TableCore {
            live: LiveTable::opened(alloc, table, shut, limits.feeds),
            tail: Tail::new(alloc, start, limits.tail),
            kept: Vec::new(alloc),
        })
    }

    /// The base: the table from which the kept entries lead to what the table is now. It is where the
    /// history began until more entries came than are kept. It takes no memory.
    pub fn base(&self) -> Base<'_>
        ensures base { record { table = result.table.now; place = result.place; stamp = result.stamp } ≡ self.now.tail.base }
        ensures kept { IsKept stand_of led_by (λ t. t.place) self.now.tail }
        ensures tail { IsTail self.now.tail self.now.live.moment }
    {
        let base = self.tail.base();
        Base {
            place: base.place,
            stamp: base.stamp,
            table: &base.table,
        }
    }

    /// The entries since the base, oldest first, in two parts. It takes no memory.
    pub fn tail(&self) -> (&[Entry], &[Entry])
        ensures { result.0.now ++ result.1.now ≡ self.now.tail.entries }
    {
        self.tail.entries()
    }

    // Makes room for the entry of the next command.
    pub(crate) fn make_room(&mut self) -> Result<(), Memory>
        ensures live { self.new.live ≡ self.old.live }
        ensures kept { self.new.kept ≡ self.old.kept }
        ensures tail { IsSame self.old.tail self.new.tail }
        ensures ready { IfOk result (λ _. self.new.tail.ready ≡ true) }
    {
        self.tail.reserve(self.live.alloc, &self.live.moment)?;
        Ok(())
    }

    // Whether the history has no room for an entry.
    pub(crate) fn is_full(&self) -> bool
        ensures full { (result ≡ true) → self.now.live.moment.place ≡ 2 ^ 64 - 1 }
        ensures room { (result ≡ false) → self.now.live.moment.place + 1 < 2 ^ 64 }
    {
        self.live.moment.place == u64::MAX
    }

    // Runs a command where the history has no room for an entry: nothing changes.
    pub(crate) fn run_full(&mut self, by: u64, order: &Order) -> Said
        requires full { self.old.live.moment.place ≡ 2 ^ 64 - 1 }
        ensures does { Does F.held by (known_cmd order.now.cmd) self.old.live self.new.live result }
        ensures live { self.new.live ≡ self.old.live }
        ensures kept { Hands F.held self.old.live by order.now self.new.kept }
        ensures tail { self.new.tail ≡ self.old.tail }
    {
        let said = self.live.full(by, &order.cmd);
        self.kept = Vec::new(self.live.alloc);
        said
    }

    // Runs a command, for whose entry all room is there, and keeps what it changed. On Err all is as
    // it was.
    fn run_ready(&mut self, by: u64, order: Order) -> Result<Said, Order>
        requires room { self.old.live.moment.place + 1 < 2 ^ 64 }
        requires ready { self.old.tail.ready ≡ true }
        ensures does { IfOk result (λ s. Does F.held by (known_cmd order.cmd) self.old.live
            self.new.live s) }
        ensures kept { IfOk result (λ _. Hands F.held self.old.live by order self.new.kept) }
        ensures tail { IfOk result (λ s. GoesOn (adds (feeding 0) (said_of s)) self.old.tail
            self.new.tail (record { by = by; order = order })) }
        ensures same { OnErr result (self.new ≡ self.old) }
        ensures back { IfErr result (λ back. back ≡ order) }
    {
        match self.live.run(by, &order.cmd) {
            Ok(wrote) => {
                let Wrote { said, kept } = wrote;
                self.kept = kept;
                lengthen(&mut self.tail, by, order, &said);
                Ok(said)
            }
            Err(Memory) => Err(order),
        }
    }

    // Runs a command, and keeps what it changed. The history has room for its entry. On Err nothing
    // has changed but the room.
    #[tactic(auto, using(crate::proofs::Tails::goes_from))]
    pub(crate) fn run(&mut self, by: u64, order: Order) -> Result<Said, Order>
        requires room { self.old.live.moment.place + 1 < 2 ^ 64 }
        ensures does { IfOk result (λ s. Does F.held by (known_cmd order.cmd) self.old.live
            self.new.live s) }
        ensures kept { IfOk result (λ _. Hands F.held self.old.live by order self.new.kept) }
        ensures tail { IfOk result (λ s. GoesOn (adds (feeding 0) (said_of s)) self.old.tail
            self.new.tail (record { by = by; order = order })) }
        ensures same { OnErr result (self.new.live ≡ self.old.live) }
        ensures same_kept { OnErr result (self.new.kept ≡ self.old.kept) }
        ensures same_tail { OnErr result (IsSame self.old.tail self.new.tail) }
        ensures back { IfErr result (λ back. back ≡ order) }
    {
        if self.make_room().is_err() {
            return Err(order);
        }
        self.run_ready(by, order)
    }
}

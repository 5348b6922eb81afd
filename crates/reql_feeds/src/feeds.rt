// The open feeds of a table.
ghost use Rattle.std.specs.Prelude.{◌≡◌, ◌<◌, ◌^◌, ◌++◌, [], ◌∷◌, map, length, suc, is_ok, IfOk, OnOk, OnErr, if◌then◌else◌, option_map};
ghost use Rattle.std.specs.Option.{is_some};
ghost use Rattle.reql_table_machine_spec.specs.Feeds.{find_feed, has_something};
ghost use Rattle.reql_feeds.specs.Ahead.{all_ahead, IsDraft};
ghost use Rattle.reql_feeds.specs.Record.{fresh, kept_in, records, closed, AreBelow, AllFit, after_take, given, batch};
ghost use Rattle.reql_feeds.specs.Told.{noticed};
ghost use Rattle.reql_feeds.specs.Turn.{told, undone, Leads};

use crate::closing::close_entry;
use crate::draft::Draft;
use crate::drafting::{blanks, commit_all, hear_all};
use crate::entry::Entry;
use crate::following::Following;
use crate::keyed::Keyed;
use crate::taking::{finds_something, take_of};
use crate::telling::tell_entries;
use reql_datum::Datum;
use reql_memory::Memory;
use reql_queue::{Queue, Taken};
use reql_write_spec::Change;
use std::alloc::Global;
use std::marker::Model;

/// The open feeds of a table, in the order of their opening. Contracts see the list of their records,
/// with each feed as it is kept.
#[derive(Drop)]
pub struct Feeds<F: Following> {
    entries: Vec<Entry<Keyed<F>>>,
}

impl<F: Following> Model for Feeds<F> {
    ghost use Rattle.std.specs.Prelude.{List};
    ghost use Rattle.std.specs.Coded.{coded_list};
    ghost use Rattle.reql_datum.specs.Code.{plain_code};
    ghost use Rattle.reql_datum.specs.Plain.{Plain};
    ghost use Rattle.reql_table_machine_spec.specs.Feeds.{Feed};
    ghost use Rattle.reql_feeds.specs.Record.{feed_code};
    ghost use Rattle.reql_feeds.specs.Keeps.{Keeps, feeds_of};
    ghost use Rattle.reql_feeds.specs.Seen.{all_sized};

    ghost Value = { List (Feed F Plain) };

    ghost coded = { coded_list (feed_code F.code plain_code) };

    ghost view = { λ s. feeds_of (all_sized s.entries.items) };

    ghost invariant = { λ s. Keeps F.held (all_sized s.entries.items) };
}

impl<F: Following> Feeds<F> {
    /// No feeds. It takes no memory.
    pub fn new(alloc: Global) -> Feeds<F>
        ensures { result ≡ [] }
    {
        Feeds {
            entries: Vec::new(alloc),
        }
    }

    /// How many are open.
    pub fn len(&self) -> usize
        ensures { result ≡ length self.now }
    {
        self.entries.len()
    }

    /// Opens a feed: it is the last, and nothing waits for it. Numbers rise in the order of opening.
    /// Memory leaves all as it was.
    pub fn open(&mut self, owner: u64, number: u64, stamp: u64, feed: F) -> Result<(), Memory>
        requires { AreBelow number self.old }
        ensures { self.new ≡ (if is_ok result then self.old ++ fresh owner number stamp feed ∷ []
            else self.old) }
    {
        let kept = Keyed::new(*self.entries.allocator(), feed)?;
        let queue = Queue::new(kept.spec().size.max(1));
        self.entries.push(Entry {
            owner,
            number,
            opened: stamp,
            kept,
            queue,
        })?;
        Ok(())
    }

    /// Whether who owns a feed of this number finds something in it; none where there is no such feed.
    pub fn has_something(&self, owner: u64, number: u64) -> Option<bool>
        ensures { result ≡ option_map has_something
            (find_feed owner number (records F.held self.now)) }
    {
        finds_something(&self.entries, owner, number)
    }

    /// Closes the feed of an owner and number, and says whether there was one.
    pub fn close(&mut self, owner: u64, number: u64) -> bool
        ensures there { result ≡ is_some (find_feed owner number self.old) }
        ensures closed { self.new ≡ closed owner number self.old }
    {
        close_entry(&mut self.entries, owner, number)
    }

    /// Takes what waits in the feed of an owner and number, `max` items at most; of a feed that squashes
    /// all, joined. None where there is no such feed. Memory leaves all as it was.
    pub fn take(
        &mut self,
        alloc: Global,
        owner: u64,
        number: u64,
        max: u32,
    ) -> Result<Option<Taken<Datum>>, Memory>
        ensures given { IfOk result (λ r. option_map batch r ≡ option_map (given max)
            (find_feed owner number (records F.held self.old))) }
        ensures left { records F.held self.new ≡ (if is_ok result
            then after_take owner number max (records F.held self.old)
            else records F.held self.old) }
        ensures kept { kept_in self.new ≡ kept_in self.old }
        ensures same { OnErr result (self.new ≡ self.old) }
    {
        take_of(alloc, &mut self.entries, owner, number, max)
    }

    /// Tells each feed of a change that led to `after`: what it is to the feed is queued with the stamp
    /// after `stamp`, and the feed follows. All is prepared and all room made first, so that memory
    /// leaves all as it was.
    pub fn tell_one(
        &mut self,
        alloc: Global,
        change: &Change,
        after: &F::After,
        stamp: u64,
    ) -> Result<(), Memory>
        requires leads { Leads (told change.now) (F.documents after.now) }
        requires fits { AllFit F.fits (undone (told change.now) (F.documents after.now))
            (kept_in self.old) }
        requires reads { AllFit F.reads after.now (kept_in self.old) }
        requires stamp { suc stamp < 2 ^ 64 }
        ensures told { OnOk result (records F.held self.new
            ≡ map (noticed stamp (told change.now) (F.documents after.now))
            (records F.held self.old)) }
        ensures fits { OnOk result (AllFit F.fits (F.documents after.now) (kept_in self.new)) }
        ensures reads { OnOk result ((table : F.After) → AllFit F.reads table (kept_in self.old)
            → AllFit F.reads table (kept_in self.new)) }
        ensures same { OnErr result (self.new ≡ self.old) }
    {
        tell_entries(alloc, &mut self.entries, change, after, stamp)
    }

    /// A draft of all feeds as they are.
    pub fn draft(&self, alloc: Global) -> Result<Draft<F>, Memory>
        ensures draft { IfOk result (λ d. IsDraft F.held self.now d) }
        ensures same { IfOk result (λ d. all_ahead F.held self.now d ≡ self.now) }
    {
        let shadows = blanks(alloc, &self.entries)?;
        Ok(Draft { shadows })
    }

    /// Tells each feed of a change, as it will be by a draft of these feeds. The change led to `after`
    /// from the table to which the changes before it led; `stamp` is the one before the change. The
    /// feeds themselves stay as they are.
    pub fn tell(
        &self,
        alloc: Global,
        draft: Draft<F>,
        change: &Change,
        after: &F::After,
        stamp: u64,
    ) -> Result<Draft<F>, Memory>
        requires draft { IsDraft F.held self.now draft }
        requires leads { Leads (told change.now) (F.documents after.now) }
        requires fits { AllFit F.fits (undone (told change.now) (F.documents after.now))
            (kept_in (all_ahead F.held self.now draft)) }
        requires reads { AllFit F.reads after.now (kept_in (all_ahead F.held self.now draft)) }
        requires stamp { suc stamp < 2 ^ 64 }
        ensures draft { IfOk result (λ d. IsDraft F.held self.now d) }
        ensures told { IfOk result (λ d. records F.held (all_ahead F.held self.now d)
            ≡ map (noticed stamp (told change.now) (F.documents after.now))
            (records F.held (all_ahead F.held self.now draft))) }
        ensures fits { IfOk result (λ d. AllFit F.fits (F.documents after.now)
            (kept_in (all_ahead F.held self.now d))) }
        ensures reads { IfOk result (λ d. (table : F.After)
            → AllFit F.reads table (kept_in (all_ahead F.held self.now draft))
            → AllFit F.reads table (kept_in (all_ahead F.held self.now d))) }
    {
        let Draft { mut shadows } = draft;
        hear_all(alloc, &self.entries, &mut shadows, change, after, stamp)?;
        Ok(Draft { shadows })
    }

    /// Lets the feeds be what they will be by a draft of them. All room is made first, so that memory
    /// leaves all as it was.
    pub fn commit(&mut self, alloc: Global, draft: Draft<F>) -> Result<(), Memory>
        requires { IsDraft F.held self.old draft }
        ensures { self.new ≡ (if is_ok result then all_ahead F.held self.old draft else self.old) }
    {
        let Draft { shadows } = draft;
        commit_all(alloc, &mut self.entries, shadows)
    }
}

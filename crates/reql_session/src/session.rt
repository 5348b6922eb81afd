// A session at its desk.
ghost use Rattle.std.specs.Prelude.{◌≡◌, ◌≤◌, [], IfOk, IfErr, length};
ghost use Rattle.reql_hall.specs.Rooms.{Sits};
ghost use Rattle.reql_session_spec.specs.Books.{no_books};
ghost use Rattle.reql_open_cursors.specs.Kept.{books_of};
ghost use Rattle.reql_session.specs.Settling.{working};
ghost use Rattle.reql_session.specs.Keeping.{Keeps};

use crate::beginning::take_up;
use crate::leaving::leave_all;
use crate::visits::visit_all;
use crate::voice::Voice;
use reql_catalog::Catalogue;
use reql_hall::{Desk, Hall};
use reql_memory::Refused;
use reql_open_cursors::Shelf;
use reql_outside::{Clock, Dice, Link, Rolled};
use reql_session_api::Planner;
use reql_session_spec::{End, Planning};
use reql_table_spec::{Limits, TableEngine};
use reql_turns::Handler;
use reql_wire::Frame;
use std::alloc::Global;
use std::sync::Wait;

/// What a session works with, and gives back at its end: a desk, a clock and dice.
#[derive(Drop)]
pub struct Bench<C: TableEngine, D, T> {
    pub desk: Desk<C, Catalogue>,
    pub clock: T,
    pub dice: D,
}

/// What handles the frames of a session: it plans what they ask for, follows the plans at a desk of a hall, with a clock and
/// dice, and keeps what is open.
#[derive(Drop)]
pub struct Session<
    'a,
    R: Wait,
    C: TableEngine + Drop,
    P: Planner<View = <C as TableEngine>::View>,
    D: Dice + Drop,
    T: Clock + Drop,
> {
    rt: &'a R,
    alloc: Global,
    hall: &'a Hall<C, Catalogue>,
    desk: Desk<C, Catalogue>,
    slots: u32,
    planner: &'a P,
    clock: T,
    dice: D,
    voice: Voice,
    shelf: Shelf,
}

impl<
    'a,
    R: Wait,
    C: TableEngine + Drop,
    P: Planner<View = <C as TableEngine>::View>,
    D: Dice + Drop,
    T: Clock + Drop,
> Session<'a, R, C, P, D, T> {
    /// A session that has nothing open, at a desk of this hall, which has so many slots. An `Err` hands all of the bench back.
    pub fn new(
        rt: &'a R,
        alloc: Global,
        hall: &'a Hall<C, Catalogue>,
        bench: Bench<C, D, T>,
        slots: u32,
        planner: &'a P,
    ) -> Result<Self, Refused<Bench<C, D, T>>>
        requires of_this_hall { Sits hall.now bench.desk }
        requires slots { slots ≡ length hall.now.slots }
        ensures hall { IfOk result (λ s. s.hall ≡ hall.entry) }
        ensures planner { IfOk result (λ s. s.planner ≡ planner.entry) }
        ensures slots { IfOk result (λ s. s.slots ≡ slots) }
        ensures work { IfOk result (λ s. working C.some_state s.desk (books_of s.shelf) (T.told s.clock) (D.told s.dice)
            ≡ working C.some_state bench.desk no_books (T.told bench.clock) (D.told bench.dice)) }
        ensures desk { IfOk result (λ s. s.desk ≡ bench.desk) }
        ensures back { IfErr result (λ refused. refused.back ≡ bench) }
    {
        let Ok(voice) = Voice::new(alloc) else {
            return Err(Refused { back: bench });
        };
        let Bench { desk, clock, dice } = bench;
        Ok(Session {
            rt,
            alloc,
            hall,
            desk,
            slots,
            planner,
            clock,
            dice,
            voice,
            shelf: Shelf::new(alloc),
        })
    }

    /// Its bench, with which it is done.
    pub fn into_bench(self) -> Bench<C, D, T>
        ensures desk { result.desk ≡ self.entry.desk }
        ensures clock { result.clock ≡ self.entry.clock }
        ensures dice { result.dice ≡ self.entry.dice }
    {
        let Session {
            desk,
            clock,
            dice,
            ..
        } = self;
        Bench { desk, clock, dice }
    }
}

impl<
    'a,
    R: Wait,
    C: TableEngine + Drop,
    P: Planner<View = <C as TableEngine>::View>,
    D: Dice + Drop,
    T: Clock + Drop,
    L: Link,
> Handler<L> for Session<'a, R, C, P, D, T>
where
    <P as Planning>::Plan: Drop,
    <P as Planner>::Course: Drop,
{
    ghost use Rattle.std.specs.Prelude.{◌≤◌, [], length};
    ghost use Rattle.reql_hall.specs.Rooms.{Sits};
    ghost use Rattle.reql_open_cursors.specs.Kept.{books_of};
    ghost use Rattle.reql_session.specs.Settling.{working};
    ghost use Rattle.reql_session.specs.Keeping.{Keeps};

    type Plan = P::Plan;

    ghost talk = { λ s. P.talk s.planner.now };

    ghost work = { λ s. working C.some_state s.desk (books_of s.shelf) (T.told s.clock) (D.told s.dice) };

    ghost ready = { λ s. Sits s.hall.now s.desk × (s.slots ≤ length s.hall.now.slots)
        × Keeps (length s.hall.now.slots) [] (books_of s.shelf) };

    ghost hall = { λ s. s.hall.now };

    fn key(&self) -> &[u8] {
        self.planner.key()
    }

    fn password(&self) -> &[u8] {
        self.planner.password()
    }

    fn limits(&self) -> &Limits {
        self.planner.limits()
    }

    fn roll(&mut self) -> Option<[u8; 16]> {
        match self.dice.roll() {
            Rolled::Bytes(bytes) => Some(bytes),
            Rolled::Failed => None,
        }
    }

    fn visit(&mut self, link: &mut L) -> Option<End> {
        let tokens = self.shelf.take_waiting(self.alloc);
        visit_all::<P, R, C, L>(
            self.rt,
            self.alloc,
            self.hall,
            &mut self.desk,
            &mut self.voice,
            link,
            self.planner.limits(),
            &mut self.shelf,
            tokens.as_slice(),
        )
    }

    fn handle(&mut self, link: &mut L, frame: &Frame) -> Option<End> {
        take_up(
            self.rt,
            self.alloc,
            self.hall,
            &mut self.desk,
            self.slots,
            &mut self.clock,
            &mut self.dice,
            self.planner,
            &mut self.voice,
            link,
            &mut self.shelf,
            frame.token,
            frame.body.as_slice(),
        )
    }

    fn leave(&mut self) {
        leave_all::<P, R, C>(
            self.rt,
            self.alloc,
            self.hall,
            &mut self.desk,
            self.shelf.feeds.as_slice(),
        );
    }
}

ghost use Rattle.std.specs.Prelude.{◌≡◌, ◌≢◌, ◌-◌, ◌^◌, ◌<◌, ℕ, [], min, length, IfOk, IfErr};
ghost use Rattle.reql_shared.specs.Acts.{Ran, Looked, Denied, Acts};
ghost use Rattle.reql_hall.specs.Rooms.{Sits, Tells, pass, with_more};

use crate::hall::Hall;
use reql_memory::{Memory, Refused};
use reql_shared::{Engine, Pass};
use std::alloc::Global;
use std::marker::Model;
use std::sync::Wait;

/// What one thread uses of a hall: a pass on the names and one on each slot, all with the desk's number.
#[derive(Drop)]
pub struct Desk<C: Engine, N: Engine> {
    pub(crate) names: Pass<N>,
    pub(crate) slots: Vec<Pass<C>>,
}

impl<C: Engine, N: Engine> Model for Desk<C, N> {
    ghost use Rattle.reql_hall.specs.Rooms.{Sitting};

    ghost Value = { Sitting C.Cmd C.State N.Cmd N.State };

    ghost view = { λ d. record { names = d.names; slots = d.slots.items } };
}

impl<C: Engine + Drop, N: Engine + Drop> Desk<C, N> {
    // A desk with no slot yet.
    pub(crate) fn without_slots(alloc: Global, names: Pass<N>) -> Self
        ensures names { result.names ≡ names }
        ensures slots { result.slots ≡ [] }
    {
        Desk {
            names,
            slots: Vec::new(alloc),
        }
    }

    // Takes a pass for the next slot.
    pub(crate) fn gain(&mut self, pass: Pass<C>) -> Result<(), Memory>
        ensures { IfOk result (λ done. self.new ≡ with_more self.old pass) }
    {
        match self.slots.push(pass) {
            Ok(()) => Ok(()),
            Err(_) => Err(Memory),
        }
    }

    /// The number that its commands carry, from 0.
    pub fn number(&self) -> u64
        ensures { result ≡ self.now.names.number }
    {
        self.names.number()
    }

    /// How many of its commands and looks on a slot were answered or refused, and 2^64 - 1 from there on.
    pub fn visits(&self, slot: u32) -> u64
        requires there { slot < length self.now.slots }
        ensures { result ≡ min (length (pass C.some_state self.now slot).marks) (2 ^ 64 - 1) }
    {
        self.slots[slot as usize].visits()
    }

    /// How many entries of a slot's history it has seen.
    pub fn place(&self, slot: u32) -> u64
        requires there { slot < length self.now.slots }
        ensures { result ≡ length (pass C.some_state self.now slot).seen }
    {
        self.slots[slot as usize].place()
    }

    /// How many entries of the names' history it has seen.
    pub fn names_place(&self) -> u64
        ensures { result ≡ length self.now.names.seen }
    {
        self.names.place()
    }

    /// Runs a command on a slot. It may wait for other threads.
    pub fn run<R: Wait>(
        &mut self,
        rt: &R,
        hall: &Hall<C, N>,
        slot: u32,
        order: C::Cmd,
    ) -> Result<C::Reply, Refused<C::Cmd>>
        requires of_this_hall { Sits hall.now self.old }
        requires there { slot < length hall.now.slots }
        ensures of_this_hall { Sits hall.now self.new }
        ensures names { self.new.names ≡ self.old.names }
        ensures others { (t : ℕ) → t ≢ slot
            → pass C.some_state self.new t ≡ pass C.some_state self.old t }
        ensures ran { IfOk result (λ reply. (place : ℕ) × Acts C.machine
            (pass C.some_state self.old slot) (pass C.some_state self.new slot)
            (Ran place order (C.told reply))) }
        ensures tells { IfOk result (λ reply. Tells C.machine C.state C.tells
            (pass C.some_state self.old slot) order reply) }
        ensures refused { IfErr result (λ refused. (place : ℕ) × Acts C.machine
            (pass C.some_state self.old slot) (pass C.some_state self.new slot) (Denied place)) }
        ensures back { IfErr result (λ refused. refused.back ≡ order) }
    {
        hall.slots[slot as usize].run(rt, &mut self.slots[slot as usize], order)
    }

    /// Asks a slot's engine a question. It may wait for other threads.
    pub fn look<R: Wait>(
        &mut self,
        rt: &R,
        hall: &Hall<C, N>,
        slot: u32,
        question: &C::Question,
    ) -> Result<C::Answer, Memory>
        requires of_this_hall { Sits hall.now self.old }
        requires there { slot < length hall.now.slots }
        ensures of_this_hall { Sits hall.now self.new }
        ensures names { self.new.names ≡ self.old.names }
        ensures others { (t : ℕ) → t ≢ slot
            → pass C.some_state self.new t ≡ pass C.some_state self.old t }
        ensures looked { IfOk result (λ answer. (place : ℕ) × Acts C.machine
            (pass C.some_state self.old slot) (pass C.some_state self.new slot)
            (Looked place question.now (C.heard answer))) }
        ensures denied { IfErr result (λ memory. (place : ℕ) × Acts C.machine
            (pass C.some_state self.old slot) (pass C.some_state self.new slot) (Denied place)) }
    {
        hall.slots[slot as usize].look(rt, &mut self.slots[slot as usize], question)
    }

    /// Runs a command on the names. It may wait for other threads.
    pub fn change_names<R: Wait>(
        &mut self,
        rt: &R,
        hall: &Hall<C, N>,
        cmd: N::Cmd,
    ) -> Result<N::Reply, Refused<N::Cmd>>
        requires of_this_hall { Sits hall.now self.old }
        ensures of_this_hall { Sits hall.now self.new }
        ensures slots { (t : ℕ) → pass C.some_state self.new t ≡ pass C.some_state self.old t }
        ensures ran { IfOk result (λ reply. (place : ℕ)
            × Acts N.machine self.old.names self.new.names (Ran place cmd (N.told reply))) }
        ensures tells { IfOk result (λ reply. Tells N.machine N.state N.tells self.old.names
            cmd reply) }
        ensures refused { IfErr result (λ refused. (place : ℕ)
            × Acts N.machine self.old.names self.new.names (Denied place)) }
        ensures back { IfErr result (λ refused. refused.back ≡ cmd) }
    {
        hall.names.run(rt, &mut self.names, cmd)
    }

    /// Asks the names a question. It may wait for other threads.
    pub fn look_names<R: Wait>(
        &mut self,
        rt: &R,
        hall: &Hall<C, N>,
        question: &N::Question,
    ) -> Result<N::Answer, Memory>
        requires of_this_hall { Sits hall.now self.old }
        ensures of_this_hall { Sits hall.now self.new }
        ensures slots { (t : ℕ) → pass C.some_state self.new t ≡ pass C.some_state self.old t }
        ensures looked { IfOk result (λ answer. (place : ℕ)
            × Acts N.machine self.old.names self.new.names
            (Looked place question.now (N.heard answer))) }
        ensures denied { IfErr result (λ memory. (place : ℕ)
            × Acts N.machine self.old.names self.new.names (Denied place)) }
    {
        hall.names.look(rt, &mut self.names, question)
    }
}

// The slots that a request looks at.
ghost use Rattle.std.specs.Prelude.{◌≡◌, ◌<◌, ◌≤◌, ◌++◌, IfOk, drop, get_or, length};
ghost use Rattle.reql_term.specs.View.{form_of};
ghost use Rattle.reql_plan_spec.specs.Reads.{read_slots as read_slots_of, rising as rising_of, with_slot as with_slot_of};

use crate::followed::add_from;
use crate::reading::reads_in;
use reql_datum::{Memory, Seq};
use reql_term::Term;
use std::alloc::Global;

/// The slots that a term reads before it is evaluated, rising, each once. The table that a command at
/// its root is run on isn't among them unless it is read besides.
pub fn read_slots(alloc: Global, term: &Term) -> Result<Seq<u32>, Memory>
    ensures { IfOk result (λ slots. slots ≡ read_slots_of (form_of term.now)) }
{
    let found = reads_in(alloc, term)?;
    let slots = rising(alloc, &found)?;
    Ok(Seq::from_vec(slots))
}

// The numbers, rising, each once.
#[tactic(auto, using(crate::proofs::Inserted::inserted))]
fn rising(alloc: Global, numbers: &[u32]) -> Result<Vec<u32>, Memory>
    ensures { IfOk result (λ slots. slots.items ≡ rising_of numbers.now) }
{
    let mut slots = Vec::new(alloc);
    let mut place = numbers.len();
    while place > 0 {
        place -= 1;
        slots = with_slot(alloc, numbers[place], &slots)?;
    }
    Ok(slots)
}

// The numbers with one more, before the first that is above it, unless it is there.
#[tactic(auto, using(crate::proofs::Inserted::inserted))]
fn with_slot(alloc: Global, slot: u32, slots: &[u32]) -> Result<Vec<u32>, Memory>
    ensures { IfOk result (λ more. more.items ≡ with_slot_of slot slots.now) }
{
    let mut below = Vec::new(alloc);
    let mut place = 0;
    while place < slots.len() {
        let known = slots[place];
        if slot <= known {
            return joined(below, slot, slots, place);
        }
        below.push(known)?;
        place += 1;
    }
    below.push(slot)?;
    Ok(below)
}

// The numbers below one, then it, and those from a place on, all of which are above or the first the same.
#[tactic(auto, using(crate::proofs::Inserted::inserted))]
fn joined(below: Vec<u32>, slot: u32, slots: &[u32], place: usize) -> Result<Vec<u32>, Memory>
    requires there { place < length slots.now }
    requires below { slot ≤ get_or slots.now place 0 }
    ensures { IfOk result (λ more. more.items
        ≡ below.items ++ with_slot_of slot (drop place slots.now)) }
{
    let mut more = below;
    if slot < slots[place] {
        more.push(slot)?;
    }
    add_from(&mut more, slots, place)?;
    Ok(more)
}

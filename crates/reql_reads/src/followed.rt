// The slots that a feed reads besides the tables that it follows.
ghost use Rattle.std.specs.Prelude.{◌≡◌, ◌++◌, drop, IfOk};
ghost use Rattle.reql_term.specs.Form.{forms_of};
ghost use Rattle.reql_term.specs.View.{form_of};
ghost use Rattle.reql_faults.specs.Shapes.{shape};
ghost use Rattle.reql_write_spec.specs.Selecting.{slots as slots_of_form, slots_named};
ghost use Rattle.reql_plan_spec.specs.Reads.{arms_read, args_of, options_of, feed_reads};

use crate::slotting::{add_named, add_slots, slots};
use reql_datum::Memory;
use reql_faults::{Shape, shape_of};
use reql_term::{Term, Terms};
use std::alloc::Global;

/// Adds the numbers from a place on.
#[tactic(auto, using(crate::proofs::Inserted::inserted))]
pub(crate) fn add_from(found: &mut Vec<u32>, more: &[u32], from: usize) -> Result<(), Memory>
    ensures { IfOk result (λ _. found.new.items ≡ found.old.items ++ drop from more.now) }
{
    let mut place = from;
    while place < more.len() {
        found.push(more[place])?;
        place += 1;
    }
    Ok(())
}

// The slots of a term but the first.
fn add_later(alloc: Global, found: &mut Vec<u32>, term: &Term) -> Result<(), Memory>
    ensures { IfOk result (λ _. found.new.items
        ≡ found.old.items ++ drop 1 (slots_of_form (form_of term.now))) }
{
    let inside = slots(alloc, term)?;
    add_from(found, &inside, 1)
}

// Those of each arm but its first.
#[tactic(auto, using(reql_datum::proofs::Walks::walks))]
fn add_arms(alloc: Global, found: &mut Vec<u32>, terms: &Terms) -> Result<(), Memory>
    ensures { IfOk result (λ _. found.new.items
        ≡ found.old.items ++ arms_read (forms_of terms.now)) }
{
    let mut place = 0;
    while let Some(term) = terms.at(place) {
        add_later(alloc, found, term)?;
        place += 1;
    }
    Ok(())
}

// Those of the arms of a united feed, and of its options.
fn add_united(alloc: Global, found: &mut Vec<u32>, term: &Term) -> Result<(), Memory>
    ensures { IfOk result (λ _. found.new.items ≡ found.old.items
        ++ (arms_read (args_of (form_of term.now)) ++ slots_named (options_of (form_of term.now)))) }
{
    match term {
        Term::Op { op: _, args, opts } => {
            add_arms(alloc, found, args)?;
            add_named(found, opts)
        }
        _ => Ok(()),
    }
}

/// Adds what a feed on this term reads besides what it follows.
pub(crate) fn add_followed(alloc: Global, found: &mut Vec<u32>, term: &Term) -> Result<(), Memory>
    ensures { IfOk result (λ _. found.new.items
        ≡ found.old.items ++ feed_reads (shape (form_of term.now)) (form_of term.now)) }
{
    match shape_of(term) {
        Some(Shape::Limit) => add_slots(found, term),
        Some(Shape::United) => add_united(alloc, found, term),
        Some(Shape::Range) => add_later(alloc, found, term),
        Some(Shape::Point) => add_later(alloc, found, term),
        None => add_later(alloc, found, term),
    }
}

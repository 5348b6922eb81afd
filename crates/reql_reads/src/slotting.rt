// The slots that stand in a term.
ghost use Rattle.std.specs.Prelude.{◌≡◌, ◌++◌, [], IfOk};
ghost use Rattle.reql_term.specs.Form.{forms_of, named_of};
ghost use Rattle.reql_term.specs.View.{form_of};
ghost use Rattle.reql_write_spec.specs.Selecting.{slots as slots_of_form, slots_of, slots_named};
ghost use Rattle.reql_table_spec.specs.Followed.{first_slot as first_slot_of};

use reql_datum::Memory;
use reql_term::{Term, TermFields, Terms};
use std::alloc::Global;

/// The slots that stand in a term, in preorder.
pub fn slots(alloc: Global, term: &Term) -> Result<Vec<u32>, Memory>
    ensures { IfOk result (λ found. found.items ≡ slots_of_form (form_of term.now)) }
{
    let mut found = Vec::new(alloc);
    add_slots(&mut found, term)?;
    Ok(found)
}

/// The first slot that stands in a term, 0 where none does.
pub fn first_slot(alloc: Global, term: &Term) -> Result<u32, Memory>
    ensures { IfOk result (λ n. n ≡ first_slot_of (slots_of_form (form_of term.now))) }
{
    let found = slots(alloc, term)?;
    Ok(first_of(&found))
}

fn first_of(slots: &[u32]) -> u32
    ensures { result ≡ first_slot_of slots.now }
{
    match slots {
        [] => 0,
        [first, ..] => *first,
    }
}

#[cycle(slots)]
pub(crate) fn add_slots(found: &mut Vec<u32>, term: &Term) -> Result<(), Memory>
    ensures { IfOk result (λ _. found.new.items
        ≡ found.old.items ++ slots_of_form (form_of term.now)) }
{
    match term {
        Term::Slot(slot) => Ok(found.push(*slot)?),
        Term::Arr(terms) => add_all(found, terms),
        Term::Obj(fields) => add_named(found, fields),
        Term::Func(_, body) => add_slots(found, body.term()),
        Term::Op { op: _, args, opts } => {
            add_all(found, args)?;
            add_named(found, opts)
        }
        Term::Lit(_) | Term::Var(_) | Term::Row => Ok(()),
    }
}

#[cycle(slots)]
#[tactic(auto, using(reql_faults::proofs::Below::below, reql_datum::proofs::Walks::walks))]
fn add_all(found: &mut Vec<u32>, terms: &Terms) -> Result<(), Memory>
    ensures { IfOk result (λ _. found.new.items
        ≡ found.old.items ++ slots_of (forms_of terms.now)) }
{
    let mut place = 0;
    while let Some(term) = terms.at(place) {
        add_slots(found, term)?;
        place += 1;
    }
    Ok(())
}

/// Adds the slots that stand in terms by name.
#[cycle(slots)]
#[tactic(auto, using(reql_faults::proofs::Below::below, reql_datum::proofs::Walks::walks))]
pub(crate) fn add_named(found: &mut Vec<u32>, fields: &TermFields) -> Result<(), Memory>
    ensures { IfOk result (λ _. found.new.items
        ≡ found.old.items ++ slots_named (named_of fields.now)) }
{
    let mut place = 0;
    while let Some(field) = fields.at(place) {
        add_slots(found, field.1)?;
        place += 1;
    }
    Ok(())
}

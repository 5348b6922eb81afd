// The tables that stand in a term, and whether it selects rows of one.
ghost use Rattle.std.specs.Prelude.{◌≡◌, ◌++◌, [], IfOk};
ghost use Rattle.reql_term.specs.Form.{forms_of, named_of};
ghost use Rattle.reql_term.specs.View.{form_of};
ghost use Rattle.reql_write_spec.specs.Selecting.{selects as selects_of, is_chain as is_chain_of, first_is_chain as first_is_chain_of, slots as slots_of_form, slots_of, slots_named};

use reql_datum::Memory;
use reql_term::{Op, Term, TermFields, Terms};
use std::alloc::Global;

// Whether an operator selects rows of what it is given first.
fn selects(op: Op) -> bool
    ensures { result ≡ selects_of op }
{
    match op {
        Op::Get
        | Op::GetAll
        | Op::Between
        | Op::Filter
        | Op::OrderBy
        | Op::Limit
        | Op::Skip
        | Op::Slice => true,
        _ => false,
    }
}

/// Whether a term is a table, or selects rows of what does.
#[cycle(chain)]
pub(crate) fn is_chain(term: &Term) -> bool
    ensures { result ≡ is_chain_of (form_of term.now) }
{
    match term {
        Term::Slot(_) => true,
        Term::Op { op, args, opts: _ } => {
            if selects(*op) {
                return first_is_chain(args);
            }
            false
        }
        _ => false,
    }
}

#[cycle(chain)]
fn first_is_chain(terms: &Terms) -> bool
    ensures { result ≡ first_is_chain_of (forms_of terms.now) }
{
    match terms.at(0) {
        Some(term) => is_chain(term),
        None => false,
    }
}

/// The slots that stand in a term, in order.
pub(crate) fn slots(alloc: Global, term: &Term) -> Result<Vec<u32>, Memory>
    ensures { IfOk result (λ found. found.items ≡ slots_of_form (form_of term.now)) }
{
    let mut found = Vec::new(alloc);
    add_slots(&mut found, term)?;
    Ok(found)
}

#[cycle(slots)]
fn add_slots(found: &mut Vec<u32>, term: &Term) -> Result<(), Memory>
    ensures { IfOk result (λ _. found.new.items
        ≡ found.old.items ++ slots_of_form (form_of term.now)) }
{
    match term {
        Term::Slot(slot) => Ok(found.push(*slot)?),
        Term::Arr(terms) => add_all(found, terms),
        Term::Obj(fields) => add_named(found, fields),
        Term::Func(_, body) => add_slots(found, body.term()),
        Term::Op { op: _, args, opts } => {
            add_all(found, args)?;
            add_named(found, opts)
        }
        Term::Lit(_) | Term::Var(_) | Term::Row => Ok(()),
    }
}

#[cycle(slots)]
#[tactic(auto, using(crate::proofs::Below::below, reql_datum::proofs::Walks::walks))]
fn add_all(found: &mut Vec<u32>, terms: &Terms) -> Result<(), Memory>
    ensures { IfOk result (λ _. found.new.items
        ≡ found.old.items ++ slots_of (forms_of terms.now)) }
{
    let mut place = 0;
    while let Some(term) = terms.at(place) {
        add_slots(found, term)?;
        place += 1;
    }
    Ok(())
}

#[cycle(slots)]
#[tactic(auto, using(crate::proofs::Below::below, reql_datum::proofs::Walks::walks))]
fn add_named(found: &mut Vec<u32>, fields: &TermFields) -> Result<(), Memory>
    ensures { IfOk result (λ _. found.new.items
        ≡ found.old.items ++ slots_named (named_of fields.now)) }
{
    let mut place = 0;
    while let Some(field) = fields.at(place) {
        add_slots(found, field.1)?;
        place += 1;
    }
    Ok(())
}

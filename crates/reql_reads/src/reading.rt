// The slots that a term reads, in preorder.
ghost use Rattle.std.specs.Prelude.{◌≡◌, ◌++◌, IfOk, drop};
ghost use Rattle.reql_term.specs.Form.{forms_of, named_of};
ghost use Rattle.reql_term.specs.View.{form_of};
ghost use Rattle.reql_plan_spec.specs.Reads.{reads, args_reads, all_reads, named_reads, but_first, is_slot as is_slot_of};
ghost use Rattle.reql_reads.specs.First.{reads_by};

use crate::chain::is_chain;
use crate::first::{First, first_of};
use crate::followed::{add_followed, add_from};
use reql_datum::Memory;
use reql_term::{Op, Term, TermFields, Terms};
use std::alloc::Global;

fn is_slot(term: &Term) -> bool
    ensures { result ≡ is_slot_of (form_of term.now) }
{
    match term {
        Term::Slot(_) => true,
        _ => false,
    }
}

/// The slots that a term reads, in preorder.
#[cycle(reads)]
pub(crate) fn reads_in(alloc: Global, term: &Term) -> Result<Vec<u32>, Memory>
    ensures { IfOk result (λ found. found.items ≡ reads (form_of term.now)) }
{
    let mut found = Vec::new(alloc);
    add_reads(alloc, &mut found, term)?;
    Ok(found)
}

#[cycle(reads)]
fn add_reads(alloc: Global, found: &mut Vec<u32>, term: &Term) -> Result<(), Memory>
    ensures { IfOk result (λ _. found.new.items ≡ found.old.items ++ reads (form_of term.now)) }
{
    match term {
        Term::Slot(slot) => Ok(found.push(*slot)?),
        Term::Arr(terms) => add_all(alloc, found, terms, 0),
        Term::Obj(fields) => add_named(alloc, found, fields),
        Term::Func(_, body) => add_reads(alloc, found, body.term()),
        Term::Op { op, args, opts } => {
            add_args(alloc, found, *op, args)?;
            add_named(alloc, found, opts)
        }
        Term::Lit(_) | Term::Var(_) | Term::Row => Ok(()),
    }
}

// What the arguments of an operator read.
#[cycle(reads)]
fn add_args(alloc: Global, found: &mut Vec<u32>, op: Op, terms: &Terms) -> Result<(), Memory>
    ensures { IfOk result (λ _. found.new.items
        ≡ found.old.items ++ args_reads op (forms_of terms.now)) }
{
    match terms.at(0) {
        Some(term) => {
            add_first(alloc, found, first_of(op), term)?;
            add_all(alloc, found, terms, 1)
        }
        None => Ok(()),
    }
}

// What the first argument reads.
#[cycle(reads)]
#[tactic(auto, unfolding(crate::specs::First::reads_by))]
fn add_first(alloc: Global, found: &mut Vec<u32>, first: First, term: &Term) -> Result<(), Memory>
    ensures { IfOk result (λ _. found.new.items ≡ found.old.items
        ++ reads_by first (form_of term.now) (reads (form_of term.now))) }
{
    match first {
        First::Rows => add_but_first(alloc, found, is_chain(term), term),
        First::Target => add_but_first(alloc, found, is_slot(term), term),
        First::Followed => add_followed(alloc, found, term),
        First::Whole => add_reads(alloc, found, term),
    }
}

// What a term reads, but the first where that is the target of a command.
#[cycle(reads)]
fn add_but_first(
    alloc: Global,
    found: &mut Vec<u32>,
    is_target: bool,
    term: &Term,
) -> Result<(), Memory>
    ensures { IfOk result (λ _. found.new.items
        ≡ found.old.items ++ but_first is_target (reads (form_of term.now))) }
{
    if is_target {
        let inside = reads_in(alloc, term)?;
        return add_from(found, &inside, 1);
    }
    add_reads(alloc, found, term)
}

// What the terms from a place on read.
#[cycle(reads)]
#[tactic(auto, using(reql_faults::proofs::Below::below, reql_datum::proofs::Walks::walks))]
fn add_all(alloc: Global, found: &mut Vec<u32>, terms: &Terms, from: usize) -> Result<(), Memory>
    ensures { IfOk result (λ _. found.new.items
        ≡ found.old.items ++ all_reads (forms_of (drop from terms.now))) }
{
    let mut place = from;
    while let Some(term) = terms.at(place) {
        add_reads(alloc, found, term)?;
        place += 1;
    }
    Ok(())
}

#[cycle(reads)]
#[tactic(auto, using(reql_faults::proofs::Below::below, reql_datum::proofs::Walks::walks))]
fn add_named(alloc: Global, found: &mut Vec<u32>, fields: &TermFields) -> Result<(), Memory>
    ensures { IfOk result (λ _. found.new.items
        ≡ found.old.items ++ named_reads (named_of fields.now)) }
{
    let mut place = 0;
    while let Some(field) = fields.at(place) {
        add_reads(alloc, found, field.1)?;
        place += 1;
    }
    Ok(())
}

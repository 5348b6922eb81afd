// The table that a range shape stands on.
ghost use Rattle.std.specs.Prelude.{◌≡◌};
ghost use Rattle.reql_feed_read.specs.Shapes.{slot_in as slot_in_of, part_slot as part_slot_of, shape_slot as shape_slot_of, stage_slot as stage_slot_of};
ghost use Rattle.reql_term.specs.Form.{forms_of};
ghost use Rattle.reql_term.specs.View.{form_of};
ghost use Rattle.reql_value_spec.specs.Shapes.{is_stage as is_stage_of, is_part as is_part_of};

use crate::free::{Scope, are_free, fields_free};
use reql_term::{Op, Term, Terms};

/// Whether an operator goes element by element.
pub(crate) fn is_stage(op: Op) -> bool
    ensures { result ≡ is_stage_of op }
{
    match op {
        Op::Map
        | Op::Filter
        | Op::Pluck
        | Op::Without
        | Op::Merge
        | Op::HasFields
        | Op::WithFields => true,
        _ => false,
    }
}

fn is_part(op: Op) -> bool
    ensures { result ≡ is_part_of op }
{
    match op {
        Op::Between | Op::GetAll => true,
        _ => false,
    }
}

fn slot_in(term: &Term) -> Option<u32>
    ensures { result ≡ slot_in_of (form_of term.now) }
{
    match term {
        Term::Slot(slot) => Some(*slot),
        _ => None,
    }
}

#[tactic(auto, using(crate::proofs::Firsts::firsts))]
fn part_slot(args: &Terms) -> Option<u32>
    ensures { result ≡ part_slot_of (forms_of args.now) }
{
    let Some(first) = args.at(0) else {
        return None;
    };
    if !are_free(args, 1, &Scope::Outside) {
        return None;
    }
    slot_in(first)
}

/// The slot of the table that a range shape stands on; None where the term is no range shape.
#[cycle(shape)]
pub(crate) fn shape_slot(term: &Term) -> Option<u32>
    ensures { result ≡ shape_slot_of (form_of term.now) }
{
    match term {
        Term::Slot(slot) => Some(*slot),
        Term::Op { op, args, opts } => {
            if !fields_free(opts, &Scope::Outside) {
                return None;
            }
            if is_stage(*op) {
                return stage_slot(args);
            }
            if is_part(*op) {
                return part_slot(args);
            }
            None
        }
        Term::Lit(_) | Term::Arr(_) | Term::Obj(_) | Term::Var(_) | Term::Row | Term::Func(_, _) =>
            None,
    }
}

#[cycle(shape)]
#[tactic(auto, using(crate::proofs::Firsts::firsts))]
fn stage_slot(args: &Terms) -> Option<u32>
    ensures { result ≡ stage_slot_of (forms_of args.now) }
{
    let Some(first) = args.at(0) else {
        return None;
    };
    if !are_free(args, 1, &Scope::Outside) {
        return None;
    }
    shape_slot(first)
}

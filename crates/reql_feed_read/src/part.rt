// The part of an order that a term stands for.
ghost use Rattle.std.specs.Prelude.{◌≡◌, IfOk, None, Some, option_map};
ghost use Rattle.reql_datum.specs.View.{plain};
ghost use Rattle.reql_feed_read.specs.Asked.{are_taken as are_taken_of, bound_in, bounds_in, names_by as names_by_of, part_in, part_over as part_over_of, sided as sided_of, topped as topped_of, bottomed as bottomed_of, three_in};
ghost use Rattle.reql_feed_read.specs.Seen.{part_of};
ghost use Rattle.reql_feed_read.specs.Shapes.{given};
ghost use Rattle.reql_table_spec.specs.Followed.{index_in, literal_index, options, is_between as is_between_of};
ghost use Rattle.reql_term.specs.Form.{forms_of, literal, named_of, operation};
ghost use Rattle.reql_term.specs.View.{form_of};

use crate::closed::{bound, sides};
use crate::order::Part;
use crate::places::three;
use crate::point::is_slot;
use reql_datum::{Datum, Memory, Name};
use reql_operand::same_text;
use reql_term::{Op, Term, TermFields, Terms};
use std::alloc::Global;

fn is_between(op: Op) -> bool
    ensures { result ≡ is_between_of op }
{
    match op {
        Op::Between => true,
        _ => false,
    }
}

// Whether BETWEEN takes each option.
#[tactic(auto, using(reql_datum::proofs::Walks::walks))]
fn are_taken(opts: &TermFields) -> bool
    ensures { result ≡ are_taken_of (options (named_of opts.now)) }
{
    let mut place = 0;
    while let Some((name, _)) = opts.at(place) {
        if !Op::Between.takes(name.as_str()) {
            return false;
        }
        place += 1;
    }
    true
}

fn is_text(key: &Name, name: &Name, value: &Datum) -> bool
    ensures { result ≡ names_by_of key.now name.now (literal_index (Some (literal (plain value.now)))) }
{
    match value {
        Datum::Text(other) => same_text(other.as_str(), name.as_str()),
        _ => false,
    }
}

// Whether a term is a literal text that is this name.
fn is_named(key: &Name, name: &Name, term: &Term) -> bool
    ensures { result ≡ names_by_of key.now name.now (literal_index (Some (form_of term.now))) }
{
    match term {
        Term::Lit(value) => is_text(key, name, value),
        Term::Arr(_)
        | Term::Obj(_)
        | Term::Var(_)
        | Term::Row
        | Term::Func(_, _)
        | Term::Slot(_)
        | Term::Op { .. } => false,
    }
}

/// Whether the index of BETWEEN or GET_ALL, which without an option is the primary order, has this name.
#[tactic(auto, using(crate::proofs::Parts::named_some, crate::proofs::Parts::named_none))]
pub(crate) fn names_by(key: &Name, name: &Name, opts: &TermFields) -> bool
    ensures { result ≡ names_by_of key.now name.now (index_in (named_of opts.now)) }
{
    match opts.get("index") {
        None => same_text(key.as_str(), name.as_str()),
        Some(term) => is_named(key, name, term),
    }
}

fn sided(bottom: Datum, top: Datum, sides: (bool, bool)) -> Part
    ensures { Some (part_of result) ≡ sided_of (plain bottom) (plain top) (Some sides) }
{
    Part::Between {
        bottom,
        bottom_open: sides.0,
        top,
        top_open: sides.1,
    }
}

fn topped(
    alloc: Global,
    bottom: Datum,
    high: &Term,
    sides: (bool, bool),
) -> Result<Option<Part>, Memory>
    ensures { IfOk result (λ o. option_map part_of o
        ≡ topped_of (plain bottom) (given (bound_in (form_of high.now))) (Some sides)) }
{
    match bound(alloc, high)? {
        None => Ok(None),
        Some(top) => Ok(Some(sided(bottom, top, sides))),
    }
}

fn bottomed(
    alloc: Global,
    low: &Term,
    high: &Term,
    sides: (bool, bool),
) -> Result<Option<Part>, Memory>
    ensures { IfOk result (λ o. option_map part_of o
        ≡ bottomed_of (given (bound_in (form_of low.now))) (given (bound_in (form_of high.now)))
        (Some sides)) }
{
    match bound(alloc, low)? {
        None => Ok(None),
        Some(bottom) => topped(alloc, bottom, high, sides),
    }
}

// The part between two bounds.
#[tactic(auto, using(crate::proofs::Parts::not_taken, crate::proofs::Parts::without_sides, crate::proofs::Parts::with_sides))]
fn between(
    alloc: Global,
    low: &Term,
    high: &Term,
    opts: &TermFields,
) -> Result<Option<Part>, Memory>
    ensures { IfOk result (λ o. option_map part_of o
        ≡ bounds_in (form_of low.now) (form_of high.now) (options (named_of opts.now))) }
{
    if !are_taken(opts) {
        return Ok(None);
    }
    match sides(alloc, opts)? {
        None => Ok(None),
        Some(sides) => {
            let part = bottomed(alloc, low, high, sides)?;
            Ok(part)
        }
    }
}

// The part that BETWEEN gives by the index of a name.
fn part_over(
    alloc: Global,
    key: &Name,
    name: &Name,
    args: &Terms,
    opts: &TermFields,
) -> Result<Option<Part>, Memory>
    ensures { IfOk result (λ o. option_map part_of o
        ≡ part_over_of key.now name.now (named_of opts.now) (three_in (forms_of args.now))) }
{
    match three(args) {
        None => Ok(None),
        Some((table, low, high)) => {
            if is_slot(table) && names_by(key, name, opts) {
                let part = between(alloc, low, high, opts)?;
                return Ok(part);
            }
            Ok(None)
        }
    }
}

/// The part that an operator gives by the index of a name.
pub(crate) fn part_by(
    alloc: Global,
    key: &Name,
    name: &Name,
    op: Op,
    args: &Terms,
    opts: &TermFields,
) -> Result<Option<Part>, Memory>
    ensures { IfOk result (λ o. option_map part_of o ≡ part_in key.now name.now
        (operation op (forms_of args.now) (named_of opts.now))) }
{
    if is_between(op) {
        let part = part_over(alloc, key, name, args, opts)?;
        return Ok(part);
    }
    Ok(None)
}

/// The part of the order by the index of a name: all of a table, or what BETWEEN gives of it.
pub(crate) fn read_part(
    alloc: Global,
    key: &Name,
    name: &Name,
    term: &Term,
) -> Result<Option<Part>, Memory>
    ensures { IfOk result (λ o. option_map part_of o
        ≡ part_in key.now name.now (form_of term.now)) }
{
    match term {
        Term::Slot(_) => Ok(Some(Part::Whole)),
        Term::Op { op, args, opts } => part_by(alloc, key, name, *op, args, opts),
        Term::Lit(_) | Term::Arr(_) | Term::Obj(_) | Term::Var(_) | Term::Row | Term::Func(_, _) =>
            Ok(None),
    }
}

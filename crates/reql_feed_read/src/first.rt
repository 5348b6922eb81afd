// The first so many documents of an order, as a request asks for them.
ghost use Rattle.std.specs.Prelude.{◌≡◌, IfOk, None, Some, option_map};
ghost use Rattle.reql_datum.specs.View.{plain};
ghost use Rattle.reql_feed_read.specs.Asked.{counts as counts_of, first_in, first_two as first_two_of, is_number as is_number_of, order_in, ordered_if as ordered_if_of, ordered_over as ordered_over_of, two_in};
ghost use Rattle.reql_feed_read.specs.Seen.{ordered_of, pointed_of};
ghost use Rattle.reql_table_spec.specs.Followed.{is_limit as is_limit_of, is_order as is_order_of};
ghost use Rattle.reql_term.specs.Form.{forms_of, named_of, operation};
ghost use Rattle.reql_term.specs.View.{form_of};

use crate::naming::{Target, pointed_if};
use crate::order::Part;
use crate::part::read_part;
use crate::places::{are_none, index_of, one, two};
use reql_datum::{Datum, Memory, Name};
use reql_term::{Op, Term, TermFields, Terms};
use std::alloc::Global;

/// An order by the index of a name.
#[derive(Drop)]
pub(crate) struct Ordered {
    pub(crate) part: Part,
    pub(crate) name: Name,
    pub(crate) down: bool,
}

fn is_limit(op: Op) -> bool
    ensures { result ≡ is_limit_of op }
{
    match op {
        Op::Limit => true,
        _ => false,
    }
}

fn is_order(op: Op) -> bool
    ensures { result ≡ is_order_of op }
{
    match op {
        Op::OrderBy => true,
        _ => false,
    }
}

fn ordered_over(
    alloc: Global,
    key: &Name,
    term: &Term,
    index: &Target<'_>,
) -> Result<Option<Ordered>, Memory>
    ensures { IfOk result (λ o. option_map ordered_of o ≡ ordered_over_of key.now
        (form_of term.now) (Some (pointed_of index.now))) }
{
    match read_part(alloc, key, index.name, term)? {
        None => Ok(None),
        Some(part) => Ok(Some(Ordered {
            part,
            name: index.name.copy()?,
            down: index.down,
        })),
    }
}

fn ordered_if(
    alloc: Global,
    key: &Name,
    term: Option<&Term>,
    option: Option<&Term>,
) -> Result<Option<Ordered>, Memory>
    ensures { IfOk result (λ o. option_map ordered_of o ≡ ordered_if_of key.now
        (option_map (λ t. form_of t.now) term.entry)
        (option_map (λ t. form_of t.now) option.entry)) }
{
    let Some(term) = term else {
        return Ok(None);
    };
    match pointed_if(option) {
        None => Ok(None),
        Some(index) => ordered_over(alloc, key, term, &index),
    }
}

fn order_by(
    alloc: Global,
    key: &Name,
    op: Op,
    args: &Terms,
    opts: &TermFields,
) -> Result<Option<Ordered>, Memory>
    ensures { IfOk result (λ o. option_map ordered_of o ≡ order_in key.now
        (operation op (forms_of args.now) (named_of opts.now))) }
{
    if is_order(op) {
        let order = ordered_if(alloc, key, one(args), index_of(opts))?;
        return Ok(order);
    }
    Ok(None)
}

// The order that a term is: ORDER_BY by an index and by nothing else.
fn order(alloc: Global, key: &Name, term: &Term) -> Result<Option<Ordered>, Memory>
    ensures { IfOk result (λ o. option_map ordered_of o ≡ order_in key.now (form_of term.now)) }
{
    match term {
        Term::Op { op, args, opts } => order_by(alloc, key, *op, args, opts),
        Term::Lit(_)
        | Term::Arr(_)
        | Term::Obj(_)
        | Term::Var(_)
        | Term::Row
        | Term::Func(_, _)
        | Term::Slot(_) => Ok(None),
    }
}

fn is_number(most: u32, value: &Datum) -> bool
    ensures { result ≡ is_number_of most (plain value.now) }
{
    match value {
        Datum::Num(number) => number.get() == most as i64,
        _ => false,
    }
}

// Whether a term is a literal number.
fn counts(most: u32, term: &Term) -> bool
    ensures { result ≡ counts_of most (form_of term.now) }
{
    match term {
        Term::Lit(value) => is_number(most, value),
        Term::Arr(_)
        | Term::Obj(_)
        | Term::Var(_)
        | Term::Row
        | Term::Func(_, _)
        | Term::Slot(_)
        | Term::Op { .. } => false,
    }
}

fn first_two(alloc: Global, key: &Name, most: u32, args: &Terms) -> Result<Option<Ordered>, Memory>
    ensures { IfOk result (λ o. option_map ordered_of o
        ≡ first_two_of key.now most (two_in (forms_of args.now))) }
{
    match two(args) {
        None => Ok(None),
        Some((term, count)) => {
            if counts(most, count) {
                let ordered = order(alloc, key, term)?;
                return Ok(ordered);
            }
            Ok(None)
        }
    }
}

fn first_by(
    alloc: Global,
    key: &Name,
    most: u32,
    op: Op,
    args: &Terms,
    opts: &TermFields,
) -> Result<Option<Ordered>, Memory>
    ensures { IfOk result (λ o. option_map ordered_of o ≡ first_in key.now most
        (operation op (forms_of args.now) (named_of opts.now))) }
{
    if is_limit(op) && are_none(opts) {
        let order = first_two(alloc, key, most, args)?;
        return Ok(order);
    }
    Ok(None)
}

/// The order of which a term is the first so many: LIMIT of it by this number.
pub(crate) fn first_of(
    alloc: Global,
    key: &Name,
    most: u32,
    term: &Term,
) -> Result<Option<Ordered>, Memory>
    ensures { IfOk result (λ o. option_map ordered_of o
        ≡ first_in key.now most (form_of term.now)) }
{
    match term {
        Term::Op { op, args, opts } => first_by(alloc, key, most, *op, args, opts),
        Term::Lit(_)
        | Term::Arr(_)
        | Term::Obj(_)
        | Term::Var(_)
        | Term::Row
        | Term::Func(_, _)
        | Term::Slot(_) => Ok(None),
    }
}

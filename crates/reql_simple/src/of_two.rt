// What two documents give.
ghost use Rattle.std.specs.Prelude.{◌≡◌, Ok, Some, None, IfSome, MatchOption};
ghost use Rattle.reql_datum.specs.Order.{order};
ghost use Rattle.reql_datum.specs.Plain.{number, text};
ghost use Rattle.reql_datum.specs.View.{plain};
ghost use Rattle.reql_rules.specs.Sizes.{within as within_of};
ghost use Rattle.reql_rules.specs.Types.{object_in as object_in_of};
ghost use Rattle.reql_simple.specs.Found.{document, stands as stands_of, step_of, field_of as field_in};

use crate::lying::{Found, number_of, within};
use reql_datum::{Datum, Fields, Name, NumFault, Whole, compare};
use reql_rules::{Arith, Relate};
use std::cmp::Ordering;

fn stands(op: Relate, answer: Ordering) -> bool
    ensures { result ≡ stands_of op answer }
{
    match op {
        Relate::Eq => answer.is_eq(),
        Relate::Ne => !answer.is_eq(),
        Relate::Lt => answer.is_lt(),
        Relate::Le => answer.is_le(),
        Relate::Gt => answer.is_gt(),
        Relate::Ge => answer.is_ge(),
    }
}

/// Whether two stand so, where both lie somewhere or both are numbers.
pub(crate) fn related(op: Relate, x: &Found, y: &Found) -> Option<bool>
    ensures { IfSome result (λ b. stands_of op (order (document x.now) (document y.now)) ≡ b) }
{
    match x {
        Found::Lying(d) => related_to(op, d, y),
        _ => in_numbers(op, x.number(), y.number()),
    }
}

fn related_to(op: Relate, d: &Datum, y: &Found) -> Option<bool>
    ensures { IfSome result (λ b. stands_of op (order (plain d.now) (document y.now)) ≡ b) }
{
    match y {
        Found::Lying(e) => Some(stands(op, compare(d, e))),
        _ => in_numbers(op, number_of(d), y.number()),
    }
}

fn in_numbers(op: Relate, m: Option<Whole>, n: Option<Whole>) -> Option<bool>
    ensures { MatchOption m (result ≡ None) (λ i. MatchOption n (result ≡ None)
        (λ j. result ≡ Some (stands_of op (order (number i) (number j))))) }
{
    let Some(i) = m else {
        return None;
    };
    let Some(j) = n else {
        return None;
    };
    Some(stands(op, i.get().cmp(&j.get())))
}

/// What arithmetic on two numbers gives, where it gives one.
pub(crate) fn reckoned(op: Arith, m: Whole, n: Whole) -> Option<Whole>
    ensures { IfSome result (λ k. step_of op m n ≡ Ok k) }
{
    match op {
        Arith::Add => given(m.add(n)),
        Arith::Sub => given(m.sub(n)),
        Arith::Mul => given(m.mul(n)),
        Arith::Div => given(m.div(n)),
        Arith::Mod => given(m.rem(n)),
    }
}

fn given(found: Result<Whole, NumFault>) -> Option<Whole>
    ensures { IfSome result (λ n. found ≡ Ok n) }
{
    match found {
        Ok(n) => Some(n),
        Err(_) => None,
    }
}

/// A field of an object that lies somewhere, where it keeps the limits.
pub(crate) fn field_of<'a>(limit: u64, x: &Found<'a>, y: &Found) -> Option<Found<'a>>
    ensures found { IfSome result (λ z. field_in (document x.now) (document y.now) ≡ Some (document z)) }
    ensures kept { IfSome result (λ z. within_of limit (document z) ≡ Ok (document z)) }
{
    let Found::Lying(d) = x else {
        return None;
    };
    let Found::Lying(e) = y else {
        return None;
    };
    let Some(fields) = object_in(d) else {
        return None;
    };
    let Some(name) = text_in(e) else {
        return None;
    };
    let Some(v) = fields.get(name.as_str()) else {
        return None;
    };
    within(limit, v)
}

#[tactic(auto, using(reql_datum::proofs::Back::back))]
fn object_in(d: &Datum) -> Option<&Fields>
    ensures { IfSome result (λ ms. object_in_of (plain d.now) ≡ Some ms.now) }
{
    match d {
        Datum::Obj(fields) if !fields.is_literal() => Some(fields),
        _ => None,
    }
}

fn text_in(d: &Datum) -> Option<&Name>
    ensures { IfSome result (λ s. plain d.now ≡ text s.now) }
{
    match d {
        Datum::Text(name) => Some(name),
        _ => None,
    }
}

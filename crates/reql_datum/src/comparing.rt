// The order of documents.
ghost use Rattle.std.specs.Prelude.{◌≡◌, ◌⊎◌, ◌↔◌};
ghost use Rattle.std.specs.Ordering.{MatchOrdering};
ghost use Rattle.std.specs.Cmp.{IsTotalOrder};
ghost use Rattle.std.specs.declared.cmp.Ordering.TheVariants.{Less, Equal};
ghost use Rattle.reql_datum.specs.Plain.{Plain, items_of, pairs_of};
ghost use Rattle.reql_datum.specs.View.{plain};
ghost use Rattle.reql_datum.specs.Order.{rank, less, order, order_within, items_order, pairs_order};

use crate::datum::{Datum, Fields, Items};
use std::cmp::Ordering;

fn rank(d: &Datum) -> u8
    ensures { result ≡ rank (plain d.now) }
{
    match d {
        Datum::Low => 0,
        Datum::List(_) => 1,
        Datum::Bool(_) => 2,
        Datum::Null => 3,
        Datum::Num(_) => 4,
        Datum::Obj(_) => 5,
        Datum::Binary(_) => 6,
        Datum::Time(_) => 7,
        Datum::Text(_) => 8,
        Datum::High => 9,
    }
}

/// How two documents stand in the order of the ReQL reference: by their kinds, and at equal kinds
/// false before true, numbers by value, texts and bytes by their bytes, times by the instant and
/// then by the zone, arrays item by item, objects as arrays of their members, a proper prefix first.
///
/// It walks both once, and takes no memory.
#[tactic(auto, using(crate::proofs::Order::order_says))]
pub fn compare(a: &Datum, b: &Datum) -> Ordering
    ensures answer { result ≡ order (plain a.now) (plain b.now) }
    ensures meaning { MatchOrdering result (less (plain a.now) (plain b.now))
        (plain a.now ≡ plain b.now) (less (plain b.now) (plain a.now)) }
{
    ordered(a, b)
}

#[cycle(compare)]
#[tactic(auto, using(crate::proofs::Walks::walks))]
fn ordered(a: &Datum, b: &Datum) -> Ordering
    ensures { result ≡ order (plain a.now) (plain b.now) }
{
    let kinds = rank(a).cmp(&rank(b));
    if kinds.is_ne() {
        return kinds;
    }
    ordered_within(a, b)
}

// The order of two of one kind.
#[cycle(compare)]
#[tactic(auto, using(crate::proofs::Walks::walks))]
fn ordered_within(a: &Datum, b: &Datum) -> Ordering
    ensures { result ≡ order_within (plain a.now) (plain b.now) }
{
    match (a, b) {
        (Datum::List(us), Datum::List(vs)) => compare_items(us, vs),
        (Datum::Bool(p), Datum::Bool(q)) => p.cmp(q),
        (Datum::Num(m), Datum::Num(n)) => m.get().cmp(&n.get()),
        (Datum::Obj(ms), Datum::Obj(ns)) => compare_fields(ms, ns),
        (Datum::Binary(s), Datum::Binary(t)) => s.order(t.as_bytes()),
        (Datum::Time(s), Datum::Time(t)) => s.order(*t),
        (Datum::Text(s), Datum::Text(t)) => s.order(t.as_str()),
        _ => Ordering::Equal,
    }
}

#[cycle(compare)]
#[tactic(auto, using(crate::proofs::Walks::walks))]
fn compare_items(us: &Items, vs: &Items) -> Ordering
    ensures { result ≡ items_order (items_of us.now) (items_of vs.now) }
{
    let mut place = 0;
    loop {
        match (us.at(place), vs.at(place)) {
            (Some(u), Some(v)) => {
                let answer = ordered(u, v);
                if answer.is_ne() {
                    return answer;
                }
            }
            (None, Some(_)) => return Ordering::Less,
            (Some(_), None) => return Ordering::Greater,
            (None, None) => return Ordering::Equal,
        }
        place += 1;
    }
}

#[cycle(compare)]
#[tactic(auto, using(crate::proofs::Walks::walks))]
fn compare_fields(ms: &Fields, ns: &Fields) -> Ordering
    ensures { result ≡ pairs_order (pairs_of ms.now) (pairs_of ns.now) }
{
    let mut place = 0;
    loop {
        match (ms.at(place), ns.at(place)) {
            (Some((j, u)), Some((k, v))) => {
                let names = j.order(k.as_str());
                if names.is_ne() {
                    return names;
                }
                let answer = ordered(u, v);
                if answer.is_ne() {
                    return answer;
                }
            }
            (None, Some(..)) => return Ordering::Less,
            (Some(..), None) => return Ordering::Greater,
            (None, None) => return Ordering::Equal,
        }
        place += 1;
    }
}

/// The laws of the order, of all documents: of two that differ one is below the other, none is below
/// itself, and what is below what is below is below. The answer of `compare` is a total order too,
/// and Equal is told of equal documents alone.
pub fn order_laws()
    ensures total { (a b : Plain) → less a b ⊎ ((a ≡ b) ⊎ less b a) }
    ensures irreflexive { (a : Plain) → ¬ less a a }
    ensures transitive { (a b c : Plain) → less a b → less b c → less a c }
    ensures below { (a b : Plain) → (order a b ≡ Less) ↔ less a b }
    ensures equal { (a b : Plain) → (order a b ≡ Equal) ↔ (a ≡ b) }
    ensures answer { IsTotalOrder order }
{}

impl PartialEq for Datum {
    ghost use Rattle.std.specs.Ordering.{eq_by_cmp, on};
    ghost use Rattle.std.specs.Cmp.{partial_equiv_from_equiv, eq_by_cmp_equiv, on_total};
    ghost use Rattle.reql_datum.specs.Total.{order_total};

    ghost eq = { eq_by_cmp (on plain order) };

    ghost laws = { partial_equiv_from_equiv (eq_by_cmp_equiv (on_total plain order_total)) };

    fn eq(&self, other: &Datum) -> bool {
        compare(self, other).is_eq()
    }
}

impl Eq for Datum {
    ghost use Rattle.std.specs.Cmp.{eq_by_cmp_equiv, on_total};
    ghost use Rattle.reql_datum.specs.Total.{order_total};

    ghost laws = { eq_by_cmp_equiv (on_total plain order_total) };
}

impl PartialOrd for Datum {
    ghost use Rattle.std.specs.Ordering.{as_partial_cmp, on};
    ghost use Rattle.std.specs.Cmp.{po, on_total};
    ghost use Rattle.std.proofs.Common.{refl};
    ghost use Rattle.reql_datum.specs.Total.{order_total};

    ghost partial_cmp = { as_partial_cmp (on plain order) };

    ghost laws = { po (on_total plain order_total) (λ x y. refl) };

    fn partial_cmp(&self, other: &Datum) -> Option<Ordering> {
        Some(compare(self, other))
    }
}

impl Ord for Datum {
    ghost use Rattle.std.specs.Ordering.{on};
    ghost use Rattle.std.specs.Cmp.{on_total};
    ghost use Rattle.std.proofs.Common.{refl};
    ghost use Rattle.reql_datum.specs.Total.{order_total};

    ghost cmp = { on plain order };

    ghost total = { on_total plain order_total };

    ghost matches_partial_cmp = { λ x y. refl };

    ghost matches_eq = { λ x y. refl };

    fn cmp(&self, other: &Datum) -> Ordering {
        compare(self, other)
    }
}

// Where a pair stands among elements in the order of a feed.
ghost use Rattle.std.specs.Prelude.{◌≡◌, ◌<◌, ℕ, length, map, IfOk, IfErr, IfSome, IfNone, Option, option_map};
ghost use Rattle.std.specs.List.Sorted.{IsSearchInRange};
ghost use Rattle.std.specs.Map.{keys_of};
ghost use Rattle.reql_memory.specs.Sorted.{AreRisingBy, find_by, IsHitBy, IsGapBy};
ghost use Rattle.reql_datum.specs.View.{plain};
ghost use Rattle.reql_feed_limit.specs.Boundary.{after_all};
ghost use Rattle.reql_feed_limit.specs.Edits.{with_gone, Hits};
ghost use Rattle.reql_feed_limit.specs.Selection.{facing};
ghost use Rattle.reql_feed_limit.specs.Seen.{seen};

use crate::element::Element;
use reql_datum::{Datum, compare};
use std::cmp::Ordering;

/// How two pairs stand in the direction of a feed.
pub(crate) fn facing(descending: bool, a: &Datum, b: &Datum) -> Ordering
    ensures { result ≡ facing descending (plain a.now) (plain b.now) }
{
    if descending {
        compare(b, a)
    } else {
        compare(a, b)
    }
}

/// Where the pair is, or where it would stand.
pub(crate) fn place_of(held: &[Element], descending: bool, pair: &Datum) -> Result<usize, usize>
    requires rising { AreRisingBy (facing descending) (map seen held.now) }
    ensures hit { IfOk result (IsHitBy (facing descending) (keys_of (map seen held.now)) (plain pair.now)) }
    ensures gap { IfErr result (IsGapBy (facing descending) (keys_of (map seen held.now)) (plain pair.now)) }
    ensures in_range { IsSearchInRange result (length held.now) }
{
    held.binary_search_by(|element| facing(descending, &element.pair, pair))
}

/// The place of the pair that goes, if it is there.
pub(crate) fn place_left(held: &[Element], descending: bool, gone: &Option<Datum>) -> Option<usize>
    requires rising { AreRisingBy (facing descending) (map seen held.now) }
    ensures hit { IfSome result (Hits (facing descending) (option_map plain gone.now) (map seen held.now)) }
    ensures absent { IfNone result (with_gone (facing descending) (option_map plain gone.now) (map seen held.now) ≡ map seen held.now) }
    ensures in_range { IfSome result (λ i. i < length held.now) }
{
    match gone {
        None => None,
        Some(pair) => match place_of(held, descending, pair) {
            Ok(place) => Some(place),
            Err(_) => None,
        },
    }
}

/// Whether a pair comes after all elements.
pub(crate) fn is_after_all(held: &[Element], descending: bool, pair: &Datum) -> bool
    requires rising { AreRisingBy (facing descending) (map seen held.now) }
    ensures { result ≡ after_all (facing descending) (map seen held.now) (plain pair.now) }
{
    match held.last() {
        None => true,
        Some(last) => facing(descending, &last.pair, pair).is_lt(),
    }
}

/// Where a pair that isn't there would stand.
pub(crate) fn gap_of(held: &[Element], descending: bool, pair: &Datum) -> usize
    requires rising { AreRisingBy (facing descending) (map seen held.now) }
    ensures { find_by (facing descending) (plain pair.now) (map seen held.now) ≡ None → IsGapBy (facing descending) (keys_of (map seen held.now)) (plain pair.now) result }
{
    match place_of(held, descending, pair) {
        Ok(place) => place,
        Err(place) => place,
    }
}

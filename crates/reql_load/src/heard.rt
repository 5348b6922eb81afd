// What stands in an item.
ghost use Rattle.std.specs.Prelude.{◌≡◌, is_none, option_map, option_and_then};
ghost use Rattle.reql_datum.specs.View.{plain};
ghost use Rattle.reql_feed_spec.specs.Items.{present};
ghost use Rattle.reql_feed_spec.specs.Shown.{member_at, natural, place_of};
ghost use Rattle.reql_load.specs.Folded.{has, is_skip, is_state, lacks_offsets};

use reql_datum::Datum;

/// What stands at a name of an item.
#[tactic(auto, using(reql_datum::proofs::Back::back))]
pub(crate) fn member<'a>(item: &'a Datum, name: &str) -> Option<&'a Datum>
    ensures { option_map (λ d. plain d.now) result ≡ member_at name.now (plain item.now) }
{
    match item {
        Datum::Obj(fields) => fields.get(name),
        _ => None,
    }
}

/// The same where it is no null.
pub(crate) fn value<'a>(item: &'a Datum, name: &str) -> Option<&'a Datum>
    ensures { option_map (λ d. plain d.now) result
        ≡ option_and_then present (member_at name.now (plain item.now)) }
{
    match member(item, name) {
        Some(Datum::Null) => None,
        found => found,
    }
}

/// Whether nothing stands there, or null.
pub(crate) fn is_absent(item: &Datum, name: &str) -> bool
    ensures { result ≡ is_none (option_and_then present (member_at name.now (plain item.now))) }
{
    match value(item, name) {
        Some(_) => false,
        None => true,
    }
}

fn has(item: &Datum, name: &str) -> bool
    ensures { result ≡ has name.now (plain item.now) }
{
    match member(item, name) {
        Some(_) => true,
        None => false,
    }
}

/// Whether the item tells that others were dropped.
pub(crate) fn is_skip(item: &Datum) -> bool
    ensures { result ≡ is_skip (plain item.now) }
{
    has(item, "error")
}

/// Whether the item tells of the feed itself.
pub(crate) fn is_state(item: &Datum) -> bool
    ensures { result ≡ is_state (plain item.now) }
{
    has(item, "state")
}

/// Whether the item is folded, and names no place in a list.
pub(crate) fn lacks_offsets(item: &Datum) -> bool
    ensures { result ≡ lacks_offsets (plain item.now) }
{
    !(is_state(item) || has(item, "old_offset") || has(item, "new_offset"))
}

/// The place that a name of an item says, where it says one.
pub(crate) fn place_at(item: &Datum, name: &str) -> Option<usize>
    ensures { result ≡ option_and_then place_of (member_at name.now (plain item.now)) }
{
    match member(item, name) {
        Some(Datum::Num(number)) => natural(number.get()),
        _ => None,
    }
}

fn natural(number: i64) -> Option<usize>
    ensures { result ≡ natural number }
{
    if number < 0 {
        return None;
    }
    Some(number as usize)
}

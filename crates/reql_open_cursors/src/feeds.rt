// The open feeds, in the order of opening.
ghost use Rattle.std.specs.Prelude.{◌≡◌, ◌<◌, None, Some, true, length, map, filter, not, nat_eq, slice_index_or, drop, option_map, MatchOption};
ghost use Rattle.std.specs.Prelude.{set, remove};
ghost use Rattle.reql_session_spec.specs.Books.{feed_of};
ghost use Rattle.reql_session_spec.specs.Books as books;
ghost use Rattle.reql_open_cursors.specs.Apart.{AllApart, feeds_with};
ghost use Rattle.reql_open_cursors.specs.Kept.{feed_kept, feed_on, feed_at, items_left};

use crate::later::later;
use crate::open::Open;
use reql_session_api::Shown;

/// The feed of a token.
pub(crate) fn find(feeds: &[Open], token: u64) -> Option<&Open>
    ensures { option_map (λ f. feed_kept f.now) result ≡ feed_of token (map feed_kept feeds.now) }
{
    let mut place = 0;
    while let Some(feed) = feeds.get(place) {
        if feed.token == token {
            return Some(feed);
        }
        place += 1;
    }
    None
}

/// The place of the feed of a token.
pub(crate) fn place_of(feeds: &[Open], token: u64) -> Option<usize>
    ensures none { MatchOption result (feed_of token (map feed_kept feeds.now) ≡ None)
        (λ place. place < length feeds.now) }
    ensures some { MatchOption result (Unit {0}) (λ place. (e : _)
        → nat_eq (slice_index_or feeds.now place e).token token ≡ true) }
    ensures there { MatchOption result (Unit {0}) (λ place. (e : _)
        → feed_of token (map feed_kept feeds.now) ≡ Some (feed_kept (slice_index_or feeds.now place e))) }
{
    for place in 0..feeds.len() {
        if feeds[place].token == token {
            return Some(place);
        }
    }
    None
}

/// Leaves out the feeds of a token.
pub(crate) fn forget(feeds: &mut Vec<Open>, token: u64)
    ensures { feeds.new.items ≡ filter (λ f. not (nat_eq f.token token)) feeds.old.items }
{
    feeds.retain(|feed| feed.token != token);
}

// What stands at a place is taken out.
fn take_at(feeds: &mut Vec<Open>, place: usize) -> Open
    requires { place < length feeds.old.items }
    ensures taken { result ≡ slice_index_or feeds.old.items place result }
    ensures left { feeds.new.items ≡ remove feeds.old.items place }
{
    feeds.remove(place)
}

// The first feed of a token is taken out.
fn take_first(feeds: &mut Vec<Open>, token: u64) -> Option<Open>
    ensures taken { option_map feed_kept result ≡ feed_of token (map feed_kept feeds.old.items) }
    ensures left { filter (λ f. not (nat_eq f.token token)) feeds.new.items
        ≡ filter (λ f. not (nat_eq f.token token)) feeds.old.items }
{
    match place_of(feeds.as_slice(), token) {
        Some(place) => Some(take_at(feeds, place)),
        None => None,
    }
}

/// Takes the feed of a token out.
pub(crate) fn take(feeds: &mut Vec<Open>, token: u64) -> Option<Open>
    ensures taken { option_map feed_kept result ≡ feed_of token (map feed_kept feeds.old.items) }
    ensures left { feeds.new.items ≡ filter (λ f. not (nat_eq f.token token)) feeds.old.items }
{
    let taken = take_first(feeds, token);
    forget(feeds, token);
    taken
}

// So many are told of what is kept.
fn told(feed: &mut Open, from: usize)
    ensures { feed.new ≡ record feed.old { from = from } }
{
    feed.from = from;
}

// The first ones that are left of what stands at a place are told.
fn step_at(feeds: &mut Vec<Open>, place: usize)
    requires { place < length feeds.old.items }
    ensures { (e : Open) → feeds.new.items ≡ set feeds.old.items place
        (feed_on (slice_index_or feeds.old.items place e)) }
{
    let feed = &feeds[place];
    let from = later(feed.from, feed.batch, feed.items.len());
    told(&mut feeds[place], from);
}

/// The first ones that are left of a feed are told.
pub(crate) fn advance(feeds: &mut Vec<Open>, token: u64)
    ensures { (x : books.Open) → AllApart (map (λ y. y.token) (map feed_kept feeds.old.items))
        → feed_of token (map feed_kept feeds.old.items) ≡ Some x
        → map feed_kept feeds.new.items ≡ feeds_with token (drop x.batch x.left) (map feed_kept feeds.old.items) }
{
    match place_of(feeds.as_slice(), token) {
        Some(place) => step_at(feeds, place),
        None => {}
    }
}

// These are left of a feed, from a place on.
fn take_items(feed: &mut Open, items: Vec<Shown>, from: usize)
    ensures { feed.new ≡ record feed.old {
      items = items;
      from = from;
    } }
{
    feed.items = items;
    feed.from = from;
}

// These are left of the feed at a place, from a place on.
fn put_at(feeds: &mut Vec<Open>, place: usize, items: Vec<Shown>, from: usize)
    requires { place < length feeds.old.items }
    ensures { (e : Open) → feeds.new.items ≡ set feeds.old.items place
        (feed_at items from (slice_index_or feeds.old.items place e)) }
{
    take_items(&mut feeds[place], items, from);
}

/// These are the items of a feed that are left, from a place on.
pub(crate) fn put_left(feeds: &mut Vec<Open>, token: u64, items: Vec<Shown>, from: usize)
    ensures { (x : books.Open) → AllApart (map (λ y. y.token) (map feed_kept feeds.old.items))
        → feed_of token (map feed_kept feeds.old.items) ≡ Some x
        → map feed_kept feeds.new.items ≡ feeds_with token (items_left x.arms items.items from) (map feed_kept feeds.old.items) }
{
    match place_of(feeds.as_slice(), token) {
        Some(place) => put_at(feeds, place, items, from),
        None => {}
    }
}

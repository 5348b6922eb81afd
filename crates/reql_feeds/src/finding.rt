// Where a feed stands among the open ones.
ghost use Rattle.std.specs.Prelude.{◌≡◌, ◌<◌, ◌&&◌, true, length, nat_eq, None, slice_index_or, MatchOption, option_map};
ghost use Rattle.reql_table_machine_spec.specs.Feeds.{find_feed, is_of, has_something};
ghost use Rattle.reql_feeds.specs.Keeps.{feeds_of};
ghost use Rattle.reql_feeds.specs.Seen.{seen, all_sized};

use crate::entry::Entry;

impl<F> Entry<F> {
    /// Whether it is the feed of this owner and number.
    pub(crate) fn is_of(&self, owner: u64, number: u64) -> bool
        ensures { result ≡ is_of owner number (seen self.now) }
    {
        self.owner == owner && self.number == number
    }
}

/// The place of the feed of an owner and number.
pub(crate) fn place_of<F>(entries: &[Entry<F>], owner: u64, number: u64) -> Option<usize>
    ensures none { MatchOption result
        (find_feed owner number (feeds_of (all_sized entries.now)) ≡ None)
        (λ place. place < length entries.now) }
    ensures some { MatchOption result (Unit {0})
        (λ place. (e : _) → is_of owner number (seen (slice_index_or entries.now place e)) ≡ true) }
{
    for place in 0..entries.len() {
        if entries[place].is_of(owner, number) {
            return Some(place);
        }
    }
    None
}

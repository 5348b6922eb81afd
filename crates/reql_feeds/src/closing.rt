// A feed is closed.
ghost use Rattle.std.specs.Prelude.{◌≡◌, ◌<◌, length};
ghost use Rattle.std.specs.List.{remove};
ghost use Rattle.std.specs.Option.{is_some};
ghost use Rattle.reql_table_machine_spec.specs.Feeds.{find_feed};
ghost use Rattle.reql_feeds.specs.Keeps.{Keeps, feeds_of};
ghost use Rattle.reql_feeds.specs.Record.{closed};
ghost use Rattle.reql_feeds.specs.Seen.{all_sized};

use crate::entry::Entry;
use crate::finding::place_of;
use crate::following::Following;

fn remove_at<F: Drop>(entries: &mut Vec<Entry<F>>, place: usize)
    requires { place < length entries.old.items }
    ensures { entries.new.items ≡ remove entries.old.items place }
{
    let _closed = entries.remove(place);
}

/// Closes the feed of an owner and number, and says whether there was one.
pub(crate) fn close_entry<F: Following>(
    entries: &mut Vec<Entry<F>>,
    owner: u64,
    number: u64,
) -> bool
    requires { Keeps F.held (all_sized entries.old.items) }
    ensures there { result ≡ is_some (find_feed owner number (feeds_of (all_sized entries.old.items))) }
    ensures closed { feeds_of (all_sized entries.new.items)
        ≡ closed owner number (feeds_of (all_sized entries.old.items)) }
    ensures keeps { Keeps F.held (all_sized entries.new.items) }
{
    match place_of(entries, owner, number) {
        None => false,
        Some(place) => {
            remove_at(entries, place);
            true
        }
    }
}

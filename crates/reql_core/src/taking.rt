// A Take of a feed.
ghost use Rattle.std.specs.Prelude.{◌≡◌, ◌+◌, ◌<◌, ◌^◌, true, false, IfOk, OnErr, Some, None};
ghost use Rattle.std.specs.Prelude.{option_map};
ghost use Rattle.reql_table_machine_spec.specs.Feeds.{find_feed, has_something};
ghost use Rattle.reql_table_machine_spec.specs.declared.command.Cmd.TheVariants as known;
ghost use Rattle.reql_feeds.specs.Record.{records};
ghost use Rattle.reql_core.specs.Live.{Does};

use crate::live::LiveTable;
use reql_memory::Memory;
use reql_opening::Opening;
use reql_table_spec::Said;

impl<F: Opening> LiveTable<F> {
    // Takes what waits in a feed in which something is.
    fn batch(&mut self, by: u64, feed: u64, max: u32) -> Result<Said, Memory>
        requires room { self.old.moment.place + 1 < 2 ^ 64 }
        requires waits { option_map has_something (find_feed by feed (records F.held self.old.feeds))
            ≡ Some true }
        ensures does { IfOk result (λ s. Does F.held by (known.Take feed max) self.old self.new s) }
        ensures same { OnErr result (self.new ≡ self.old) }
    {
        let Some(taken) = self.feeds.take(self.alloc, by, feed, max)? else {
            unreachable!()
        };
        self.moment.place += 1;
        Ok(Said::Batch {
            skipped: taken.skipped,
            last: taken.last,
            items: taken.items,
        })
    }

    // A Take of a feed in which nothing is.
    pub(crate) fn nothing(&self, by: u64, feed: u64, max: u32) -> Said
        requires { option_map has_something (find_feed by feed (records F.held self.now.feeds))
            ≡ Some false }
        ensures { Does F.held by (known.Take feed max) self.now self.now result }
    {
        if self.shut {
            return Said::Gone;
        }
        Said::Nothing
    }

    // A Take of a feed that isn't there.
    fn unknown(&mut self, by: u64, feed: u64, max: u32) -> Said
        requires room { self.old.moment.place + 1 < 2 ^ 64 }
        requires none { option_map has_something (find_feed by feed (records F.held self.old.feeds))
            ≡ None }
        ensures { Does F.held by (known.Take feed max) self.old self.new result }
    {
        if self.shut {
            return Said::Gone;
        }
        self.moment.place += 1;
        Said::FeedUnknown { feed }
    }

    /// Takes what waits in a feed of its owner, `max` items at most. The history has room for one entry.
    pub(crate) fn take(&mut self, by: u64, feed: u64, max: u32) -> Result<Said, Memory>
        requires room { self.old.moment.place + 1 < 2 ^ 64 }
        ensures does { IfOk result (λ s. Does F.held by (known.Take feed max) self.old self.new s) }
        ensures same { OnErr result (self.new ≡ self.old) }
    {
        match self.feeds.has_something(by, feed) {
            Some(true) => {
                let said = self.batch(by, feed, max)?;
                Ok(said)
            }
            Some(false) => Ok(self.nothing(by, feed, max)),
            None => Ok(self.unknown(by, feed, max)),
        }
    }
}

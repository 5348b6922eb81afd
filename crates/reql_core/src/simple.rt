// Commands that change no document.
ghost use Rattle.std.specs.Prelude.{◌+◌, ◌<◌, ◌^◌};
ghost use Rattle.reql_table_machine_spec.specs.declared.command.Cmd.TheVariants as known;
ghost use Rattle.reql_core.specs.Live.{Does};

use crate::live::LiveTable;
use reql_opening::Opening;
use reql_table_spec::Said;

impl<F: Opening> LiveTable<F> {
    /// Nothing but an entry. The history has room for one.
    pub(crate) fn sync(&mut self, by: u64) -> Said
        requires room { self.old.moment.place + 1 < 2 ^ 64 }
        ensures { Does F.held by known.Sync self.old self.new result }
    {
        if self.shut {
            return Said::Gone;
        }
        self.moment.place += 1;
        Said::Changed
    }

    /// Drops the table. Its documents and feeds stay. The history has room for one entry.
    pub(crate) fn drop_table(&mut self, by: u64) -> Said
        requires room { self.old.moment.place + 1 < 2 ^ 64 }
        ensures { Does F.held by known.Shut self.old self.new result }
    {
        if self.shut {
            return Said::Gone;
        }
        self.shut = true;
        self.moment.place += 1;
        Said::Closed
    }

    /// Closes a feed of its owner. The history has room for one entry.
    pub(crate) fn unsubscribe(&mut self, by: u64, feed: u64) -> Said
        requires room { self.old.moment.place + 1 < 2 ^ 64 }
        ensures { Does F.held by (known.Unsubscribe feed) self.old self.new result }
    {
        if self.feeds.close(by, feed) {
            self.moment.place += 1;
            return Said::Closed;
        }
        if self.shut {
            return Said::Gone;
        }
        self.moment.place += 1;
        Said::FeedUnknown { feed }
    }
}

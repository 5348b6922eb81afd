// Commands where the history has room for no entry.
ghost use Rattle.std.specs.Prelude.{◌≡◌, ◌-◌, ◌^◌, cond, option_map};
ghost use Rattle.reql_table_machine_spec.specs.Feeds.{find_feed, has_something};
ghost use Rattle.reql_table_machine_spec.specs.declared.command.Cmd.TheVariants as known;
ghost use Rattle.reql_table_spec.specs.Machine.{known_cmd};
ghost use Rattle.reql_table_spec.specs.declared.reply.Said.TheVariants as answers;
ghost use Rattle.reql_feeds.specs.Record.{records};
ghost use Rattle.reql_core.specs.Live.{Does};

use crate::live::LiveTable;
use reql_opening::Opening;
use reql_table_spec::{Cmd, Said};

impl<F: Opening> LiveTable<F> {
    // What an open table answers, and what a table that was dropped does.
    fn refuse(&self) -> Said
        ensures { result ≡ cond self.now.shut answers.Gone (answers.HistoryFull (2 ^ 64 - 1)) }
    {
        if self.is_shut() {
            return Said::Gone;
        }
        Said::HistoryFull { count: u64::MAX }
    }

    // Whether who owns a feed of this number finds something in it; none where there is no such feed.
    fn finds(&self, by: u64, feed: u64) -> Option<bool>
        ensures { result ≡ option_map has_something
            (find_feed by feed (records F.held self.now.feeds)) }
    {
        self.feeds.has_something(by, feed)
    }

    #[tactic(auto, using(crate::proofs::Fulls::take_some_full, crate::proofs::Fulls::take_none_full))]
    fn take_full(&self, by: u64, feed: u64, max: u32) -> Said
        requires full { self.now.moment.place ≡ 2 ^ 64 - 1 }
        ensures { Does F.held by (known.Take feed max) self.now self.now result }
    {
        match self.finds(by, feed) {
            Some(true) => Said::HistoryFull { count: u64::MAX },
            Some(false) => self.nothing(by, feed, max),
            None => self.refuse(),
        }
    }

    #[tactic(auto, using(crate::proofs::Fulls::unsubscribe_some_full, crate::proofs::Fulls::unsubscribe_none_full))]
    fn unsubscribe_full(&self, by: u64, feed: u64) -> Said
        requires full { self.now.moment.place ≡ 2 ^ 64 - 1 }
        ensures { Does F.held by (known.Unsubscribe feed) self.now self.now result }
    {
        match self.finds(by, feed) {
            Some(_) => Said::HistoryFull { count: u64::MAX },
            None => self.refuse(),
        }
    }

    /// What a command is answered where the history has room for no entry: it changes nothing.
    #[tactic(auto, using(crate::proofs::Fulls::write_full, crate::proofs::Fulls::index_full, crate::proofs::Fulls::subscribe_full, crate::proofs::Fulls::shut_full, crate::proofs::Fulls::sync_full))]
    pub(crate) fn full(&self, by: u64, cmd: &Cmd) -> Said
        requires full { self.now.moment.place ≡ 2 ^ 64 - 1 }
        ensures { Does F.held by (known_cmd cmd.now) self.now self.now result }
    {
        match cmd {
            Cmd::Write(_) => self.refuse(),
            Cmd::IndexCreate(_) => self.refuse(),
            Cmd::IndexDrop(_) => self.refuse(),
            Cmd::IndexRename {
                old: _,
                new: _,
                overwrite: _,
            } => self.refuse(),
            Cmd::Subscribe(_) => self.refuse(),
            Cmd::Take { feed, max } => self.take_full(by, *feed, *max),
            Cmd::Unsubscribe { feed } => self.unsubscribe_full(by, *feed),
            Cmd::Shut => self.refuse(),
            Cmd::Sync => self.refuse(),
        }
    }
}

// A feed is opened.
ghost use Rattle.std.specs.Prelude.{◌≡◌, ◌+◌, ◌<◌, ◌^◌, false, IfOk, OnErr};
ghost use Rattle.reql_table_machine_spec.specs.declared.command.Cmd.TheVariants as known;
ghost use Rattle.reql_core.specs.Live.{Does};
ghost use Rattle.reql_opening.specs.Opens.{IsOpened};

use crate::live::LiveTable;
use reql_memory::Memory;
use reql_opening::{Opened, Opening};
use reql_table_spec::{FeedSpec, Said};

impl<F: Opening> LiveTable<F> {
    // Keeps a feed that was opened, if one more may be open.
    #[tactic(auto, using(crate::proofs::Subscribed::full, crate::proofs::Subscribed::opened_it, crate::proofs::Keeping::lives_more))]
    fn keep_feed(&mut self, by: u64, spec: &FeedSpec, opened: Opened<F>) -> Result<Said, Memory>
        requires room { self.old.moment.place + 1 < 2 ^ 64 }
        requires alive { self.old.shut ≡ false }
        requires opened { IsOpened F.held F.fits F.reads spec.now self.old.moment.table opened }
        ensures does { IfOk result (λ s. Does F.held by (known.Subscribe spec.now) self.old self.new s) }
        ensures same { OnErr result (self.new ≡ self.old) }
    {
        let place = self.moment.place + 1;
        if self.feeds.len() >= self.most as usize {
            self.moment.place = place;
            return Ok(Said::FeedsFull { count: self.most });
        }
        let Opened { feed, opening } = opened;
        self.feeds.open(by, place, self.moment.stamp, feed)?;
        self.moment.place = place;
        Ok(Said::Opened {
            feed: place,
            opening,
        })
    }

    /// Opens a feed, whose number is the place after this entry. The history has room for one.
    #[tactic(auto, using(crate::proofs::Subscribed::gone, crate::proofs::Subscribed::missing))]
    pub(crate) fn subscribe(&mut self, by: u64, spec: &FeedSpec) -> Result<Said, Memory>
        requires room { self.old.moment.place + 1 < 2 ^ 64 }
        ensures does { IfOk result (λ s. Does F.held by (known.Subscribe spec.now) self.old self.new s) }
        ensures same { OnErr result (self.new ≡ self.old) }
    {
        if self.shut {
            return Ok(Said::Gone);
        }
        match F::open(self.alloc, spec, &self.moment.table)? {
            Some(opened) => {
                let said = self.keep_feed(by, spec, opened)?;
                Ok(said)
            }
            None => {
                self.moment.place += 1;
                Ok(Said::IndexMissing)
            }
        }
    }
}

// A command is run.
ghost use Rattle.std.specs.Prelude.{◌≡◌, ◌+◌, ◌<◌, ◌^◌, [], map, IfOk, OnErr};
ghost use Rattle.reql_table_machine_spec.specs.Fed.{changes_at};
ghost use Rattle.reql_table_spec.specs.Engines.{kept_of};
ghost use Rattle.reql_table_spec.specs.Machine.{known_cmd};
ghost use Rattle.reql_table_spec.specs.Table.{feeding, at_key};
ghost use Rattle.reql_core.specs.Live.{table_of, Does};

use crate::live::LiveTable;
use crate::writing::Wrote;
use reql_memory::Memory;
use reql_opening::Opening;
use reql_table_spec::{Cmd, Said};
use std::alloc::Global;

/// What was answered, where no document changed.
pub(crate) fn quiet(alloc: Global, said: Said) -> Wrote
    ensures said { result.said ≡ said }
    ensures kept { result.kept.items ≡ [] }
{
    Wrote {
        said,
        kept: Vec::new(alloc),
    }
}

impl<F: Opening> LiveTable<F> {
    /// Runs a command. The history has room for one entry.
    #[tactic(auto, using(crate::proofs::Runs::no_changes))]
    pub(crate) fn run(&mut self, by: u64, cmd: &Cmd) -> Result<Wrote, Memory>
        requires room { self.old.moment.place + 1 < 2 ^ 64 }
        ensures does { IfOk result (λ w. Does F.held by (known_cmd cmd.now) self.old self.new
            w.said) }
        ensures kept { IfOk result (λ w. map kept_of w.kept.items ≡ map at_key (changes_at
            (feeding self.old.most) (table_of F.held self.old) by (known_cmd cmd.now))) }
        ensures same { OnErr result (self.new ≡ self.old) }
    {
        let alloc = self.alloc();
        match cmd {
            Cmd::Write(write) => self.write(by, write),
            Cmd::IndexCreate(def) => {
                let said = self.create_index(by, def)?;
                Ok(quiet(alloc, said))
            }
            Cmd::IndexDrop(name) => {
                let said = self.drop_index(by, name)?;
                Ok(quiet(alloc, said))
            }
            Cmd::IndexRename {
                old,
                new,
                overwrite,
            } => {
                let said = self.rename_index(by, old, new, *overwrite)?;
                Ok(quiet(alloc, said))
            }
            Cmd::Subscribe(spec) => {
                let said = self.subscribe(by, spec)?;
                Ok(quiet(alloc, said))
            }
            Cmd::Take { feed, max } => {
                let said = self.take(by, *feed, *max)?;
                Ok(quiet(alloc, said))
            }
            Cmd::Unsubscribe { feed } => Ok(quiet(alloc, self.unsubscribe(by, *feed))),
            Cmd::Shut => Ok(quiet(alloc, self.drop_table(by))),
            Cmd::Sync => Ok(quiet(alloc, self.sync(by))),
        }
    }
}

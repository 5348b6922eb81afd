// What a journal keeps of a command.
ghost use Rattle.std.specs.Prelude.{◌≡◌, ℕ, List, map, option_map, Some, None, if◌then◌else◌, IfOk};
ghost use Rattle.reql_print.specs.Indexed.{printed_index, ReadsSameEntries};
ghost use Rattle.reql_rules.specs.Types.{same_text};
ghost use Rattle.reql_table_machine_spec.specs.declared.command.Said.TheVariants as said;
ghost use Rattle.reql_table_spec.specs.declared.command.Cmd.TheVariants as cmds;
ghost use Rattle.reql_journal.specs.declared.commands.Draft.TheVariants as drafts;
ghost use Rattle.reql_table_spec.specs.Engines.{kept_of};
ghost use Rattle.reql_table_spec.specs.Replies.{said_of};
ghost use Rattle.reql_table_records.specs.Records.{Change, record_of};
ghost use Rattle.reql_table_records.specs.Records as records;
ghost use Rattle.reql_journal.specs.Commands.{Heard, waits, IsWritten, if_changed, if_any, creation, of_command, of_draft};

use reql_datum::{Memory, Name};
use reql_print::print_index;
use reql_table_records::TableRecord;
use reql_table_spec::{Cmd, Kept, Said};
use reql_term::IndexDef;
use std::alloc::Global;

/// What is kept of a command before it is known what it is answered.
#[derive(Drop)]
pub(crate) enum Draft {
    /// The changes that it makes, if it makes any.
    Changes,
    /// This, where it is answered Changed.
    Changed(TableRecord),
    /// This, where it is answered Closed.
    Closed(TableRecord),
    Nothing,
}

/// Whether the answer to a command waits until all that was kept is safe on the disk.
pub(crate) fn waits(cmd: &Cmd) -> bool
    ensures { result ≡ waits cmd.now }
{
    match cmd {
        Cmd::Write(write) => write.hard,
        Cmd::IndexCreate(_) | Cmd::IndexDrop(_) => true,
        Cmd::IndexRename { .. } => true,
        Cmd::Shut | Cmd::Sync => true,
        Cmd::Subscribe(_) => false,
        Cmd::Take { .. } => false,
        Cmd::Unsubscribe { .. } => false,
    }
}

// The text of an index's function, as a name. Memory too where a function has none.
fn function_text(alloc: Global, def: &IndexDef) -> Result<Name, Memory>
    ensures text { IfOk result (λ text. printed_index def.now.multi def.now.func ≡ Some text) }
    ensures reads_back { IfOk result (λ text. ReadsSameEntries def.now.multi def.now.func text) }
{
    let Some(bytes) = print_index(alloc, &def.func, def.multi)? else {
        return Err(Memory);
    };
    match str::from_utf8(&bytes) {
        Ok(text) => Name::of(alloc, text),
        Err(_) => Err(Memory),
    }
}

fn creation(alloc: Global, def: &IndexDef) -> Result<TableRecord, Memory>
    ensures written { IfOk result (λ r. IsWritten (cmds.IndexCreate def.now)) }
    ensures made { IfOk result (λ r. creation def.now ≡ Some (record_of r)) }
{
    Ok(TableRecord::IndexCreate {
        name: def.name.copy()?,
        multi: def.multi,
        text: function_text(alloc, def)?,
    })
}

// A new name that is the old one changes nothing.
fn renaming(old: &Name, new: &Name) -> Result<Draft, Memory>
    ensures { IfOk result (λ d. (s : Heard) (cs : List Change) → of_draft d s cs
        ≡ (if same_text old.now new.now then None else if_changed s (Some (records.renamed old.now new.now)))) }
{
    if old.order(new.as_str()).is_eq() {
        return Ok(Draft::Nothing);
    }
    Ok(Draft::Changed(TableRecord::IndexRename {
        old: old.copy()?,
        new: new.copy()?,
    }))
}

/// What is kept of a command. Memory too where the function of an index has no text: no such command
/// is run, since what follows it could not be read back.
pub(crate) fn drafted(alloc: Global, cmd: &Cmd) -> Result<Draft, Memory>
    ensures written { IfOk result (λ d. IsWritten cmd.now) }
    ensures draft { IfOk result (λ d. (s : Heard) (cs : List Change)
        → of_draft d s cs ≡ of_command cmd.now s cs) }
{
    match cmd {
        Cmd::Write(_) => Ok(Draft::Changes),
        Cmd::IndexCreate(def) => Ok(Draft::Changed(creation(alloc, def)?)),
        Cmd::IndexDrop(name) => Ok(Draft::Changed(TableRecord::IndexDrop(name.copy()?))),
        Cmd::IndexRename { old, new, .. } => Ok(renaming(old, new)?),
        Cmd::Shut => Ok(Draft::Closed(TableRecord::Shut)),
        Cmd::Sync => Ok(Draft::Nothing),
        Cmd::Subscribe(_) => Ok(Draft::Nothing),
        Cmd::Take { .. } => Ok(Draft::Nothing),
        Cmd::Unsubscribe { .. } => Ok(Draft::Nothing),
    }
}

fn changes(kept: Vec<Kept>) -> Option<TableRecord>
    ensures { option_map record_of result ≡ if_any (map kept_of kept.items) }
{
    if kept.as_slice().is_empty() {
        return None;
    }
    Some(TableRecord::Write(kept))
}

impl Draft {
    /// The record of a command that was answered so and made these changes, if it has one.
    pub(crate) fn finish(self, said: &Said, kept: Vec<Kept>) -> Option<TableRecord>
        ensures { option_map record_of result
            ≡ of_draft self (said_of said.now) (map kept_of kept.items) }
    {
        match self {
            Draft::Changes => changes(kept),
            Draft::Changed(made) => match said {
                Said::Changed => Some(made),
                _ => None,
            },
            Draft::Closed(made) => match said {
                Said::Closed => Some(made),
                _ => None,
            },
            Draft::Nothing => None,
        }
    }
}

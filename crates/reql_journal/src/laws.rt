// Laws of journals of tables, each a clause of a function that does nothing.
ghost use Rattle.reql_journal.specs.Leading.{CommandsLead, HistoriesLead};
ghost use Rattle.reql_journal.specs.Safe.{CommandsAreSafe, FrontsAreRecovered};

use reql_blocks::bytes_are_read_one_way;
use reql_records::crashes_leave_a_front;
use reql_table_records::records_are_read_back;
use reql_write_spec::write_law;

/// The records of a history lead from the table that it began with to the one that it leads to: its
/// documents and its indexes, whose functions have the same entries, and whether it was dropped.
pub fn records_lead()
    ensures commands { CommandsLead }
    ensures histories { HistoriesLead }
{
    write_law();
}

/// Crash safety, from the opening of a journal on. Whatever moment a crash comes at, within a command or
/// between two, what is then recovered is the table to which a front of the records leads that were kept
/// up to then; and this front holds the record of each command before the last one that waited for the
/// disk and was answered that it was saved, and its own. That of any bytes which stand for such a front is
/// what they stand for, and no other table.
pub fn commands_are_safe()
    ensures fronts { FrontsAreRecovered }
    ensures safe { CommandsAreSafe }
{
    records_are_read_back();
    bytes_are_read_one_way();
    crashes_leave_a_front();
}

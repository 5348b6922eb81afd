// Laws of journals, each a clause of a function that does nothing.
ghost use Rattle.reql_records.specs.Safe.{OpenedIsTrusted, RunsAreSafe, JustTheseAreRead};

/// The promise of crash safety, from the opening of a journal on: after any calls of `keep`, and whatever moment a crash comes at,
/// within a call or between two, it leaves what was there when the file was opened and then a front of the records that were given
/// since, those of the call itself included; and this front holds every record that was given up to the last call that waits for
/// the disk and answered Ok. What is read of such bytes is just that.
pub fn crashes_leave_a_front()
    ensures opened { OpenedIsTrusted }
    ensures safe { RunsAreSafe }
    ensures read { JustTheseAreRead }
{}

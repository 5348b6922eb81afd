// Laws of writes.
ghost use Rattle.reql_write_spec.specs.Laws.{ChangesCome, CountsAddUp, ErrorsAreTold, ListsTell, ChangesLeaveGood, GoodTablesStay};

/// What a write's changes and counts are to its documents: each change is of the document that is
/// there at its turn, and makes another of it; each document treated counts once, and each change as
/// inserted, replaced or deleted; an error is told exactly where one counts; the list of changes is
/// as long as was asked for; what a change leaves can be stored, and has its key in the key field;
/// and a table whose documents rise by their keys, can be stored, and have their keys in the key
/// field is such a table afterwards.
pub fn write_law()
    ensures come { ChangesCome }
    ensures counts { CountsAddUp }
    ensures errors { ErrorsAreTold }
    ensures lists { ListsTell }
    ensures leave { ChangesLeaveGood }
    ensures good { GoodTablesStay }
{}

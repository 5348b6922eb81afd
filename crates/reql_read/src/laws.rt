// How spelling and reading meet, and which fault is told.
ghost use Rattle.reql_read.specs.Faults.{FirstFaultIsTold};
ghost use Rattle.reql_read.specs.Spelling.{ReadsBack, ReadsHeld};

/// A query that a body can hold is read back from the text of its spelling; what is read is a term
/// that a body can hold; and a query that has the shape of one is read exactly where the list of
/// all its faults in preorder is empty, and else answered by the first of them.
///
/// A term that a body can hold has no slot, and no operation whose operator has a form of its own:
/// an array, an object, a variable, the row and a function are never operations.
pub fn reading_laws()
    ensures reads_back { ReadsBack }
    ensures held { ReadsHeld }
    ensures first_fault { FirstFaultIsTold }
{}

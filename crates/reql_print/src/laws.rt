// How printing and reading meet.
ghost use Rattle.reql_print.specs.Laws.{PrintedReadsBack, ReadIsPrinted, TellsHeld};

/// What is printed of a term reads back to that very term, and each term that is read from a body
/// can be printed.
///
/// A term that is read nests no deeper once it is printed, since the form that it is printed in is
/// the least deep of those that read to it. The law of reading back asks of a form what each term
/// has: names and texts in UTF-8, names that rise, and numbers of 64 bits.
pub fn print_laws()
    ensures reads_back { PrintedReadsBack }
    ensures complete { ReadIsPrinted }
    ensures held { TellsHeld }
{}

// How operators and their numbers meet.
ghost use Rattle.reql_term.specs.OpLaws.{IsNumbered, IsNamed, IsByte};

/// An operator is the one that its number names; one that a number names has that number; and the
/// numbers of operators are 1 to 255.
pub fn op_laws()
    ensures numbered { IsNumbered }
    ensures named { IsNamed }
    ensures byte { IsByte }
{}

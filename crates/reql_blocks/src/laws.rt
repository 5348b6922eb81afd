// Laws of the format, each a clause of a function that does nothing.
ghost use Rattle.reql_blocks.specs.Laws.{StandOnce, WholeIsNotDamaged, DamagedOnce};

/// Bytes stand for one list of bodies at most; where they stand for one they are of the format; and else they aren't of it from one
/// place on. So a reader that ends answers just what they are.
pub fn bytes_are_read_one_way()
    ensures once { StandOnce }
    ensures whole { WholeIsNotDamaged }
    ensures damaged { DamagedOnce }
{}

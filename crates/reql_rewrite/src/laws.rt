// What follows of every rule.
ghost use Rattle.reql_rewrite.specs.Laws.{KeepsAll, StopsAtRoot, Fails};

/// A rule that says nothing of any term leaves each as it is; what it says of a term is what becomes
/// of it, with no look at its parts; and so is its fault.
pub fn rewrite_laws()
    ensures keeps { KeepsAll }
    ensures root { StopsAtRoot }
    ensures fault { Fails }
{}

// Laws of the definitions, each a clause of a function that does nothing.
ghost use Rattle.reql_load.specs.Folded.{FoldsAsBag, BagsThatFollowFold, FoldsByPlaces};

/// Where none of the items tells of the feed itself: they can be folded as a bag exactly where each
/// value that leaves is there; and what they lead to is what the folds of feeds make of them, as a bag
/// and by their places.
#[tactic(auto, using(crate::proofs::Tied::as_bag, crate::proofs::Tied::follows, crate::proofs::Tied::by_places))]
pub fn fold_laws()
    ensures bag { FoldsAsBag }
    ensures follows { BagsThatFollowFold }
    ensures places { FoldsByPlaces }
{}

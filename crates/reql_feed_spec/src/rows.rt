// Worked rows, computed on the definitions.
ghost use Rattle.reql_feed_spec.specs.Worked.{LimitsByIndex, PointsByKey, RangesAsBags, Joined, Skipped};

/// Worked rows of feeds: opening items, items, folds and nets of each kind on small tables.
#[tactic(auto, using(crate::proofs::Worked::limits, crate::proofs::Worked::points, crate::proofs::Worked::ranges, crate::proofs::Worked::joined, crate::proofs::Worked::skipped))]
pub fn worked_rows()
    ensures limits { LimitsByIndex }
    ensures points { PointsByKey }
    ensures ranges { RangesAsBags }
    ensures joined { Joined }
    ensures skipped { Skipped }
{}

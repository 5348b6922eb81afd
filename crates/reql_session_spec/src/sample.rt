// Plans that are easy to see through.
use crate::planning::Planning;

/// Plans that follow the table in slot 0, or are answered a number.
pub struct SamplePlans;

impl Planning for SamplePlans {
    ghost use Rattle.reql_session_spec.specs.Sample.{sample, comes_by, sample_minds};

    type Plan = u64;

    ghost talk = { λ p. sample };

    ghost on = { λ p. comes_by };

    ghost minds = { λ p. sample_minds };
}

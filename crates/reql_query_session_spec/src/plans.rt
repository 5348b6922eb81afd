// What a session is told of reading bodies and of planning, where it plans ReQL.
use reql_plan_spec::Plan;
use reql_session_spec::Planning;
use reql_table_spec::Limits;

/// Requests in ReQL: bodies that are read, and their plans, in sessions that want a key or a password and keep limits.
#[derive(Drop)]
pub struct QueryPlans {
    /// What a greeting must bring, as bytes.
    pub key: Vec<u8>,
    /// The password of a login, as bytes.
    pub password: Vec<u8>,
    pub limits: Limits,
}

impl Planning for QueryPlans {
    ghost use Rattle.reql_query_session_spec.specs.Told.{keys_by, talk, comes_by};
    ghost use Rattle.reql_query_session_spec.specs.Minding.{plans_are_told};

    type Plan = Plan;

    ghost talk = { λ p. talk (keys_by p.key.items p.password.items) p.limits };

    ghost on = { λ p. comes_by p.limits };

    ghost minds = { λ p. plans_are_told (keys_by p.key.items p.password.items) p.limits };
}

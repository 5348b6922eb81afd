// What a session is told of reading bodies and of planning.
ghost use Rattle.std.specs.Prelude.{ℕ, Bool, List};
ghost use Rattle.reql_session_spec.specs.Requests.{Arm, Found};
ghost use Rattle.reql_session_spec.specs.Tasks.{Talk};
ghost use Rattle.reql_session_spec.specs.Minding.{PlansMind};

/// What a session is told of its key and its limits, of reading bodies, and of planning.
///
/// A plan takes from no feed, closes only what it opened, and its feed has just the arms that are open then, each once,
/// and one at least; where it ends with a stream none is open, and with `noreply` it ends without an answer. `on` says
/// of a plan, of `noreply`, of the number of open cursors and feeds, of what was found, and of the arms that are open
/// then, that a course of the plan comes by there.
pub trait Planning {
    type Plan;

    ghost talk: { Self → Talk Self.Plan };

    ghost on: { Self → Self.Plan → Bool → ℕ → List Found → List Arm → Type 0 };

    ghost minds: { (p : Self) → PlansMind (talk p) (on p) };
}

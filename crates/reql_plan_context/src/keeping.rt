// Operators that keep their places among arguments.
ghost use Rattle.std.specs.Prelude.{◌≡◌};
ghost use Rattle.reql_plan_spec.specs.Settled.{is_direction as is_direction_of, is_error as is_error_of, keeps_argument as keeps_argument_of, keeps_option as keeps_option_of};
ghost use Rattle.reql_plan_context.specs.Keeping.{kept_by};

use reql_term::{Op, Way};

/// Among which arguments an operator keeps its place.
#[derive(Clone, Copy, Drop)]
pub(crate) enum Keeps {
    /// Those of an operator that takes them so.
    Argument(Way),
    /// Its optional ones.
    Chosen(Way),
    /// Any others, where none does.
    Nothing,
}

impl Keeps {
    /// Whether an operator keeps its place there.
    pub(crate) fn keeps(self, op: Op) -> bool
        ensures { result ≡ kept_by self op }
    {
        match self {
            Keeps::Argument(by) => keeps_argument(by, op),
            Keeps::Chosen(by) => keeps_option(by, op),
            Keeps::Nothing => false,
        }
    }
}

// ASC and DESC.
fn is_direction(way: Way) -> bool
    ensures { result ≡ is_direction_of way }
{
    match way {
        Way::Rising => true,
        Way::Falling => true,
        _ => false,
    }
}

fn is_error(way: Way) -> bool
    ensures { result ≡ is_error_of way }
{
    match way {
        Way::Raising => true,
        _ => false,
    }
}

fn keeps_argument(by: Way, op: Op) -> bool
    ensures { result ≡ keeps_argument_of by op }
{
    match by {
        Way::Sorting => is_direction(op.way()),
        _ => false,
    }
}

fn keeps_option(by: Way, op: Op) -> bool
    ensures { result ≡ keeps_option_of by op }
{
    match by {
        Way::Sorting => is_direction(op.way()),
        Way::Filtering => is_error(op.way()),
        _ => false,
    }
}

// Whether the slots of arms are there.
ghost use Rattle.std.specs.Prelude.{◌≡◌};
ghost use Rattle.reql_session.specs.Batches.{are_below};

use reql_session_api::Arm;

/// Whether the slot of each arm is one of so many.
pub(crate) fn are_there(arms: &[Arm], slots: u32) -> bool
    ensures { result ≡ are_below slots arms.now }
{
    let mut place = 0;
    while let Some(arm) = arms.get(place) {
        if arm.slot >= slots {
            return false;
        }
        place += 1;
    }
    true
}

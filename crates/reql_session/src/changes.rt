// Who waits for a change of a table is told of it.
ghost use Rattle.std.specs.Prelude.{◌≡◌};

use reql_outside::Link;
use reql_plan_driver::Met;
use reql_session_api::Arm;

/// Tells the link which tables a course may have changed.
pub(crate) fn tell_changes<L: Link>(link: &mut L, met: &Met)
    ensures { L.tape link.new ≡ L.tape link.old }
{
    if !met.ran {
        return;
    }
    for point in &met.points {
        link.changed(point.slot);
    }
}

/// Tells the link that its session waits for a change of the tables of these arms.
pub(crate) fn await_changes<L: Link>(link: &mut L, arms: &[Arm])
    ensures { L.tape link.new ≡ L.tape link.old }
{
    for arm in arms {
        link.awaits(arm.slot);
    }
}

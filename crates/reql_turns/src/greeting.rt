// The turns of the greeting, each after its visits.
ghost use Rattle.std.specs.Prelude.{◌≡◌, [], length};
ghost use Rattle.reql_wire.specs.Greeting.{Greets};
ghost use Rattle.reql_session_spec.specs.Tasks.{Talk};
ghost use Rattle.reql_turns.specs.Ears.{Hears};
ghost use Rattle.reql_turns.specs.declared.ears.Phase.TheVariants as phases;

use crate::ears::{Ears, Phase};
use crate::handler::Handler;
use crate::receiving::end_of;
use reql_hearing::{Heard, hear};
use reql_outside::{Link, send_all};
use reql_session_spec::End;
use reql_wire::{GreetFault, Greeting, accepted_answer};

/// Receives once, where the greeting isn't whole yet.
pub(crate) fn hear_more<H: Handler<L>, L: Link>(
    link: &mut L,
    ears: &mut Ears,
    buf: &mut [u8],
) -> Option<End>
    requires room { length buf.old ≡ 65536 }
    requires short { Greets ears.old.greeter.key ears.old.greeter.heard Greeting.More }
    requires none { ears.old.feeder.held ≡ [] }
    ensures { (k : Talk H.Plan) → Hears k phases.Waiting (L.tape link.old) (L.tape link.new) ears.old
        ears.new result }
{
    match hear(link, &mut ears.greeter, &mut ears.feeder, buf) {
        Heard::Idle => None,
        Heard::More => None,
        Heard::Accepted => {
            ears.phase = Phase::Whole;
            None
        }
        Heard::Called => {
            ears.phase = Phase::Called;
            None
        }
        Heard::Refused(fault) => {
            ears.phase = Phase::Wrong(fault);
            None
        }
        Heard::Lost => Some(End::Memory),
        Heard::Over => Some(end_of(ears.greeter.held())),
        Heard::Failed => Some(End::ReadFault),
    }
}

/// Says that the greeting is accepted.
pub(crate) fn accept<H: Handler<L>, L: Link>(link: &mut L, ears: &mut Ears) -> Option<End>
    ensures { (k : Talk H.Plan) → Hears k phases.Whole (L.tape link.old) (L.tape link.new) ears.old
        ears.new result }
{
    if send_all(link, accepted_answer()) {
        ears.phase = Phase::Over;
        None
    } else {
        Some(End::WriteFault)
    }
}

/// Says why the greeting is refused, with which the session ends.
pub(crate) fn refuse<H: Handler<L>, L: Link>(
    link: &mut L,
    ears: &mut Ears,
    fault: GreetFault,
) -> Option<End>
    ensures { (k : Talk H.Plan) → Hears k (phases.Wrong fault) (L.tape link.old) (L.tape link.new)
        ears.old ears.new result }
{
    if send_all(link, fault.answer()) {
        Some(End::Refused(fault))
    } else {
        Some(End::WriteFault)
    }
}

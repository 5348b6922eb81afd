// Looks for a pair by its place.
ghost use Rattle.std.specs.Prelude.{◌≡◌, ◌+◌, ◌≤◌, length, option_map, slice_get};
ghost use Rattle.reql_ptree.specs.Seen.{pair_seen};
ghost use Rattle.reql_ptree.specs.Tall.{tall};

use crate::seek::pair_at;
use crate::side::Side;
use crate::steps::Steps;
use reql_datum::Datum;

/// The pair at a place of a side's pairs. Each side's size stands beside its pointer, so the way
/// down reads no chunk but the last.
pub(crate) fn place_in<'a, L>(
    side: &'a Side,
    place: u64,
    steps: &mut Steps<L>,
) -> Option<(&'a Datum, &'a Datum)>
    ensures found { option_map pair_seen result ≡ slice_get side.now.0 place }
    ensures counted { steps.new ≤ steps.old + tall (length side.now.0) }
{
    let _facts = side.height();
    let mut rest = side;
    let mut ahead = place;
    while let Some(node) = rest.node() {
        steps.tick();
        let before = node.left.len();
        let through = rest.len() - node.right.len();
        if ahead < before {
            rest = &node.left;
        } else if ahead < through {
            steps.tick();
            return pair_at(node.chunk.pairs(), (ahead - before) as usize);
        } else {
            ahead -= through;
            rest = &node.right;
        }
    }
    None
}

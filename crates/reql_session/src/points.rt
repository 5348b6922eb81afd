// The points of an answer.
ghost use Rattle.std.specs.Prelude.{◌≡◌, ◌<◌, ◌≤◌, ◌++◌, [], IfOk, drop, get_or, length};
ghost use Rattle.reql_session_spec.specs.Requests.{put_point};
ghost use Rattle.reql_desk_moves.specs.Steps.{put_points};

use reql_datum::Point;
use reql_memory::Memory;
use std::alloc::{AllocError, Global};

// The points below one, then it, and those from a place on, of which the first may be of its slot.
fn joined(
    below: Vec<Point>,
    point: Point,
    points: &[Point],
    place: usize,
) -> Result<Vec<Point>, AllocError>
    requires there { place < length points.now }
    requires below { point.slot ≤ (get_or points.now place point).slot }
    ensures { IfOk result (λ more. more.items ≡ below.items ++ put_point point (drop place points.now)) }
{
    let mut more = below;
    more.push(point)?;
    let rest = if points[place].slot == point.slot {
        place + 1
    } else {
        place
    };
    more.extend_from_slice(&points[rest..])?;
    Ok(more)
}

// The points with one more, by rising slot, instead of an earlier one of its slot.
fn with_point(alloc: Global, point: Point, points: &[Point]) -> Result<Vec<Point>, AllocError>
    ensures { IfOk result (λ more. more.items ≡ put_point point points.now) }
{
    let mut below = Vec::new(alloc);
    let mut place = 0;
    while place < points.len() {
        let other = points[place];
        if point.slot <= other.slot {
            return joined(below, point, points, place);
        }
        below.push(other)?;
        place += 1;
    }
    below.push(point)?;
    Ok(below)
}

fn sorted(alloc: Global, points: &[Point]) -> Result<Vec<Point>, AllocError>
    ensures { IfOk result (λ sorted. sorted.items ≡ put_points [] points.now) }
{
    let mut sorted = Vec::new(alloc);
    for point in points {
        sorted = with_point(alloc, *point, sorted.as_slice())?;
    }
    Ok(sorted)
}

/// Points by rising slot, and of each slot the last.
pub(crate) fn by_slot(alloc: Global, points: &[Point]) -> Result<Vec<Point>, Memory>
    ensures { IfOk result (λ sorted. sorted.items ≡ put_points [] points.now) }
{
    match sorted(alloc, points) {
        Ok(sorted) => Ok(sorted),
        Err(_) => Err(Memory),
    }
}

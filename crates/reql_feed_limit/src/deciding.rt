// What a change does to the elements, by where its pairs stand among them.
ghost use Rattle.std.specs.Prelude.{◌≡◌, ◌<◌, ◌-◌, nat_lt, length, map, IfOk, option_map, if◌then◌else◌};
ghost use Rattle.reql_memory.specs.Sorted.{AreRisingBy};
ghost use Rattle.reql_feed_limit.specs.Selection as sel;
ghost use Rattle.reql_feed_limit.specs.Seen.{seen, seen_step};
ghost use Rattle.reql_feed_limit.specs.Deciding.{Moves, Arrives, Exchanges, Leaves};

use crate::element::{Element, LimitStep, Placed};
use crate::search::{gap_of, place_of};
use reql_datum::{Memory, compare};

/// The step that changes nothing.
pub(crate) fn nothing() -> LimitStep
    ensures { seen_step result ≡ record { left = None; came = None } }
{
    LimitStep {
        left: None,
        came: None,
    }
}

// One element leaves and one comes.
fn moved(held: &[Element], from: usize, to: usize, came: Element) -> Result<LimitStep, Memory>
    requires { from < length held.now }
    ensures { IfOk result (λ s. Moves (map seen held.now) from to (seen came) (seen_step s)) }
{
    let left = held[from].copy()?;
    Ok(LimitStep {
        left: Some(Placed {
            place: from,
            element: left,
        }),
        came: Some(Placed {
            place: to,
            element: came,
        }),
    })
}

/// An element comes, and none of the elements goes by the change itself; where they are full the last one leaves.
pub(crate) fn arrive(
    held: &[Element],
    descending: bool,
    size: usize,
    came: Element,
) -> Result<LimitStep, Memory>
    requires rising { AreRisingBy (sel.facing descending) (map seen held.now) }
    ensures { IfOk result (λ s. Arrives descending size (map seen held.now) (seen came) (seen_step s)) }
{
    let to = gap_of(held, descending, &came.pair);
    if held.len() < size {
        return Ok(LimitStep {
            left: None,
            came: Some(Placed {
                place: to,
                element: came,
            }),
        });
    }
    if held.is_empty() {
        return Ok(nothing());
    }
    moved(held, held.len() - 1, to, came)
}

// Where a gap is, once the element at a place has gone.
fn closed_up(from: usize, gap: usize) -> usize
    ensures { result ≡ (if nat_lt from gap then gap - 1 else gap) }
{
    if from < gap { gap - 1 } else { gap }
}

/// The element at a place goes, and one comes.
pub(crate) fn exchange(
    held: &[Element],
    descending: bool,
    from: usize,
    came: Element,
) -> Result<LimitStep, Memory>
    requires rising { AreRisingBy (sel.facing descending) (map seen held.now) }
    requires within { from < length held.now }
    ensures { IfOk result (λ s. Exchanges descending (map seen held.now) from (seen came) (seen_step s)) }
{
    match place_of(held, descending, &came.pair) {
        Ok(_) => {
            let old = &held[from];
            if compare(&old.doc, &came.doc).is_eq() {
                Ok(nothing())
            } else {
                moved(held, from, from, came)
            }
        }
        Err(gap) => {
            let to = closed_up(from, gap);
            moved(held, from, to, came)
        }
    }
}

/// The element at a place goes, and the next one follows at the end, if there is one.
pub(crate) fn leave(
    held: &[Element],
    from: usize,
    next: Option<Element>,
) -> Result<LimitStep, Memory>
    requires within { from < length held.now }
    ensures { IfOk result (λ s. Leaves (map seen held.now) from (option_map seen next) (seen_step s)) }
{
    match next {
        None => {
            let left = held[from].copy()?;
            Ok(LimitStep {
                left: Some(Placed {
                    place: from,
                    element: left,
                }),
                came: None,
            })
        }
        Some(element) => moved(held, from, held.len() - 1, element),
    }
}

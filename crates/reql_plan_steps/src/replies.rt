// What a command's reply says, where it doesn't end the request.
ghost use Rattle.std.specs.Prelude.{◌≡◌, IfOk};
ghost use Rattle.reql_table_spec.specs.Replies.{told_of, said_of};
ghost use Rattle.reql_plan_spec.specs.Course.{reply_heard, said_by};
ghost use Rattle.reql_plan_spec.specs.Move.{ran};
ghost use Rattle.reql_plan_steps.specs.Keeps.{Keeps};

use crate::moves::Answered;
use reql_catalog::Names;
use reql_datum::{Fault, Memory, Name};
use reql_plan_results::dropped_of;
use reql_table_spec::{Reply, Said, Saved};
use std::alloc::Global;

/// What a command was answered, or the answer of the request.
#[derive(Drop)]
pub enum Kept {
    /// What goes on.
    Said(Said),
    /// The answer of the request.
    Ends(Answered),
}

/// What a reply of the table in a slot says. A dropped table, a full history, and a journal that
/// failed are the answer.
pub fn kept_by(alloc: Global, names: &Names, slot: u32, reply: Reply) -> Result<Kept, Memory>
    ensures { IfOk result (λ k. Keeps k (reply_heard names.now slot
        (ran (told_of reply) reply.saved))) }
{
    let Reply {
        place: _,
        stamp: _,
        said,
        saved,
    } = reply;
    match saved {
        Saved::Yes => said_by(alloc, names, slot, said),
        Saved::Failed => {
            let text = Name::of(alloc, "Journal failed.")?;
            Ok(Kept::Ends(Answered::Fault(Fault::OpFailed(text))))
        }
        Saved::Memory => Ok(Kept::Ends(Answered::Fault(Fault::Memory))),
    }
}

fn said_by(alloc: Global, names: &Names, slot: u32, said: Said) -> Result<Kept, Memory>
    ensures { IfOk result (λ k. Keeps k (said_by names.now slot (said_of said))) }
{
    match said {
        Said::Gone => {
            let text = dropped_of(alloc, names, slot)?;
            Ok(Kept::Ends(Answered::Fault(Fault::OpFailed(text))))
        }
        Said::HistoryFull { count: _ } => {
            let text = Name::of(alloc, "History is full.")?;
            Ok(Kept::Ends(Answered::Fault(Fault::ResourceLimit(text))))
        }
        Said::Done(summary) => Ok(Kept::Said(Said::Done(summary))),
        Said::Changed => Ok(Kept::Said(Said::Changed)),
        Said::IndexExists => Ok(Kept::Said(Said::IndexExists)),
        Said::IndexMissing => Ok(Kept::Said(Said::IndexMissing)),
        Said::Opened { feed, opening } => Ok(Kept::Said(Said::Opened { feed, opening })),
        Said::FeedsFull { count } => Ok(Kept::Said(Said::FeedsFull { count })),
        Said::Batch {
            skipped,
            last,
            items,
        } => Ok(Kept::Said(Said::Batch {
            skipped,
            last,
            items,
        })),
        Said::Nothing => Ok(Kept::Said(Said::Nothing)),
        Said::FeedUnknown { feed } => Ok(Kept::Said(Said::FeedUnknown { feed })),
        Said::Closed => Ok(Kept::Said(Said::Closed)),
    }
}

//! Runs worked rows on the plans of requests, and says which differ and how many passed.
//!
//! A row is one request from its body to its answer: `plan`, a JSON array of the body and of what each
//! move of the request is answered, ` => `, and the moves with the answer, joined by `; `. `crowded` is
//! a request of a session that has as many cursors open as it may. Empty lines and those that begin
//! with `#` are passed over. A body that is refused before it has a plan gives its fault alone, that of
//! reading as `refused`, that of planning as `compile`. A row whose answers end too early ends with
//! `waits`, one that has more than are asked for with `surplus`; one with an answer that can't be read
//! has no result.
//!
//! An answer is an object of one name. `names` lists what the catalogue holds, each as `[db]`,
//! `[db,table]` or `[db,table,key field]`, the tables in the order of their slots. `told` is what the
//! clock tells, or null. `look` is a table: its `docs`, keyed by `id` whatever its key field, its
//! `indexes` (a name, `[name]` for a multi index, or a name with the fields of a compound one) and its
//! `place` and `stamp`, each left out where it is empty or 0; or null where it was dropped. `rolled` is
//! the first of 16 rising bytes of the dice, or null. `changed` is what the catalogue says: a word, or a
//! list of the slots that a drop emptied. Of a table `done` is the summary of a write, `opened` a feed
//! with its `feed`, `stamp` and `items`, `said` any other reply as a word, and `saved` a reply that was
//! not kept on disk, `failed` or for want of `memory`; what such a reply says doesn't count.
//!
//! Moves are `names`, `clock`, `look` with a slot, `dice`, commands on names, and `run` with a slot and
//! a command, after which `seen` lists the points `slot@place/stamp` at which its values were read. Of
//! that command what is as usual isn't shown: a key field `id`, the conflict `error`, no changes
//! returned, a write kept on disk, a queue of 100000. In terms a document is itself, an operator its
//! number with its arguments and, after `;`, its options, a variable `v` and its id, a function a bar,
//! its variables with a bar after each, and its body, and a table `@` and its slot.
//!
//! Answers are `atom`, `sequence`, `grouped` with each group and its value, `fault` with its type and
//! text, `unsent`, and `feed` with each arm as `slot/feed` and the text that its end is told with,
//! `notes` with these, and `items`, where there are any, with each as `arm@stamp`, `state` if it is a
//! state item, and what is shown.
#![tactic(auto)]

mod answers;
mod catalog;
mod course;
mod found;
mod moves;
mod orders;
mod replies;
mod tables;
mod terms;
mod words;

use course::Calls;
use rows_reader::run_rows;
use std::io;

fn main(rt: HostRuntime) -> io::Result<()> {
    run_rows(&rt, rt.alloc(), &Calls)
}

// A worker: it serves the links of its door, one after another, at one desk.
use reql_net::Door;
use reql_outside::Link;
use reql_session::Bench;
use reql_table_spec::TableEngine;
use reql_turns::Served;

/// A session that ended, and the number of the desk at which it was served.
#[derive(Drop)]
pub struct Member<R> {
    pub desk: u64,
    pub served: Served<R>,
}

/// Whether a worker may go on, or why it ended.
#[derive(Clone, Copy, Debug, PartialEq, Eq)]
pub enum WorkState {
    /// It may go on.
    Ready,
    /// It has served all of its share.
    Done,
    /// Its door answered End.
    Over,
    /// Its door answered Failed.
    Failed,
    /// Memory was wanted for one more session. Its door was not asked for it.
    Memory,
}

/// What serves the links of one door, one after another, at one desk, with one clock and one set of dice.
#[derive(Drop)]
pub struct Worker<C: TableEngine, G: Door, D, T> {
    pub door: G,
    /// It is there, but while sessions have it.
    pub bench: Option<Bench<C, D, T>>,
    /// How many sessions it may still serve.
    pub left: u64,
    /// The sessions that it served, in their order.
    pub ended: Vec<Member<<G::Link as Link>::Record>>,
    pub state: WorkState,
}

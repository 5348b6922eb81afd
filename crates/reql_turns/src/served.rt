// What is left of a session.
use reql_session_spec::End;

/// How a session ended, over the record of its link, and in how many turns.
#[derive(Drop)]
pub struct Served<R> {
    pub end: End,
    pub tape: R,
    pub turns: u64,
}

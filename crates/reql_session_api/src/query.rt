// What a body asks for.
use reql_datum::Name;

/// What a body asks for, over plans.
#[derive(Drop)]
pub enum Query<P> {
    /// It can't be read: whether no answer is wanted, and why.
    Unreadable(bool, Name),
    /// It can't be planned: likewise.
    Unplanned(bool, Name),
    /// A plan, and whether no answer is wanted.
    Start(bool, P),
    Continue,
    Stop,
    NoreplyWait,
    ServerInfo,
}

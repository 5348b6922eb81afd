// The moves of a request, and what they found.
use crate::answered::Answered;
use reql_catalog::{CatCmd, CatReply, Names};
use reql_table_spec::{Look, Order, Reply};

/// A request's next move.
#[derive(Drop)]
pub enum Move {
    LookNames,
    TellTime,
    LookSlot(u32),
    RunSlot(u32, Order),
    ChangeNames(CatCmd),
    Roll,
    Ends(Answered),
}

/// What a move found, over views of tables.
#[derive(Drop)]
pub enum Found<V> {
    /// The names, and the number of commands on them before.
    SawNames(u64, Names),
    /// The seconds since the beginning of 1970, in UTC; none where the clock failed.
    Clocked(Option<i64>),
    SawSlot(u32, Look<V>),
    RanSlot(u32, Reply),
    /// A command on the names, and their number after it.
    ChangedNames(u64, CatReply),
    /// Sixteen bytes; none where the dice failed.
    Rolled(Option<[u8; 16]>),
}

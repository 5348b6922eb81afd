// What lies in the table's slot, and what a seat of the table knows.
use crate::recorded::Recorded;
use std::collections::LinkedList;
use std::snapshot::Snapshot;

/// The engine, and the command that it answered last.
#[derive(Drop)]
pub struct Lodged<E, C> {
    pub engine: Option<E>,
    pub asked: Option<Snapshot<C>>,
}

/// What a seat knows. No value of it is made.
pub struct View<C, S> {
    pub live: bool,
    pub start: S,
    pub passes: u64,
    pub seen: LinkedList<Recorded<C>>,
    pub own: bool,
    pub number: u64,
    pub marks: LinkedList<u64>,
    pub holds: bool,
    pub maker: bool,
    pub next: u64,
    pub joined: bool,
    pub mine_old: LinkedList<Recorded<C>>,
    pub other_old: LinkedList<Recorded<C>>,
}

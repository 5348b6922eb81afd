// The moves of a request, what it hears, and what it is answered.
use reql_catalog::{CatCmd, CatReply, Names};
use reql_datum::{Datum, Fault, Items};
use reql_operand::Group;
use reql_plan_results::{Arm, Item};
use reql_table_spec::{Look, Order, Reply};

/// What a request asks on its way.
#[derive(Drop)]
pub enum Ask {
    /// A look at the catalogue of names.
    LookNames,
    /// What the clock tells, in seconds.
    Tell,
    /// A look at the table in a slot.
    Look(u32),
    /// An order that the table in a slot runs.
    Run(u32, Order),
    /// A command on the names of databases and tables.
    ChangeNames(CatCmd),
    /// 16 bytes of the dice.
    Roll,
}

/// What a move was answered.
#[derive(Drop)]
pub enum Found<V> {
    Names(Names),
    /// The seconds that the clock told, or nothing where it failed.
    Told(Option<i64>),
    Look(Look<V>),
    Ran(Reply),
    Changed(CatReply),
    /// The bytes of the dice, or nothing where they failed.
    Rolled(Option<[u8; 16]>),
}

/// What a request is answered.
#[derive(Drop)]
pub enum Answered {
    /// Nothing, where no answer is wanted.
    Unsent,
    Atom(Datum),
    Grouped(Vec<Group>),
    Sequence(Items),
    /// An open feed: its arms, the notes of its answers, and its first items.
    Feed {
        arms: Vec<Arm>,
        notes: Vec<u8>,
        items: Vec<Item>,
    },
    /// A fault. It is Memory where a reply told so.
    Fault(Fault),
}

/// A request's next move.
#[derive(Drop)]
pub enum Move {
    Ask(Ask),
    Answer(Answered),
}

// Where a request waits for an answer, with what it goes on with.
use reql_catalog::{CatCmd, Names};
use reql_datum::{Datum, Items, Name, Seq};
use reql_plan_changes::Feeding;
use reql_plan_context::{Held, Read};
use reql_plan_results::Open;
use reql_plan_spec::{Commanded, Opening, Plan, Prepared, Setting};
use reql_plan_steps::{Answered, Ask};
use reql_table_spec::Summary;
use reql_term::{Term, Terms};

/// A request whose names are resolved.
#[derive(Drop)]
pub struct Asked {
    pub plan: Plan,
    pub setting: Setting,
    pub names: Names,
    pub term: Term,
}

/// The writes of a FOR_EACH that are left: those of this element, then all for each further element.
#[derive(Drop)]
pub struct Rounds {
    pub id: u64,
    pub element: Datum,
    pub writes: Terms,
    pub next: usize,
    pub elements: Items,
    pub place: usize,
    pub total: Summary,
}

/// What a write's summary is for: the answer, or one of many.
#[derive(Drop)]
pub enum Then {
    Once,
    Each(Box<Rounds>),
}

/// Why a feed isn't opened.
#[derive(Drop)]
pub enum Refusal {
    NoIndex(Name),
    FeedsFull,
    HistoryFull,
    /// The table in this slot was dropped.
    Dropped(u32),
}

/// Where a request whose names are resolved waits for an answer.
#[derive(Drop)]
pub enum Stage<V> {
    Clock(Asked),
    Looks {
        asked: Asked,
        read: Read<V>,
        slot: u32,
        slots: Seq<u32>,
        place: usize,
    },
    Keys {
        held: Held<V>,
        ready: Prepared,
        made: Items,
        left: u64,
        then: Then,
    },
    Wrote {
        held: Held<V>,
        slot: u32,
        then: Then,
    },
    Catalogue {
        held: Held<V>,
        command: CatCmd,
    },
    Shuts {
        held: Held<V>,
        command: CatCmd,
        slot: u32,
        slots: Seq<u32>,
        place: usize,
    },
    Table {
        held: Held<V>,
        command: Commanded,
    },
    Feeds {
        held: Held<V>,
        feeding: Feeding,
        opening: Opening,
        before: Seq<Open>,
        place: usize,
    },
    Closing {
        held: Held<V>,
        why: Refusal,
        before: Seq<Open>,
        place: usize,
    },
}

/// A request's turn: it asks, and waits where it goes on, or it is answered. The stage stands
/// elsewhere in memory, since a turn is handed up through many calls.
#[derive(Drop)]
pub enum Turn<V> {
    Ask(Ask, Box<Stage<V>>),
    Done(Answered),
}

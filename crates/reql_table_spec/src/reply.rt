// What a table answers.
use reql_datum::{Datum, Items, Seq};
use reql_write_spec::Summary;
use std::marker::Model;

/// What a command is answered.
#[derive(Drop)]
pub enum Said {
    /// A write was applied.
    Done(Summary),
    /// The command would take the place or the stamp above `count`, the last number of a u64.
    HistoryFull {
        count: u64,
    },
    Changed,
    IndexExists,
    IndexMissing,
    Opened {
        feed: u64,
        opening: Items,
    },
    /// So many feeds are open, the most that may be.
    FeedsFull {
        count: u32,
    },
    /// Items of a feed with the stamps of their changes (joined ones with the last), after so many that were dropped, the last of
    /// them at the stamp `last`.
    Batch {
        skipped: u64,
        last: u64,
        items: Seq<(u64, Datum)>,
    },
    /// A feed has nothing to give.
    Nothing,
    /// Who gave the command has no such feed open.
    FeedUnknown {
        feed: u64,
    },
    Closed,
    /// The table was dropped.
    Gone,
}

/// Whether a command that is to be kept on disk was kept.
#[derive(Clone, Copy, Debug, PartialEq, Eq, Drop)]
pub enum Saved {
    Yes,
    /// The disk failed. The command stands.
    Failed,
    /// Memory was wanted. The command stands.
    Memory,
}

/// What a command is answered, with the point of the table after it. Of `saved` the machine knows nothing.
#[derive(Drop)]
pub struct Reply {
    pub place: u64,
    pub stamp: u64,
    pub said: Said,
    pub saved: Saved,
}

/// What the machine says of a reply: all but `saved`. No value of it is made.
pub struct Told {
    nothing: (),
}

impl Model for Told {
    ghost use Rattle.std.specs.Coded.{codes};
    ghost use Rattle.reql_datum.specs.Code.{plain_code, list_code, pairs_code};
    ghost use Rattle.reql_table_spec.specs.Replies.{Answered, nothing_said};

    ghost Value = { Answered };

    ghost coded = { Prim.hlevel (codes, plain_code, list_code, pairs_code) };

    ghost view = { λ t. nothing_said };
}

/// What the machine says of a look: the point, and the documents and the indexes there. No value of it is made.
pub struct Heard {
    nothing: (),
}

impl Model for Heard {
    ghost use Rattle.std.specs.Prelude.{None};
    ghost use Rattle.std.specs.Coded.{codes};
    ghost use Rattle.reql_datum.specs.Code.{plain_code, list_code, pairs_code};
    ghost use Rattle.reql_term.specs.FormCode.{form_code};
    ghost use Rattle.reql_table_spec.specs.Machine.{Seen};

    ghost Value = { Seen };

    ghost coded = { Prim.hlevel (codes, plain_code, list_code, pairs_code, form_code) };

    ghost view = { λ t. record { place = 0; stamp = 0; view = None } };
}

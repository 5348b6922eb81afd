use reql_datum::Name;
use reql_memory::Seq;

/// A command on the names of databases and tables.
#[derive(Drop)]
pub enum CatCmd {
    DbCreate(Name),
    DbDrop(Name),
    /// `key` is the name of the primary key field.
    TableCreate { db: Name, table: Name, key: Name },
    TableDrop { db: Name, table: Name },
}

/// What a command is answered. The checks are made in the order `HistoryFull`, `BadName`,
/// `DbMissing`, then what exists or is missing, `SlotsFull`.
#[derive(Drop)]
pub enum CatSaid {
    Made,
    /// The slots of the tables that went, rising.
    Dropped { slots: Seq<u32> },
    DbExists,
    DbMissing,
    TableExists,
    TableMissing,
    /// No slot is left of so many: a slot that was given is never given again.
    SlotsFull { count: u32 },
    /// A name breaks the rule of names, or the key field is `$reql_type$`.
    BadName,
    /// The history has so many entries, which is the end of its numbers.
    HistoryFull { count: u64 },
}

/// What a command is answered, with the number of entries after it.
#[derive(Drop)]
pub struct CatReply {
    pub place: u64,
    pub said: CatSaid,
}

// What tells operators apart beside their arguments.

/// How a term takes its arguments. But for the ways named here it takes them from left to right, and
/// then its optional ones by name.
#[derive(Clone, Copy, Drop)]
pub enum Way {
    /// As said, group by group where the first one is grouped.
    Strict,
    /// As said, where those after the first may stand under ASC or DESC: ORDER_BY.
    Sorting,
    /// As said, where an ERROR for `default` is not a fault yet: FILTER.
    Filtering,
    /// As said, a grouped one as it is: UNGROUP.
    Whole,
    /// Up to the first that is true: OR.
    UntilTrue,
    /// Up to the first that is false: AND.
    UntilFalse,
    /// Tests up to the first that is true, then its arm, else the last: BRANCH.
    Branching,
    /// The first, and the second only where the first is null or is not there: DEFAULT.
    Defaulting,
    /// A key by which what is least comes first: ASC.
    Rising,
    /// A key by which what is greatest comes first: DESC.
    Falling,
    /// A text that is raised; without one, the fault that the DEFAULT around caught: ERROR.
    Raising,
}

/// What a term names by literal texts. Where a database may be left out it is that of the query.
#[derive(Clone, Copy, Drop)]
pub enum Naming {
    /// Nothing.
    Nothing,
    /// A database that is there, by its argument: DB.
    Database,
    /// A table that is there, by its last argument, with a database before it or none: TABLE.
    Table,
    /// All databases: DB_LIST.
    Databases,
    /// The tables of a database that is there, by its argument or none: TABLE_LIST.
    Tables,
    /// The database that a command makes or drops, by its argument: DB_CREATE, DB_DROP.
    CommandDatabase,
    /// The table that a command makes or drops, by its last argument, with a database before it or
    /// none: TABLE_CREATE, TABLE_DROP.
    CommandTable,
    /// An index of a table, by the second argument: INDEX_CREATE, INDEX_DROP.
    Index,
    /// Two indexes of a table, by the second and the third argument: INDEX_RENAME.
    TwoIndexes,
}

/// What a term at the root of a request asks for.
#[derive(Clone, Copy, Drop)]
pub enum Task {
    /// A value.
    Value,
    /// One of its arms, which may ask for anything: BRANCH.
    Branch,
    /// The writes of its body, for each element: FOR_EACH.
    ForEach,
    /// A write of a table: INSERT, UPDATE, REPLACE, DELETE.
    Write,
    /// A command to the catalogue: DB_CREATE, DB_DROP, TABLE_CREATE, TABLE_DROP.
    Catalogue,
    /// A command to a table's indexes: INDEX_CREATE, INDEX_DROP, INDEX_RENAME.
    Index,
    /// That what a table was told is kept: SYNC.
    Sync,
    /// A changefeed: CHANGES.
    Feed,
}

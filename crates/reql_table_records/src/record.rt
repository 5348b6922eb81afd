// A record of a table.
use reql_datum::Name;
use reql_table_spec::Kept;

/// What a command did to a table, as its journal keeps it.
#[derive(Drop)]
pub enum TableRecord {
    /// The single-document changes of a write, in order.
    Write(Vec<Kept>),
    /// An index more. Its function is the text of the query `[1,function]`.
    IndexCreate { name: Name, multi: bool, text: Name },
    IndexDrop(Name),
    /// An index has another name. One that has the new name gives way.
    IndexRename { old: Name, new: Name },
    /// The table was dropped. No record follows.
    Shut,
}

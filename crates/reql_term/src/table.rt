// The table of the operators: what each takes, and what tells it apart.
ghost use Rattle.std.specs.Prelude.{◌≡◌, ◌<◌, length, map, get_or, slice_get, Some, None};
ghost use Rattle.reql_term.specs.Table.{line_of, is_among, has_option, op_of, number_of, least_of, most_of, at_most, has_parity, fits, takes, way_of, naming_of, task_of};
ghost use Rattle.reql_term.specs.Rows.{names_of, line_in};

use crate::by_number::BY_NUMBER;
use crate::op::Op;
use crate::role::{Naming, Task, Way};

/// What a count of arguments has to be beside its bounds.
#[derive(Clone, Copy)]
pub(crate) enum Parity {
    Any,
    Odd,
    Even,
}

/// Which optional arguments there are: any, none, or those of the list of that name.
#[derive(Clone, Copy)]
pub(crate) enum Options {
    Any,
    None,
    Bounds,
    Index,
    Default,
    Interleave,
    Read,
    IndexBounds,
    Insert,
    Write,
    Create,
    Multi,
    Overwrite,
    Changes,
}

pub(crate) const BOUNDS: [&str; 2] = ["left_bound", "right_bound"];

pub(crate) const INDEX: [&str; 1] = ["index"];

pub(crate) const DEFAULT: [&str; 1] = ["default"];

pub(crate) const INTERLEAVE: [&str; 1] = ["interleave"];

pub(crate) const READ: [&str; 3] = ["read_mode", "use_outdated", "identifier_format"];

pub(crate) const INDEX_BOUNDS: [&str; 3] = ["index", "left_bound", "right_bound"];

pub(crate) const INSERT: [&str; 3] = ["conflict", "return_changes", "durability"];

pub(crate) const WRITE: [&str; 2] = ["return_changes", "durability"];

pub(crate) const CREATE: [&str; 2] = ["primary_key", "durability"];

pub(crate) const MULTI: [&str; 1] = ["multi"];

pub(crate) const OVERWRITE: [&str; 1] = ["overwrite"];

pub(crate) const CHANGES: [&str; 6] = [
    "squash",
    "changefeed_queue_size",
    "include_initial",
    "include_states",
    "include_offsets",
    "include_types",
];

/// An operator with its number on the wire, how many arguments it takes, which optional ones, how it
/// takes them, what it names and what it asks for.
#[derive(Clone, Copy)]
pub(crate) struct Row {
    pub op: Op,
    pub number: u32,
    pub least: u32,
    pub most: Option<u32>,
    pub parity: Parity,
    pub options: Options,
    pub way: Way,
    pub naming: Naming,
    pub task: Task,
}

macro_rules! row {
    ($op:ident => $number:literal, $least:literal, $most:expr, $parity:ident, $options:ident, $way:ident, $naming:ident, $task:ident) => {
        Row {
            op: Op::$op,
            number: $number,
            least: $least,
            most: $most,
            parity: Parity::$parity,
            options: Options::$options,
            way: Way::$way,
            naming: Naming::$naming,
            task: Task::$task,
        }
    };
}

/// A row an operator, in the order of `Op`: its number, the least and the most arguments, whether
/// their count has to be odd or even, which options, its way, what it names, and its task.
pub(crate) const TABLE: [Row; 107] = [
    row!(MakeArray => 2, 0, None, Any, None, Strict, Nothing, Value),
    row!(MakeObj => 3, 0, Some(0), Any, Any, Strict, Nothing, Value),
    row!(Var => 10, 1, Some(1), Any, None, Strict, Nothing, Value),
    row!(Error => 12, 0, Some(1), Any, None, Raising, Nothing, Value),
    row!(ImplicitVar => 13, 0, Some(0), Any, None, Strict, Nothing, Value),
    row!(Eq => 17, 1, None, Any, None, Strict, Nothing, Value),
    row!(Ne => 18, 1, None, Any, None, Strict, Nothing, Value),
    row!(Lt => 19, 1, None, Any, None, Strict, Nothing, Value),
    row!(Le => 20, 1, None, Any, None, Strict, Nothing, Value),
    row!(Gt => 21, 1, None, Any, None, Strict, Nothing, Value),
    row!(Ge => 22, 1, None, Any, None, Strict, Nothing, Value),
    row!(Not => 23, 1, Some(1), Any, None, Strict, Nothing, Value),
    row!(Add => 24, 1, None, Any, None, Strict, Nothing, Value),
    row!(Sub => 25, 1, None, Any, None, Strict, Nothing, Value),
    row!(Mul => 26, 1, None, Any, None, Strict, Nothing, Value),
    row!(Div => 27, 1, None, Any, None, Strict, Nothing, Value),
    row!(Mod => 28, 2, Some(2), Any, None, Strict, Nothing, Value),
    row!(CoerceTo => 51, 2, Some(2), Any, None, Strict, Nothing, Value),
    row!(TypeOf => 52, 1, Some(1), Any, None, Strict, Nothing, Value),
    row!(Funcall => 64, 1, None, Any, None, Strict, Nothing, Value),
    row!(Branch => 65, 3, None, Odd, None, Branching, Nothing, Branch),
    row!(Or => 66, 0, None, Any, None, UntilTrue, Nothing, Value),
    row!(And => 67, 0, None, Any, None, UntilFalse, Nothing, Value),
    row!(Func => 69, 2, Some(2), Any, None, Strict, Nothing, Value),
    row!(Default => 92, 2, Some(2), Any, None, Defaulting, Nothing, Value),
    row!(Literal => 137, 0, Some(1), Any, None, Strict, Nothing, Value),
    row!(Minval => 180, 0, Some(0), Any, None, Strict, Nothing, Value),
    row!(Maxval => 181, 0, Some(0), Any, None, Strict, Nothing, Value),
    row!(Append => 29, 2, Some(2), Any, None, Strict, Nothing, Value),
    row!(Prepend => 80, 2, Some(2), Any, None, Strict, Nothing, Value),
    row!(Slice => 30, 2, Some(3), Any, Bounds, Strict, Nothing, Value),
    row!(GetField => 31, 2, Some(2), Any, None, Strict, Nothing, Value),
    row!(Bracket => 170, 2, Some(2), Any, None, Strict, Nothing, Value),
    row!(HasFields => 32, 2, None, Any, None, Strict, Nothing, Value),
    row!(Pluck => 33, 2, None, Any, None, Strict, Nothing, Value),
    row!(Without => 34, 2, None, Any, None, Strict, Nothing, Value),
    row!(WithFields => 96, 2, None, Any, None, Strict, Nothing, Value),
    row!(Merge => 35, 2, None, Any, None, Strict, Nothing, Value),
    row!(InsertAt => 82, 3, Some(3), Any, None, Strict, Nothing, Value),
    row!(DeleteAt => 83, 2, Some(3), Any, None, Strict, Nothing, Value),
    row!(ChangeAt => 84, 3, Some(3), Any, None, Strict, Nothing, Value),
    row!(SpliceAt => 85, 3, Some(3), Any, None, Strict, Nothing, Value),
    row!(SetInsert => 88, 2, Some(2), Any, None, Strict, Nothing, Value),
    row!(SetUnion => 90, 2, Some(2), Any, None, Strict, Nothing, Value),
    row!(SetIntersection => 89, 2, Some(2), Any, None, Strict, Nothing, Value),
    row!(SetDifference => 91, 2, Some(2), Any, None, Strict, Nothing, Value),
    row!(Difference => 95, 2, Some(2), Any, None, Strict, Nothing, Value),
    row!(Keys => 94, 1, Some(1), Any, None, Strict, Nothing, Value),
    row!(Values => 186, 1, Some(1), Any, None, Strict, Nothing, Value),
    row!(Object => 143, 0, None, Even, None, Strict, Nothing, Value),
    row!(Reduce => 37, 2, Some(2), Any, None, Strict, Nothing, Value),
    row!(Map => 38, 2, Some(2), Any, None, Strict, Nothing, Value),
    row!(Filter => 39, 2, Some(2), Any, Default, Filtering, Nothing, Value),
    row!(ConcatMap => 40, 2, Some(2), Any, None, Strict, Nothing, Value),
    row!(OrderBy => 41, 1, None, Any, Index, Sorting, Nothing, Value),
    row!(Asc => 73, 1, Some(1), Any, None, Rising, Nothing, Value),
    row!(Desc => 74, 1, Some(1), Any, None, Falling, Nothing, Value),
    row!(Distinct => 42, 1, Some(1), Any, Index, Strict, Nothing, Value),
    row!(Count => 43, 1, Some(2), Any, None, Strict, Nothing, Value),
    row!(Union => 44, 1, None, Any, Interleave, Strict, Nothing, Value),
    row!(Nth => 45, 2, Some(2), Any, None, Strict, Nothing, Value),
    row!(Skip => 70, 2, Some(2), Any, None, Strict, Nothing, Value),
    row!(Limit => 71, 2, Some(2), Any, None, Strict, Nothing, Value),
    row!(IsEmpty => 86, 1, Some(1), Any, None, Strict, Nothing, Value),
    row!(OffsetsOf => 87, 2, Some(2), Any, None, Strict, Nothing, Value),
    row!(Contains => 93, 2, None, Any, None, Strict, Nothing, Value),
    row!(Range => 173, 1, Some(2), Any, None, Strict, Nothing, Value),
    row!(InnerJoin => 48, 3, Some(3), Any, None, Strict, Nothing, Value),
    row!(OuterJoin => 49, 3, Some(3), Any, None, Strict, Nothing, Value),
    row!(EqJoin => 50, 3, Some(3), Any, Index, Strict, Nothing, Value),
    row!(Zip => 72, 1, Some(1), Any, None, Strict, Nothing, Value),
    row!(Group => 144, 1, None, Any, Index, Strict, Nothing, Value),
    row!(Ungroup => 150, 1, Some(1), Any, None, Whole, Nothing, Value),
    row!(Sum => 145, 1, Some(2), Any, None, Strict, Nothing, Value),
    row!(Avg => 146, 1, Some(2), Any, None, Strict, Nothing, Value),
    row!(Min => 147, 1, Some(2), Any, None, Strict, Nothing, Value),
    row!(Max => 148, 1, Some(2), Any, None, Strict, Nothing, Value),
    row!(Db => 14, 1, Some(1), Any, None, Strict, Database, Value),
    row!(Table => 15, 1, Some(2), Any, Read, Strict, Table, Value),
    row!(Get => 16, 2, Some(2), Any, None, Strict, Nothing, Value),
    row!(GetAll => 78, 1, None, Any, Index, Strict, Nothing, Value),
    row!(Between => 182, 3, Some(3), Any, IndexBounds, Strict, Nothing, Value),
    row!(Insert => 56, 2, Some(2), Any, Insert, Strict, Nothing, Write),
    row!(Update => 53, 2, Some(2), Any, Write, Strict, Nothing, Write),
    row!(Replace => 55, 2, Some(2), Any, Write, Strict, Nothing, Write),
    row!(Delete => 54, 1, Some(1), Any, Write, Strict, Nothing, Write),
    row!(ForEach => 68, 2, Some(2), Any, None, Strict, Nothing, ForEach),
    row!(DbCreate => 57, 1, Some(1), Any, None, Strict, CommandDatabase, Catalogue),
    row!(DbDrop => 58, 1, Some(1), Any, None, Strict, CommandDatabase, Catalogue),
    row!(DbList => 59, 0, Some(0), Any, None, Strict, Databases, Value),
    row!(TableCreate => 60, 1, Some(2), Any, Create, Strict, CommandTable, Catalogue),
    row!(TableDrop => 61, 1, Some(2), Any, None, Strict, CommandTable, Catalogue),
    row!(TableList => 62, 0, Some(1), Any, None, Strict, Tables, Value),
    row!(IndexCreate => 75, 2, Some(3), Any, Multi, Strict, Index, Index),
    row!(IndexDrop => 76, 2, Some(2), Any, None, Strict, Index, Index),
    row!(IndexRename => 156, 3, Some(3), Any, Overwrite, Strict, TwoIndexes, Index),
    row!(IndexList => 77, 1, Some(1), Any, None, Strict, Nothing, Value),
    row!(IndexStatus => 139, 1, None, Any, None, Strict, Nothing, Value),
    row!(IndexWait => 140, 1, None, Any, None, Strict, Nothing, Value),
    row!(Info => 79, 1, Some(1), Any, None, Strict, Nothing, Value),
    row!(Config => 174, 1, Some(1), Any, None, Strict, Nothing, Value),
    row!(Status => 175, 1, Some(1), Any, None, Strict, Nothing, Value),
    row!(Sync => 138, 1, Some(1), Any, None, Strict, Nothing, Sync),
    row!(Changes => 152, 1, Some(1), Any, Changes, Strict, Nothing, Feed),
    row!(EpochTime => 101, 1, Some(1), Any, None, Strict, Nothing, Value),
    row!(ToEpochTime => 102, 1, Some(1), Any, None, Strict, Nothing, Value),
    row!(Now => 103, 0, Some(0), Any, None, Strict, Nothing, Value),
];

fn row_at(rows: &[Row], place: usize) -> Row
    requires there { place < length rows.now }
    ensures { Some result ≡ slice_get rows.now place }
{
    rows[place]
}

fn row_of(op: Op) -> Row
    ensures line { line_in result ≡ line_of op }
    ensures way { result.way ≡ way_of op }
    ensures naming { result.naming ≡ naming_of op }
    ensures task { result.task ≡ task_of op }
{
    row_at(&TABLE, op as usize)
}

fn entry_at(ops: &[Option<Op>], place: usize) -> Option<Op>
    ensures { result ≡ get_or ops.now place None }
{
    match ops.get(place) {
        Some(op) => *op,
        None => None,
    }
}

fn is_among(names: &[&str], name: &str) -> bool
    ensures { result ≡ is_among (map (λ s. s.now) names.now) name.now }
{
    for known in names {
        if known.cmp(&name).is_eq() {
            return true;
        }
    }
    false
}

fn has_option(options: Options, name: &str) -> bool
    ensures { result ≡ has_option (names_of options) name.now }
{
    match options {
        Options::Any => true,
        Options::None => false,
        Options::Bounds => is_among(&BOUNDS, name),
        Options::Index => is_among(&INDEX, name),
        Options::Default => is_among(&DEFAULT, name),
        Options::Interleave => is_among(&INTERLEAVE, name),
        Options::Read => is_among(&READ, name),
        Options::IndexBounds => is_among(&INDEX_BOUNDS, name),
        Options::Insert => is_among(&INSERT, name),
        Options::Write => is_among(&WRITE, name),
        Options::Create => is_among(&CREATE, name),
        Options::Multi => is_among(&MULTI, name),
        Options::Overwrite => is_among(&OVERWRITE, name),
        Options::Changes => is_among(&CHANGES, name),
    }
}

impl Op {
    /// The operator of a number on the wire. None for a number that no operator has.
    #[tactic(auto, using(crate::proofs::Numbers::indexed))]
    pub fn of(number: u32) -> Option<Op>
        ensures { result ≡ op_of number }
    {
        entry_at(&BY_NUMBER, number as usize)
    }

    /// Its number on the wire.
    pub fn number(self) -> u32
        ensures { result ≡ number_of self }
    {
        row_of(self).number
    }

    /// How many arguments it takes at least.
    pub fn least(self) -> u32
        ensures { result ≡ least_of self }
    {
        row_of(self).least
    }

    /// How many arguments it takes at most. None where it takes any number.
    pub fn most(self) -> Option<u32>
        ensures { result ≡ most_of self }
    {
        row_of(self).most
    }

    /// Whether it takes so many arguments: no fewer and no more than it takes, and an odd or an even
    /// number where that is asked.
    pub fn fits(self, count: usize) -> bool
        ensures { result ≡ fits self count }
    {
        let Row {
            least,
            most,
            parity,
            ..
        } = row_of(self);
        least as usize <= count && is_at_most(count, most) && has_parity(count, parity)
    }

    /// Whether it has an optional argument of that name.
    pub fn takes(self, name: &str) -> bool
        ensures { result ≡ takes self name.now }
    {
        has_option(row_of(self).options, name)
    }

    /// How it takes its arguments.
    pub fn way(self) -> Way
        ensures { result ≡ way_of self }
    {
        row_of(self).way
    }

    /// What it names by literal texts.
    pub fn naming(self) -> Naming
        ensures { result ≡ naming_of self }
    {
        row_of(self).naming
    }

    /// What it asks for at the root of a request.
    pub fn task(self) -> Task
        ensures { result ≡ task_of self }
    {
        row_of(self).task
    }
}

fn is_at_most(count: usize, most: Option<u32>) -> bool
    ensures { result ≡ at_most count most }
{
    match most {
        None => true,
        Some(most) => count <= most as usize,
    }
}

fn has_parity(count: usize, parity: Parity) -> bool
    ensures { result ≡ has_parity count parity }
{
    match parity {
        Parity::Any => true,
        Parity::Odd => count % 2 == 1,
        Parity::Even => count % 2 == 0,
    }
}

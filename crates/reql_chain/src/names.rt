// The names of operators in chained text.
ghost use Rattle.std.specs.Prelude.{◌≡◌, map};
ghost use Rattle.reql_chain.specs.Names.{op_in, op_named, row_of};

use reql_term::Op;

/// An operator with its name in chained text.
#[derive(Clone, Copy)]
pub(crate) struct Named {
    pub name: &'static str,
    pub op: Op,
}

macro_rules! named {
    ($name:literal, $op:ident) => {
        Named {
            name: $name,
            op: Op::$op,
        }
    };
}

// Each operator that is called by a name.
const NAMES: [Named; 100] = [
    named!("error", Error),
    named!("eq", Eq),
    named!("ne", Ne),
    named!("lt", Lt),
    named!("le", Le),
    named!("gt", Gt),
    named!("ge", Ge),
    named!("not", Not),
    named!("add", Add),
    named!("sub", Sub),
    named!("mul", Mul),
    named!("div", Div),
    named!("mod", Mod),
    named!("coerceTo", CoerceTo),
    named!("typeOf", TypeOf),
    named!("do", Funcall),
    named!("branch", Branch),
    named!("or", Or),
    named!("and", And),
    named!("default", Default),
    named!("literal", Literal),
    named!("append", Append),
    named!("prepend", Prepend),
    named!("slice", Slice),
    named!("getField", GetField),
    named!("bracket", Bracket),
    named!("hasFields", HasFields),
    named!("pluck", Pluck),
    named!("without", Without),
    named!("withFields", WithFields),
    named!("merge", Merge),
    named!("insertAt", InsertAt),
    named!("deleteAt", DeleteAt),
    named!("changeAt", ChangeAt),
    named!("spliceAt", SpliceAt),
    named!("setInsert", SetInsert),
    named!("setUnion", SetUnion),
    named!("setIntersection", SetIntersection),
    named!("setDifference", SetDifference),
    named!("difference", Difference),
    named!("keys", Keys),
    named!("values", Values),
    named!("object", Object),
    named!("reduce", Reduce),
    named!("map", Map),
    named!("filter", Filter),
    named!("concatMap", ConcatMap),
    named!("orderBy", OrderBy),
    named!("asc", Asc),
    named!("desc", Desc),
    named!("distinct", Distinct),
    named!("count", Count),
    named!("union", Union),
    named!("nth", Nth),
    named!("skip", Skip),
    named!("limit", Limit),
    named!("isEmpty", IsEmpty),
    named!("offsetsOf", OffsetsOf),
    named!("contains", Contains),
    named!("range", Range),
    named!("innerJoin", InnerJoin),
    named!("outerJoin", OuterJoin),
    named!("eqJoin", EqJoin),
    named!("zip", Zip),
    named!("group", Group),
    named!("ungroup", Ungroup),
    named!("sum", Sum),
    named!("avg", Avg),
    named!("min", Min),
    named!("max", Max),
    named!("db", Db),
    named!("table", Table),
    named!("get", Get),
    named!("getAll", GetAll),
    named!("between", Between),
    named!("insert", Insert),
    named!("update", Update),
    named!("replace", Replace),
    named!("delete", Delete),
    named!("forEach", ForEach),
    named!("dbCreate", DbCreate),
    named!("dbDrop", DbDrop),
    named!("dbList", DbList),
    named!("tableCreate", TableCreate),
    named!("tableDrop", TableDrop),
    named!("tableList", TableList),
    named!("indexCreate", IndexCreate),
    named!("indexDrop", IndexDrop),
    named!("indexRename", IndexRename),
    named!("indexList", IndexList),
    named!("indexStatus", IndexStatus),
    named!("indexWait", IndexWait),
    named!("info", Info),
    named!("config", Config),
    named!("status", Status),
    named!("sync", Sync),
    named!("changes", Changes),
    named!("epochTime", EpochTime),
    named!("toEpochTime", ToEpochTime),
    named!("now", Now),
];

// The operator of the first row with a name.
fn op_in(rows: &[Named], name: &[u8]) -> Option<Op>
    ensures { result ≡ op_in (map row_of rows.now) name.now }
{
    for row in rows {
        if row.name.as_bytes() == name {
            return Some(row.op);
        }
    }
    None
}

/// The operator that is called by a name.
#[tactic(auto, unfolding(crate::specs::Names::op_named))]
pub(crate) fn op_named(name: &[u8]) -> Option<Op>
    ensures { result ≡ op_named name.now }
{
    op_in(&NAMES, name)
}

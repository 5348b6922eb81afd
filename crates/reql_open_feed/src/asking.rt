// Whether a request can be kept.
ghost use Rattle.std.specs.Prelude.{◌≡◌, ◌&&◌, not, is_some, Some};
ghost use Rattle.reql_table_spec.specs.Table.{held, is_limit as is_limit_of};
ghost use Rattle.reql_rules.specs.Types.{same_text};
ghost use Rattle.reql_table.specs.Seen.{indexes_of};

use reql_datum::Name;
use reql_table::{IndexDef, Table, TableView};
use reql_table_spec::{FeedKind, FeedSpec};

/// Whether a kind is that of a limit feed.
pub(crate) fn is_limit(kind: FeedKind) -> bool
    ensures { result ≡ is_limit_of kind }
{
    match kind {
        FeedKind::Limit(_) => true,
        FeedKind::Point | FeedKind::Range => false,
    }
}

fn is_same(name: &Name, key: &Name) -> bool
    ensures { result ≡ same_text name.now key.now }
{
    name.as_str().cmp(&key.as_str()).is_eq()
}

// A limit feed has no multi index.
fn serves(spec: &FeedSpec, def: &IndexDef) -> bool
    ensures { result ≡ not (is_limit_of spec.now.kind && def.now.multi) }
{
    !(is_limit(spec.kind) && def.multi)
}

#[tactic(auto, using(crate::proofs::Requests::named_key, crate::proofs::Requests::named_index, crate::proofs::Requests::named_none))]
fn is_named(spec: &FeedSpec, name: &Name, table: &Table) -> bool
    requires { spec.now.index ≡ Some name.now }
    ensures { result ≡ is_some (held (indexes_of table.now) spec.now) }
{
    if is_same(name, &spec.key) {
        return true;
    }
    match table.index(name) {
        None => false,
        Some(def) => serves(spec, def),
    }
}

/// Whether the index that a request names, if it names one, is there and of a kind that the feed may
/// have, or is the key field.
pub(crate) fn is_there(spec: &FeedSpec, table: &Table) -> bool
    ensures { result ≡ is_some (held (indexes_of table.now) spec.now) }
{
    match &spec.index {
        None => true,
        Some(name) => is_named(spec, name, table),
    }
}

// Copies of requests and of what they are kept with.
ghost use Rattle.std.specs.Prelude.{◌≡◌, IfOk};

use reql_datum::{Memory, Name};
use reql_table::IndexDef;
use reql_table_spec::FeedSpec;

fn name_copy(name: &Option<Name>) -> Result<Option<Name>, Memory>
    ensures { IfOk result (λ n. n ≡ name.now) }
{
    match name {
        None => Ok(None),
        Some(name) => Ok(Some(name.copy()?)),
    }
}

/// An equal request that shares what it holds.
pub fn request_copy(spec: &FeedSpec) -> Result<FeedSpec, Memory>
    ensures { IfOk result (λ s. s ≡ spec.now) }
{
    Ok(FeedSpec {
        key: spec.key.copy()?,
        shape: spec.shape.copy()?,
        index: name_copy(&spec.index)?,
        kind: spec.kind,
        size: spec.size,
        offsets: spec.offsets,
        types: spec.types,
        squash: spec.squash,
    })
}

/// An equal index, if there is one, that shares what it holds.
pub fn index_copy(index: &Option<IndexDef>) -> Result<Option<IndexDef>, Memory>
    ensures { IfOk result (λ i. i ≡ index.now) }
{
    match index {
        None => Ok(None),
        Some(def) => {
            let copy = def.copy()?;
            Ok(Some(copy))
        }
    }
}

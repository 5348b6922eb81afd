// The JSON of a body.
ghost use Rattle.std.specs.Prelude.{◌≡◌, option_map, IfOk};
ghost use Rattle.serde_json.specs.View.{view};
ghost use Rattle.reql_client.specs.Reading.{json_of};

use reql_memory::Memory;
use serde_json::Value;
use std::alloc::Global;

/// The JSON of a body, where it is JSON.
pub(crate) fn value_of(alloc: Global, body: &[u8]) -> Result<Option<Value>, Memory>
    ensures { IfOk result (λ v. option_map view v ≡ json_of body.now) }
{
    match Value::from_slice(alloc, body) {
        Ok(value) => Ok(Some(value)),
        Err(e) if e.is_memory() => Err(Memory),
        Err(_) => Ok(None),
    }
}

// Parameters of a function, read from their tokens.
ghost use Rattle.std.specs.Prelude.{◌≡◌, ℕ, [], IfSome};
ghost use Rattle.reql_read.specs.Quick.{ReadsIds, ReadsParams};
ghost use Rattle.reql_read.specs.Shape.{is_new};

use crate::quick_numbers::number;
use crate::quick_tokens::{close_array, open_array};
use crate::shape::{Kind, kind_of};
use json::Reader;
use reql_term::Params;
use std::alloc::Global;

// So many ids are compared one by one.
const MOST_IDS: usize = 16;

fn is_new(ids: &Params, id: u64) -> bool
    ensures { result ≡ is_new id ids.now }
{
    !ids.as_slice().contains(&id)
}

fn read_ids(alloc: Global, reader: &mut Reader<'_>) -> Option<Params>
    ensures { IfSome result (λ ids. (depth : ℕ) → ReadsIds depth reader.old [] ids reader.new) }
{
    let mut ids = Params::with_room(alloc, 1).ok()?;
    'ids: while !reader.take_end_array() {
        let id = number(reader)?;
        if ids.len() == MOST_IDS || !is_new(&ids, id) {
            return None;
        }
        ids.push(id).ok()?;
    }
    Some(ids)
}

/// The parameters of a function.
pub(crate) fn read_params(alloc: Global, reader: &mut Reader<'_>, depth: usize) -> Option<Params>
    ensures { IfSome result (λ ids. ReadsParams depth reader.old ids reader.new) }
{
    if depth < 2 {
        return None;
    }
    open_array(reader)?;
    let number = number(reader)?;
    let Kind::Array = kind_of(number) else {
        return None;
    };
    open_array(reader)?;
    let ids = read_ids(alloc, reader)?;
    close_array(reader)?;
    Some(ids)
}

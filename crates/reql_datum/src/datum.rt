// A document, and the lists and objects in it.
ghost use Rattle.std.specs.Prelude.{◌≡◌, IfOk};

use crate::blob::Blob;
use crate::moment::Moment;
use crate::name::Name;
use crate::shape::Shape;
use crate::whole::Whole;
use reql_memory::Memory;
use std::alloc::{AllocError, Global};
use std::marker::Model;
use std::sync::Arc;

/// A document: a value of any kind, in the order in which the kinds rise.
///
/// Contracts see it by `plain`, as what it stands for. Its lists, objects, texts and bytes are
/// shared: a copy is a count, and a shared list or object is copied by one level when it is written
/// to. Documents may be sent and shared between threads.
#[cycle(datum)]
#[derive(Drop)]
pub enum Datum {
    /// Below all others: MINVAL.
    Low,
    List(Items),
    Bool(bool),
    Null,
    Num(Whole),
    Obj(Fields),
    Binary(Blob),
    Time(Moment),
    Text(Name),
    /// Above all others: MAXVAL.
    High,
}

/// The items of a list, from place 0. Contracts see the list of what they stand for.
#[cycle(datum)]
#[derive(Drop)]
pub struct Items {
    pub(crate) alloc: Global,
    pub(crate) held: Option<Arc<Vec<Datum>>>,
    pub(crate) shape: Shape,
}

/// The members of an object, a map from names to documents that rises by the bytes of the names.
///
/// Contracts see the list of its members, each a name with what its value stands for. A look-up
/// takes a logarithm of steps, and the member at a place a constant number. An object that is built
/// by rising names takes linear time.
#[cycle(datum)]
#[derive(Drop)]
pub struct Fields {
    pub(crate) alloc: Global,
    pub(crate) held: Option<Arc<Vec<Field>>>,
    pub(crate) shape: Shape,
}

#[cycle(datum)]
#[derive(Drop)]
pub(crate) struct Field {
    pub(crate) name: Name,
    pub(crate) value: Datum,
}

impl Model for Items {
    ghost use Rattle.std.specs.Prelude.{List, map};
    ghost use Rattle.reql_datum.specs.Plain.{Plain, list_weight};
    ghost use Rattle.reql_datum.specs.Code.{list_code};

    ghost Value = { List Plain };

    ghost coded = { list_code };

    ghost use Rattle.reql_datum.specs.View.{plain};
    ghost use Rattle.reql_memory.specs.CopyOnWrite.{held_items};

    ghost view = { λ a. map plain (held_items a.held) };

    ghost use Rattle.std.specs.Prelude.{◌≡◌};
    ghost use Rattle.reql_datum.specs.Shapes.{items_shape};

    ghost invariant = { λ a. a.shape ≡ items_shape (map plain (held_items a.held)) };

    ghost size = { list_weight };

    ghost use Rattle.reql_datum.specs.Falls.{held_fall};

    ghost size_decreases = { λ a h. held_fall a.alloc a.held a.shape };
}

impl Model for Fields {
    ghost use Rattle.std.specs.Prelude.{List, ℕ, map};
    ghost use Rattle.reql_datum.specs.Plain.{Plain, members_weight};
    ghost use Rattle.reql_datum.specs.Code.{pairs_code};

    ghost Value = { List (List ℕ × Plain) };

    ghost coded = { pairs_code };

    ghost use Rattle.reql_datum.specs.View.{member};
    ghost use Rattle.reql_memory.specs.CopyOnWrite.{held_items};

    ghost view = { λ a. map member (held_items a.held) };

    ghost use Rattle.reql_datum.specs.Shapes.{FieldsHold};

    ghost invariant = { λ a. FieldsHold a.shape (map member (held_items a.held)) };

    ghost size = { members_weight };

    ghost use Rattle.reql_datum.specs.Falls.{held_members_fall};

    ghost size_decreases = { λ a h. held_members_fall a.alloc a.held a.shape };
}

impl Clone for Datum {
    ghost is_clone = { λ d e. e ≡ d };

    fn clone(&self) -> Result<Datum, AllocError> {
        match self.copy() {
            Ok(d) => Ok(d),
            Err(_) => Err(AllocError),
        }
    }
}

impl Clone for Field {
    ghost is_clone = { λ d e. e ≡ d };

    fn clone(&self) -> Result<Field, AllocError> {
        let (Ok(name), Ok(value)) = (self.name.copy(), self.value.copy()) else {
            return Err(AllocError);
        };
        Ok(Field { name, value })
    }
}

impl Datum {
    /// An equal document that shares all it holds, in a constant number of steps. Memory where a
    /// count of sharers is full.
    pub fn copy(&self) -> Result<Datum, Memory>
        ensures { IfOk result (λ d. d ≡ self.now) }
    {
        match self {
            Datum::Low => Ok(Datum::Low),
            Datum::List(items) => Ok(Datum::List(items.copy()?)),
            Datum::Bool(b) => Ok(Datum::Bool(*b)),
            Datum::Null => Ok(Datum::Null),
            Datum::Num(n) => Ok(Datum::Num(*n)),
            Datum::Obj(fields) => Ok(Datum::Obj(fields.copy()?)),
            Datum::Binary(blob) => Ok(Datum::Binary(blob.copy()?)),
            Datum::Time(moment) => Ok(Datum::Time(*moment)),
            Datum::Text(name) => Ok(Datum::Text(name.copy()?)),
            Datum::High => Ok(Datum::High),
        }
    }
}

fn crosses<T: Send + Sync>(_held: &T) {}

// Proved only while documents may be sent to other threads, and shared with them.
fn documents_cross(d: &Datum, items: &Items, fields: &Fields) {
    crosses(d);
    crosses(items);
    crosses(fields);
}

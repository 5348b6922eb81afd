// How deep documents are and whether they may be stored, which each list and object keeps.
ghost use Rattle.std.specs.Prelude.{◌≡◌, ◌^◌, ◌-◌, min, map};
ghost use Rattle.reql_datum.specs.Plain.{depth, items_of};
ghost use Rattle.reql_datum.specs.Keys.{is_key, are_keys};
ghost use Rattle.reql_datum.specs.Shapes.{shape_of, member_shape, members_shape, beside, around, IsLeft};
ghost use Rattle.reql_datum.specs.View.{plain, member};

use crate::datum::{Datum, Field, Items};
use crate::name::{Name, text_order};

/// How deep the members of a list or an object are, told as 2^32 - 1 where it is more, and whether
/// all may be stored.
#[derive(Clone, Copy)]
pub(crate) struct Shape {
    pub(crate) depth: u32,
    pub(crate) storable: bool,
}

impl Shape {
    /// The shape of no members.
    pub(crate) const FLAT: Shape = Shape {
        depth: 0,
        storable: true,
    };

    /// The shape of the members of both.
    pub(crate) fn beside(self, other: Shape) -> Shape
        ensures { result ≡ beside self other }
    {
        Shape {
            depth: self.depth.max(other.depth),
            storable: self.storable && other.storable,
        }
    }

    // The shape of the list or object with members of this shape.
    fn around(self) -> Shape
        ensures { result ≡ around self }
    {
        Shape {
            depth: self.depth.saturating_add(1),
            storable: self.storable,
        }
    }
}

/// The shape of a member of an object.
pub(crate) fn member_shape(name: &Name, value: &Datum) -> Shape
    ensures { result ≡ member_shape name.now (plain value.now) }
{
    let shape = value.shape();
    Shape {
        depth: shape.depth,
        storable: !text_order("$reql_type$", name.as_str()).is_eq() && shape.storable,
    }
}

fn shape_of_all(fields: &[Field]) -> Shape
    ensures { result ≡ members_shape (map member fields.now) }
{
    let mut shape = Shape::FLAT;
    for field in fields {
        shape = shape.beside(member_shape(&field.name, &field.value));
    }
    shape
}

/// The shape of an object whose shape was given, after a member of the old depth was replaced by one
/// of the new shape, or went, which is no shape. It looks at the members that are there now only
/// where the old one may have made the difference.
pub(crate) fn shape_after(shape: Shape, old: Shape, new: Shape, fields: &[Field]) -> Shape
    ensures { (rest : Shape) → IsLeft shape old.depth rest
        → members_shape (map member fields.now) ≡ beside new rest → result ≡ beside new rest }
{
    if shape.storable && (old.depth <= new.depth || old.depth < shape.depth) {
        shape.beside(new)
    } else {
        shape_of_all(fields)
    }
}

impl Datum {
    /// How deep it is, and whether it may be stored.
    pub(crate) fn shape(&self) -> Shape
        ensures { result ≡ shape_of (plain self.now) }
    {
        match self {
            Datum::List(items) => items.shape().around(),
            Datum::Obj(fields) => fields.shape().around(),
            Datum::Low | Datum::High => Shape {
                depth: 0,
                storable: false,
            },
            _ => Shape::FLAT,
        }
    }

    /// How deep lists and objects nest in it, in a constant number of steps: 0 for all other kinds.
    /// A depth above 2^32 - 1 is given as that.
    pub fn depth(&self) -> u32
        ensures { result ≡ min (depth (plain self.now)) (2 ^ 32 - 1) }
    {
        self.shape().depth
    }

    /// Whether it may be a key: a boolean, a number, bytes, a time, a text, or a list of keys.
    #[cycle(is_key)]
    #[tactic(auto, using(crate::proofs::Walks::walks))]
    pub fn is_key(&self) -> bool
        ensures { result ≡ is_key (plain self.now) }
    {
        match self {
            Datum::List(items) => are_keys(items),
            Datum::Bool(_) | Datum::Num(_) | Datum::Binary(_) | Datum::Time(_) | Datum::Text(_) =>
                true,
            _ => false,
        }
    }
}

#[cycle(is_key)]
#[tactic(auto, using(crate::proofs::Walks::walks))]
fn are_keys(items: &Items) -> bool
    ensures { result ≡ are_keys (items_of items.now) }
{
    let mut place = 0;
    while let Some(item) = items.at(place) {
        if !item.is_key() {
            return false;
        }
        place += 1;
    }
    true
}

// Objects built from members in any order.
ghost use Rattle.std.specs.Prelude.{◌≡◌, [], IfOk};
ghost use Rattle.reql_datum.specs.Outcome.{Gives};
ghost use Rattle.reql_datum.specs.View.{plain};
ghost use Rattle.reql_rules.specs.Objects.{put_new};
ghost use Rattle.reql_scalar.specs.Two.{gathered};

use crate::coercing::put_new;
use crate::gathering::{built, gather, insert};
use reql_datum::{Datum, Fault, Fields, Memory, Name};
use std::alloc::Global;
use std::collections::BTreeMap;
use std::marker::Model;

// So many members are put each in its place whatever their order, which takes fewer steps than a
// map.
const FEW: usize = 64;

/// An object in the making, whose members are put in one after another.
///
/// Contracts see the members by rising names. The first few stand in their place, and so do those
/// that come by rising names; at the first other one all go into a map. So n members take n log n
/// steps, whatever their order.
#[derive(Drop)]
pub struct ObjectBuilder {
    alloc: Global,
    fields: Fields,
    named: Option<BTreeMap<Name, Datum>>,
}

impl Model for ObjectBuilder {
    ghost use Rattle.std.specs.Prelude.{List, ℕ};
    ghost use Rattle.reql_datum.specs.Plain.{Plain};
    ghost use Rattle.reql_datum.specs.Code.{pairs_code};
    ghost use Rattle.reql_scalar.specs.Building.{members_of};

    ghost Value = { List (List ℕ × Plain) };

    ghost coded = { pairs_code };

    ghost view = { λ a. members_of a.fields a.named };
}

// Whether a name is put in its place: where there are few, or it is above the last.
fn stays_in_place(fields: &Fields, name: &Name) -> bool {
    let count = fields.len();
    if count < FEW {
        return true;
    }
    match fields.at(count - 1) {
        Some((last, _value)) => last.order(name.as_str()).is_lt(),
        None => true,
    }
}

fn by_name(alloc: Global, fields: &Fields) -> Result<BTreeMap<Name, Datum>, Memory>
    ensures { IfOk result (λ named. gathered named.entries ≡ fields.now) }
{
    let mut named = BTreeMap::new(alloc);
    let mut place = 0;
    while let Some((name, value)) = fields.at(place) {
        let key = name.copy()?;
        let copied = value.copy()?;
        insert(&mut named, key, copied)?;
        place += 1;
    }
    Ok(named)
}

// The members by name, and a new one.
fn by_name_with(
    alloc: Global,
    fields: &Fields,
    name: &Name,
    value: &Datum,
) -> Result<BTreeMap<Name, Datum>, Fault>
    ensures { Gives (λ named. gathered named.entries) result
        (put_new name.now (plain value.now) fields.now) }
{
    let mut named = by_name(alloc, fields)?;
    gather(alloc, &mut named, name, value)?;
    Ok(named)
}

impl ObjectBuilder {
    /// No member, and room for so many.
    pub fn with_room(alloc: Global, room: usize) -> Result<ObjectBuilder, Memory>
        ensures { IfOk result (λ object. object ≡ []) }
    {
        let fields = Fields::with_room(alloc, room)?;
        Ok(ObjectBuilder {
            alloc,
            fields,
            named: None,
        })
    }

    /// Puts in a name that is not there yet. One that is there, or the reserved one, is a fault.
    pub fn put_new(&mut self, name: &Name, value: &Datum) -> Result<(), Fault>
        ensures { Gives (λ _. self.new) result (put_new name.now (plain value.now) self.old) }
    {
        match &mut self.named {
            Some(named) => gather(self.alloc, named, name, value),
            None => {
                if stays_in_place(&self.fields, name) {
                    return put_new(self.alloc, &mut self.fields, name, value);
                }
                let named = by_name_with(self.alloc, &self.fields, name, value)?;
                self.named = Some(named);
                Ok(())
            }
        }
    }

    /// The object of the members that were put in.
    pub fn build(self) -> Result<Fields, Memory>
        ensures { IfOk result (λ fields. fields ≡ self) }
    {
        let ObjectBuilder {
            alloc,
            fields,
            named,
        } = self;
        match named {
            Some(named) => built(alloc, named),
            None => Ok(fields),
        }
    }
}

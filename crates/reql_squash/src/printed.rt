// How items are printed, with names that are made once.
ghost use Rattle.std.specs.Prelude.{◌≡◌, [], ◌∷◌, ◌++◌, codes, length, map, IfOk, OnOk, option_map, false};
ghost use Rattle.reql_datum.specs.Members.{put};
ghost use Rattle.reql_datum.specs.View.{plain};
ghost use Rattle.reql_feed_spec.specs.Items.{of_values, paired};
ghost use Rattle.reql_feed_spec.specs.Shown.{shown, or_null, type_of};
ghost use Rattle.reql_squash.specs.Told.{items_seen, without_offsets, told};

use reql_datum::{Datum, Fields, Items, Memory, Name};
use std::alloc::Global;

/// Prints items of one stamp, without offsets.
#[derive(Drop)]
pub(crate) struct Printer {
    alloc: Global,
    pub(crate) stamp: u64,
    pub(crate) types: bool,
    new_val: Name,
    old_val: Name,
    kind: Name,
    add: Name,
    remove: Name,
    change: Name,
    ghost new_val_is: { new_val ≡ codes "new_val" },
    ghost old_val_is: { old_val ≡ codes "old_val" },
    ghost kind_is: { kind ≡ codes "type" },
    ghost add_is: { add ≡ codes "add" },
    ghost remove_is: { remove ≡ codes "remove" },
    ghost change_is: { change ≡ codes "change" },
}

impl Printer {
    pub(crate) fn new(alloc: Global, stamp: u64, types: bool) -> Result<Printer, Memory>
        ensures stamp { IfOk result (λ p. p.stamp ≡ stamp) }
        ensures types { IfOk result (λ p. p.types ≡ types) }
    {
        Ok(Printer {
            alloc,
            stamp,
            types,
            new_val: Name::of(alloc, "new_val")?,
            old_val: Name::of(alloc, "old_val")?,
            kind: Name::of(alloc, "type")?,
            add: Name::of(alloc, "add")?,
            remove: Name::of(alloc, "remove")?,
            change: Name::of(alloc, "change")?,
        })
    }

    // The text of an item's type.
    fn type_of(&self, old: Option<&Datum>, new: Option<&Datum>) -> Result<Name, Memory>
        ensures { IfOk result (λ name. name ≡ type_of (option_map (λ d. plain d.now) old.entry)
            (option_map (λ d. plain d.now) new.entry)) }
    {
        match old {
            None => self.add.copy(),
            Some(_) => match new {
                None => self.remove.copy(),
                Some(_) => self.change.copy(),
            },
        }
    }

    // The printed item of what left and what came.
    fn item(&self, old: Option<&Datum>, new: Option<&Datum>) -> Result<Datum, Memory>
        ensures { IfOk result (λ d. plain d ≡ shown (without_offsets self.now.types)
            (of_values (option_map (λ d. plain d.now) old.entry)
            (option_map (λ d. plain d.now) new.entry))) }
    {
        let mut fields = Fields::with_room(self.alloc, 3)?;
        put(&mut fields, &self.new_val, or_null(new)?)?;
        put(&mut fields, &self.old_val, or_null(old)?)?;
        if self.types {
            let kind = self.type_of(old, new)?;
            put(&mut fields, &self.kind, Datum::Text(kind))?;
        }
        Ok(Datum::Obj(fields))
    }

    /// Tells what left and what came.
    pub(crate) fn tell(
        &self,
        out: &mut Vec<(u64, Datum)>,
        old: Option<&Datum>,
        new: Option<&Datum>,
    ) -> Result<(), Memory>
        ensures { IfOk result (λ _. items_seen out.new.items ≡ items_seen out.old.items
            ++ told self.now.stamp self.now.types
            (of_values (option_map (λ d. plain d.now) old.entry)
            (option_map (λ d. plain d.now) new.entry) ∷ [])) }
    {
        let item = self.item(old, new)?;
        out.push((self.stamp, item))?;
        Ok(())
    }

    /// Tells two lists in pairs.
    pub(crate) fn tell_pairs(
        &self,
        out: &mut Vec<(u64, Datum)>,
        left: &Items,
        came: &Items,
    ) -> Result<(), Memory>
        ensures { IfOk result (λ _. items_seen out.new.items ≡ items_seen out.old.items
            ++ told self.now.stamp self.now.types (paired left.now came.now)) }
    {
        let most = left.len().max(came.len());
        for place in 0..most {
            let old = left.at(place);
            let new = came.at(place);
            self.tell(out, old, new)?;
        }
        Ok(())
    }
}

fn or_null(value: Option<&Datum>) -> Result<Datum, Memory>
    ensures { IfOk result (λ d. plain d ≡ or_null (option_map (λ d. plain d.now) value.entry)) }
{
    match value {
        Some(d) => d.copy(),
        None => Ok(Datum::Null),
    }
}

fn put(fields: &mut Fields, name: &Name, value: Datum) -> Result<(), Memory>
    ensures { OnOk result (fields.new ≡ put name.now (plain value) fields.old) }
{
    let key = name.copy()?;
    fields.set(key, value)?;
    Ok(())
}

// How items are printed, with names that are made once.
ghost use Rattle.std.specs.Prelude.{◌≡◌, [], ◌∷◌, ◌++◌, codes, map, IfOk, OnOk, option_map};
ghost use Rattle.reql_datum.specs.Members.{put as put_of};
ghost use Rattle.reql_datum.specs.View.{plain};
ghost use Rattle.reql_feed_spec.specs.Items.{of_values, paired};
ghost use Rattle.reql_feed_spec.specs.Shown.{shown, opening, or_null as or_null_of, type_of};
ghost use Rattle.reql_feed_range.specs.Printed.{shows, behind};
ghost use Rattle.reql_rules.specs.Places.{counted_as as counted_as_of};
ghost use Rattle.reql_rules.specs.Lists.{array_of};

use reql_datum::{Datum, Fields, Items, Memory, Name, Whole};
use std::alloc::Global;

/// Prints items that tell no places.
#[derive(Drop)]
pub(crate) struct Printer {
    pub(crate) offsets: bool,
    pub(crate) types: bool,
    new_offset: Name,
    new_val: Name,
    old_offset: Name,
    old_val: Name,
    kind: Name,
    add: Name,
    remove: Name,
    change: Name,
    initial: Name,
    ghost new_offset_is: { new_offset ≡ codes "new_offset" },
    ghost new_val_is: { new_val ≡ codes "new_val" },
    ghost old_offset_is: { old_offset ≡ codes "old_offset" },
    ghost old_val_is: { old_val ≡ codes "old_val" },
    ghost kind_is: { kind ≡ codes "type" },
    ghost add_is: { add ≡ codes "add" },
    ghost remove_is: { remove ≡ codes "remove" },
    ghost change_is: { change ≡ codes "change" },
    ghost initial_is: { initial ≡ codes "initial" },
}

impl Printer {
    pub(crate) fn new(alloc: Global, offsets: bool, types: bool) -> Result<Printer, Memory>
        ensures offsets { IfOk result (λ p. p.offsets ≡ offsets) }
        ensures types { IfOk result (λ p. p.types ≡ types) }
    {
        Ok(Printer {
            offsets,
            types,
            new_offset: Name::of(alloc, "new_offset")?,
            new_val: Name::of(alloc, "new_val")?,
            old_offset: Name::of(alloc, "old_offset")?,
            old_val: Name::of(alloc, "old_val")?,
            kind: Name::of(alloc, "type")?,
            add: Name::of(alloc, "add")?,
            remove: Name::of(alloc, "remove")?,
            change: Name::of(alloc, "change")?,
            initial: Name::of(alloc, "initial")?,
        })
    }

    // The text of an item's type.
    fn type_of(&self, old: Option<&Datum>, new: Option<&Datum>) -> Result<Name, Memory>
        ensures { IfOk result (λ name. name ≡ type_of (option_map (λ d. plain d.now) old.entry)
            (option_map (λ d. plain d.now) new.entry)) }
    {
        match old {
            None => self.add.copy(),
            Some(_) => match new {
                None => self.remove.copy(),
                Some(_) => self.change.copy(),
            },
        }
    }

    /// The printed item of what left and what came.
    pub(crate) fn item(
        &self,
        alloc: Global,
        old: Option<&Datum>,
        new: Option<&Datum>,
    ) -> Result<Datum, Memory>
        ensures { IfOk result (λ d. plain d ≡ shown (shows self.now.offsets self.now.types)
            (of_values (option_map (λ d. plain d.now) old.entry)
            (option_map (λ d. plain d.now) new.entry))) }
    {
        let mut fields = Fields::with_room(alloc, 5)?;
        if self.offsets {
            put(&mut fields, &self.new_offset, Datum::Null)?;
        }
        put(&mut fields, &self.new_val, or_null(new)?)?;
        if self.offsets {
            put(&mut fields, &self.old_offset, Datum::Null)?;
        }
        put(&mut fields, &self.old_val, or_null(old)?)?;
        if self.types {
            let kind = self.type_of(old, new)?;
            put(&mut fields, &self.kind, Datum::Text(kind))?;
        }
        Ok(Datum::Obj(fields))
    }

    /// The opening item of a value at a place.
    pub(crate) fn opening(
        &self,
        alloc: Global,
        place: usize,
        value: &Datum,
    ) -> Result<Datum, Memory>
        ensures { IfOk result (λ d. plain d
            ≡ opening (shows self.now.offsets self.now.types) place (plain value.now)) }
    {
        let mut fields = Fields::with_room(alloc, 3)?;
        if self.offsets {
            put(&mut fields, &self.new_offset, counted_as(place as u64))?;
        }
        put(&mut fields, &self.new_val, value.copy()?)?;
        if self.types {
            let kind = self.initial.copy()?;
            put(&mut fields, &self.kind, Datum::Text(kind))?;
        }
        Ok(Datum::Obj(fields))
    }

    // The printed item, behind its key where the feed squashes.
    fn behind(
        &self,
        alloc: Global,
        key: Option<&Datum>,
        old: Option<&Datum>,
        new: Option<&Datum>,
    ) -> Result<Datum, Memory>
        ensures { IfOk result (λ d. plain d
            ≡ behind (shows self.now.offsets self.now.types) (option_map (λ d. plain d.now) key.entry)
            (of_values (option_map (λ d. plain d.now) old.entry)
            (option_map (λ d. plain d.now) new.entry))) }
    {
        let item = self.item(alloc, old, new)?;
        match key {
            None => Ok(item),
            Some(key) => two_in(alloc, key, item),
        }
    }

    // Adds the printed item of what left and what came.
    fn tell(
        &self,
        alloc: Global,
        items: &mut Items,
        key: Option<&Datum>,
        old: Option<&Datum>,
        new: Option<&Datum>,
    ) -> Result<(), Memory>
        ensures { IfOk result (λ _. items.new ≡ items.old
            ++ behind (shows self.now.offsets self.now.types)
            (option_map (λ d. plain d.now) key.entry)
            (of_values (option_map (λ d. plain d.now) old.entry)
            (option_map (λ d. plain d.now) new.entry)) ∷ []) }
    {
        let item = self.behind(alloc, key, old, new)?;
        items.push(item)?;
        Ok(())
    }

    /// The printed items of two lists in pairs, each behind the key where one is given.
    pub(crate) fn pairs(
        &self,
        alloc: Global,
        key: Option<&Datum>,
        left: &Items,
        came: &Items,
    ) -> Result<Items, Memory>
        ensures { IfOk result (λ r. r ≡ map
            (behind (shows self.now.offsets self.now.types)
            (option_map (λ d. plain d.now) key.entry))
            (paired left.now came.now)) }
    {
        let most = left.len().max(came.len());
        let mut items = Items::new(alloc);
        for place in 0..most {
            let old = left.at(place);
            let new = came.at(place);
            self.tell(alloc, &mut items, key, old, new)?;
        }
        Ok(items)
    }
}

fn or_null(value: Option<&Datum>) -> Result<Datum, Memory>
    ensures { IfOk result (λ d. plain d ≡ or_null_of (option_map (λ d. plain d.now) value.entry)) }
{
    match value {
        Some(d) => d.copy(),
        None => Ok(Datum::Null),
    }
}

fn put(fields: &mut Fields, name: &Name, value: Datum) -> Result<(), Memory>
    ensures { OnOk result (fields.new ≡ put_of name.now (plain value) fields.old) }
{
    let key = name.copy()?;
    fields.set(key, value)?;
    Ok(())
}

fn two_in(alloc: Global, key: &Datum, item: Datum) -> Result<Datum, Memory>
    ensures { IfOk result (λ d. plain d ≡ array_of (plain key.now ∷ plain item ∷ [])) }
{
    let mut parts = Items::with_room(alloc, 2)?;
    parts.push(key.copy()?)?;
    parts.push(item)?;
    Ok(Datum::List(parts))
}

// A place as a number; above the range it is the greatest number.
fn counted_as(place: u64) -> Datum
    ensures { plain result ≡ counted_as_of place }
{
    let within = place.min(9007199254740992) as i64;
    match Whole::new(within) {
        Some(n) => Datum::Num(n),
        None => unreachable!(),
    }
}

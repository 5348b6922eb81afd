// What a write lists of its changes.
ghost use Rattle.std.specs.Prelude.{◌≡◌, ◌∷◌, [], ◌++◌, IfOk, map, option_map, codes};
ghost use Rattle.std.specs.List.{filter};
ghost use Rattle.std.specs.Option.{unwrap_or};
ghost use Rattle.reql_datum.specs.Plain.{null, text};
ghost use Rattle.reql_datum.specs.View.{plain};
ghost use Rattle.reql_write_spec.specs.Treated.{between as between_of, shown as shown_of, changes_of};
ghost use Rattle.reql_write_spec.specs.Write.{listed as listed_of};
ghost use Rattle.reql_rules.specs.Lists.{joined, object_of};
ghost use Rattle.reql_table.specs.Edits.{told};
ghost use Rattle.reql_write.specs.Listing.{AreNamed, is_wanted};
ghost use Rattle.reql_write.specs.Seen.{seen};

use crate::treated::Treated;
use reql_datum::{Datum, Fields, Items, Memory, Name};
use reql_write_spec::{Change, Returns};
use std::alloc::Global;

// The names of what is listed of a change, made once and copied.
#[derive(Drop)]
struct Labels {
    error: Name,
    new: Name,
    old: Name,
}

fn make_labels(alloc: Global) -> Result<Labels, Memory>
    ensures { IfOk result AreNamed }
{
    Ok(Labels {
        error: Name::of(alloc, "error")?,
        new: Name::of(alloc, "new_val")?,
        old: Name::of(alloc, "old_val")?,
    })
}

// The document, or null where there is none.
fn or_null(document: Option<&Datum>) -> Result<Datum, Memory>
    ensures { IfOk result (λ d. plain d
        ≡ unwrap_or (option_map (λ d. plain d.now) document.entry) null) }
{
    match document {
        Some(document) => document.copy(),
        None => Ok(Datum::Null),
    }
}

#[tactic(auto, using(crate::proofs::Lists::two_put))]
fn between(
    alloc: Global,
    labels: &Labels,
    old: Option<&Datum>,
    new: Option<&Datum>,
) -> Result<Fields, Memory>
    requires named { AreNamed labels.now }
    ensures { IfOk result (λ fields. fields ≡ between_of
        (option_map (λ d. plain d.now) old.entry) (option_map (λ d. plain d.now) new.entry)) }
{
    let mut fields = Fields::with_room(alloc, 3)?;
    fields.set(labels.new.copy()?, or_null(new)?)?;
    fields.set(labels.old.copy()?, or_null(old)?)?;
    Ok(fields)
}

// An error beside the document that stays.
#[tactic(auto, using(crate::proofs::Lists::error_put))]
fn beside_error(
    alloc: Global,
    labels: &Labels,
    why: &Name,
    old: Option<&Datum>,
) -> Result<Fields, Memory>
    requires named { AreNamed labels.now }
    ensures { IfOk result (λ fields. fields ≡ (codes "error", text why.now)
        ∷ between_of (option_map (λ d. plain d.now) old.entry)
        (option_map (λ d. plain d.now) old.entry)) }
{
    let mut fields = between(alloc, labels, old, old)?;
    fields.set(labels.error.copy()?, Datum::Text(why.copy()?))?;
    Ok(fields)
}

fn members_of(alloc: Global, labels: &Labels, treated: &Treated) -> Result<Fields, Memory>
    requires named { AreNamed labels.now }
    ensures { IfOk result (λ fields. object_of fields ≡ shown_of (seen treated.now)) }
{
    match treated {
        Treated::Inserted { key: _, new } => between(alloc, labels, None, Some(new)),
        Treated::Replaced { key: _, old, new } => between(alloc, labels, Some(old), Some(new)),
        Treated::Deleted { key: _, old } => between(alloc, labels, Some(old), None),
        Treated::Unchanged(document) => between(alloc, labels, Some(document), Some(document)),
        Treated::Skipped => between(alloc, labels, None, None),
        Treated::Failed { why, old } => beside_error(alloc, labels, why, old.as_ref()),
    }
}

// Whether it is listed: each is, or each change.
fn is_listed(treated: &Treated, all: bool) -> bool
    ensures { result ≡ is_wanted all (seen treated.now) }
{
    match treated {
        Treated::Inserted { key: _, new: _ } => true,
        Treated::Replaced {
            key: _,
            old: _,
            new: _,
        } => true,
        Treated::Deleted { key: _, old: _ } => true,
        Treated::Unchanged(_) => all,
        Treated::Skipped => all,
        Treated::Failed { why: _, old: _ } => all,
    }
}

// Lists it, if it is to be listed.
fn add_listed(
    alloc: Global,
    list: &mut Items,
    labels: &Labels,
    treated: &Treated,
    all: bool,
) -> Result<(), Memory>
    requires named { AreNamed labels.now }
    ensures { IfOk result (λ _. list.new
        ≡ list.old ++ map shown_of (filter (is_wanted all) (seen treated.now ∷ []))) }
{
    if is_listed(treated, all) {
        let fields = members_of(alloc, labels, treated)?;
        return Ok(list.push(Datum::Obj(fields))?);
    }
    Ok(())
}

#[tactic(auto, using(crate::proofs::Lists::lists_on))]
fn list_of(alloc: Global, treated: &[Treated], all: bool) -> Result<Items, Memory>
    ensures { IfOk result (λ items. items
        ≡ map shown_of (filter (is_wanted all) (map seen treated.now))) }
{
    let labels = make_labels(alloc)?;
    let mut list = Items::new(alloc);
    for one in treated {
        add_listed(alloc, &mut list, &labels, one, all)?;
    }
    Ok(list)
}

/// The list of changes, where one is asked for.
#[tactic(auto, using(crate::proofs::Lists::always_listed, crate::proofs::Lists::changes_wanted))]
pub(crate) fn listed(
    alloc: Global,
    returns: Returns,
    treated: &[Treated],
) -> Result<Option<Items>, Memory>
    ensures { IfOk result (λ list. list ≡ listed_of returns (map seen treated.now)) }
{
    match returns {
        Returns::No => Ok(None),
        Returns::Changed => Ok(Some(list_of(alloc, treated, false)?)),
        Returns::Always => Ok(Some(list_of(alloc, treated, true)?)),
    }
}

/// The changes of the table, in order.
pub(crate) fn change_list(alloc: Global, treated: &[Treated]) -> Result<Vec<Change>, Memory>
    ensures { IfOk result (λ cs. map told cs.items ≡ joined (map changes_of (map seen treated.now))) }
{
    let mut changes = Vec::new(alloc);
    for one in treated {
        add_change(&mut changes, one)?;
    }
    Ok(changes)
}

fn add_change(changes: &mut Vec<Change>, treated: &Treated) -> Result<(), Memory>
    ensures { IfOk result (λ _. map told changes.new.items
        ≡ map told changes.old.items ++ changes_of (seen treated.now)) }
{
    match treated.change()? {
        Some(change) => Ok(changes.push(change)?),
        None => Ok(()),
    }
}

// What patterns name, gathered by names.
ghost use Rattle.std.specs.Prelude.{◌≡◌, suc, ◌≤◌, ◌∷◌, [], ◌++◌, max, IfOk};
ghost use Rattle.reql_datum.specs.Plain.{depth};
ghost use Rattle.reql_datum.specs.View.{plain};
ghost use Rattle.reql_rules.specs.Patterns.{whole, inside, both};
ghost use Rattle.reql_path.specs.Named.{wanted_part, part_there, reach, reach_there, only, Gathers, GathersMember, GathersMembers, GathersPattern, GathersPatterns};
ghost use Rattle.reql_path.specs.declared.gathering.Wanted.TheVariants.{Inside};

use crate::having::is_true;
use reql_datum::{Datum, Fields, Items, Memory, Name};
use std::alloc::Global;
use std::collections::BTreeMap;

/// What patterns name of a field.
#[derive(Drop)]
pub(crate) enum Wanted {
    Whole,
    /// What these patterns name inside it.
    Inside(Items),
}

fn with_one_more(patterns: Items, more: &Datum) -> Result<Wanted, Memory>
    ensures { IfOk result (λ w. w ≡ Inside (patterns ++ plain more.now ∷ [])) }
{
    let mut patterns = patterns;
    let copied = more.copy()?;
    patterns.push(copied)?;
    Ok(Wanted::Inside(patterns))
}

// What is named of a field that a further pattern goes into.
#[tactic(auto, using(crate::proofs::Gathered::deeper))]
fn inside_also(alloc: Global, old: Option<Wanted>, more: &Datum) -> Result<Wanted, Memory>
    ensures part { IfOk result (λ w. wanted_part w ≡ both (part_there old)
        (inside (plain more.now ∷ []))) }
    ensures bound { IfOk result (λ w. reach w ≤ max (reach_there old)
        (suc (suc (depth (plain more.now))))) }
{
    match old {
        Some(Wanted::Whole) => Ok(Wanted::Whole),
        Some(Wanted::Inside(patterns)) => with_one_more(patterns, more),
        None => with_one_more(Items::new(alloc), more),
    }
}

// A name that a pattern goes into.
fn add_inside(
    alloc: Global,
    named: &mut BTreeMap<Name, Wanted>,
    name: &Name,
    pattern: &Datum,
) -> Result<(), Memory>
    ensures { IfOk result (λ _. Gathers named.old.entries named.new.entries
        (only name.now (inside (plain pattern.now ∷ []))) (suc (depth (plain pattern.now)))) }
{
    let old = named.remove(name);
    let wanted = inside_also(alloc, old, pattern)?;
    let key = name.copy()?;
    drop(named.insert(key, wanted)?);
    Ok(())
}

// A name that is wanted whole.
fn add_whole(named: &mut BTreeMap<Name, Wanted>, name: &Name) -> Result<(), Memory>
    ensures { IfOk result (λ _. Gathers named.old.entries named.new.entries (only name.now whole)
        0) }
{
    let key = name.copy()?;
    drop(named.insert(key, Wanted::Whole)?);
    Ok(())
}

#[tactic(auto, using(crate::proofs::Gathered::gathers_field, crate::proofs::Gathered::gathers_true))]
fn add_field(
    alloc: Global,
    named: &mut BTreeMap<Name, Wanted>,
    name: &Name,
    pattern: &Datum,
) -> Result<(), Memory>
    ensures { IfOk result (λ _. GathersMember named.old.entries named.new.entries name.now
        (plain pattern.now)) }
{
    if is_true(pattern) {
        return add_whole(named, name);
    }
    add_inside(alloc, named, name, pattern)
}

fn add_fields(
    alloc: Global,
    named: &mut BTreeMap<Name, Wanted>,
    fields: &Fields,
) -> Result<(), Memory>
    ensures { IfOk result (λ _. GathersMembers named.old.entries named.new.entries fields.now) }
{
    let mut place = 0;
    while let Some((name, pattern)) = fields.at(place) {
        add_field(alloc, named, name, pattern)?;
        place += 1;
    }
    Ok(())
}

#[cycle(add)]
#[tactic(auto, using(reql_datum::proofs::Walks::walks))]
fn add(alloc: Global, named: &mut BTreeMap<Name, Wanted>, pattern: &Datum) -> Result<(), Memory>
    ensures { IfOk result (λ _. GathersPattern named.old.entries named.new.entries
        (plain pattern.now)) }
{
    match pattern {
        Datum::Text(name) => add_whole(named, name),
        Datum::List(patterns) => add_all(alloc, named, patterns),
        Datum::Obj(fields) => add_fields(alloc, named, fields),
        _ => Ok(()),
    }
}

#[cycle(add)]
#[tactic(auto, using(reql_datum::proofs::Walks::walks))]
fn add_all(
    alloc: Global,
    named: &mut BTreeMap<Name, Wanted>,
    patterns: &Items,
) -> Result<(), Memory>
    ensures { IfOk result (λ _. GathersPatterns named.old.entries named.new.entries patterns.now) }
{
    let mut place = 0;
    while let Some(pattern) = patterns.at(place) {
        add(alloc, named, pattern)?;
        place += 1;
    }
    Ok(())
}

/// What patterns name, by rising names.
pub(crate) fn gathered(alloc: Global, patterns: &Items) -> Result<BTreeMap<Name, Wanted>, Memory>
    ensures { IfOk result (λ r. GathersPatterns [] r.entries patterns.now) }
{
    let mut named = BTreeMap::new(alloc);
    add_all(alloc, &mut named, patterns)?;
    Ok(named)
}

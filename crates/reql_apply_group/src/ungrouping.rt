// UNGROUP.
ghost use Rattle.std.specs.Prelude.{◌≡◌, IfOk, Err, codes, map, is_ok, false};
ghost use Rattle.reql_datum.specs.Outcome.{Gives};
ghost use Rattle.reql_datum.specs.View.{plain};
ghost use Rattle.reql_rules.specs.Grouping.{reduction as reduction_of, ungroup as ungroup_of};
ghost use Rattle.reql_value_spec.specs.Groups.{ungrouped as ungrouped_of, ungroup_rule};
ghost use Rattle.reql_value_spec.specs.Meant.{Calls, Options, meant_of};
ghost use Rattle.reql_value_spec.specs.Wanted.{wrong as wrong_of};
ghost use Rattle.reql_value_spec.specs.World.{World as Seen};
ghost use Rattle.reql_operand.specs.Seen.{meant, shown, all_shown, group as group_seen};

use reql_datum::{Datum, Fault, Fields, Items, Memory, Name};
use reql_operand::{Arg, Group, Value, misplaced, value_of, wrong};
use std::alloc::Global;

// The object of a group and what stands for its members, by the names of both.
fn reduction(alloc: Global, group: &Name, reduction: &Name, of: &Group) -> Result<Datum, Memory>
    requires group { group.now ≡ codes "group" }
    requires reduction { reduction.now ≡ codes "reduction" }
    ensures { IfOk result (λ d. plain d ≡ reduction_of (group_seen of.now)) }
{
    let mut fields = Fields::with_room(alloc, 2)?;
    fields.set(group.copy()?, of.group.copy()?)?;
    fields.set(reduction.copy()?, of.value.copy()?)?;
    Ok(Datum::Obj(fields))
}

fn reductions(alloc: Global, groups: &[Group]) -> Result<Items, Memory>
    ensures { IfOk result (λ items. items ≡ ungroup_of (map group_seen groups.now)) }
{
    let group = Name::of(alloc, "group")?;
    let reduced = Name::of(alloc, "reduction")?;
    let mut items = Items::with_room(alloc, groups.len())?;
    for one in groups {
        items.push(reduction(alloc, &group, &reduced, one)?)?;
    }
    Ok(items)
}

fn no_groups(alloc: Global, value: &Value) -> Result<Items, Fault>
    ensures fault { is_ok result ≡ false }
    ensures which { (w : Seen) → Gives (λ items. items) result
        (Err (wrong_of (codes "GROUPED_DATA") (meant w value.now))) }
{
    match wrong(alloc, "GROUPED_DATA", value) {
        Err(fault) => Err(fault),
        Ok(_) => unreachable!(),
    }
}

fn ungrouped(alloc: Global, value: &Value) -> Result<Items, Fault>
    ensures { (w : Seen) → Gives (λ items. items) result (ungrouped_of (meant w value.now)) }
{
    match value {
        Value::Grouped(groups) => Ok(reductions(alloc, groups)?),
        _ => no_groups(alloc, value),
    }
}

fn ungrouped_arg(alloc: Global, arg: &Arg) -> Result<Items, Fault>
    ensures { (w : Seen) → Gives (λ items. items) result
        (ungrouped_of (meant_of (shown w arg.now))) }
{
    match value_of(arg) {
        Some(value) => ungrouped(alloc, value),
        None => ungrouped(alloc, &Value::Function),
    }
}

/// UNGROUP: an object for each group, with its value and what stands for its members.
pub fn ungroup(alloc: Global, args: &[Arg]) -> Result<Items, Fault>
    ensures { (w : Seen) (calls : Calls) (opts : Options) → Gives (λ items. items) result
        (ungroup_rule w calls (all_shown w args.now) opts) }
{
    match args {
        [arg] => ungrouped_arg(alloc, arg),
        _ => Err(Fault::QueryLogic(misplaced(alloc)?)),
    }
}

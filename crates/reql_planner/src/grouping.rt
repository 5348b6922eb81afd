// How groups print.
ghost use Rattle.std.specs.Prelude.{◌≡◌, IfOk, OnOk, map};
ghost use Rattle.reql_datum.specs.Members.{put};
ghost use Rattle.reql_datum.specs.View.{plain};
ghost use Rattle.reql_operand.specs.Seen.{group};
ghost use Rattle.reql_value_spec.specs.Shown.{grouped_data, group_pair};

use reql_datum::{Datum, Fields, Items, Memory, Name};
use reql_operand::Group;
use std::alloc::Global;

/// Groups as the one object that they print as.
#[tactic(auto, using(crate::proofs::Groups::puts))]
pub(crate) fn grouped(alloc: Global, groups: &[Group]) -> Result<Datum, Memory>
    ensures { IfOk result (λ d. plain d ≡ grouped_data (map group groups.now)) }
{
    let list = pairs(alloc, groups)?;
    let kind = Name::of(alloc, "GROUPED_DATA")?;
    let mut fields = Fields::with_room(alloc, 2)?;
    set(alloc, &mut fields, "$reql_type$", Datum::Text(kind))?;
    set(alloc, &mut fields, "data", Datum::List(list))?;
    Ok(Datum::Obj(fields))
}

fn set(alloc: Global, fields: &mut Fields, name: &str, value: Datum) -> Result<(), Memory>
    ensures { OnOk result (fields.new ≡ put name.now (plain value) fields.old) }
{
    let name = Name::of(alloc, name)?;
    fields.set(name, value)?;
    Ok(())
}

fn pairs(alloc: Global, groups: &[Group]) -> Result<Items, Memory>
    ensures { IfOk result (λ items. items ≡ map group_pair (map group groups.now)) }
{
    let mut list = Items::with_room(alloc, groups.len())?;
    for one in groups {
        list.push(pair(alloc, one)?)?;
    }
    Ok(list)
}

fn pair(alloc: Global, one: &Group) -> Result<Datum, Memory>
    ensures { IfOk result (λ d. plain d ≡ group_pair (group one.now)) }
{
    let mut pair = Items::with_room(alloc, 2)?;
    pair.push(one.group.copy()?)?;
    pair.push(one.value.copy()?)?;
    Ok(Datum::List(pair))
}

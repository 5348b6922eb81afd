// UNGROUP.
ghost use Rattle.std.specs.Prelude.{◌≡◌, IfOk};
ghost use Rattle.reql_datum.specs.View.{plain};
ghost use Rattle.reql_rules.specs.Grouping.{reduction, ungroup};

use crate::grouped::Groups;
use reql_datum::{Datum, Fields, Items, Memory, Name};
use std::alloc::Global;
use std::marker::Model;

// The two names of an object that a group becomes. They are made once, and each object copies them.
#[derive(Drop)]
struct Words {
    alloc: Global,
    group: Name,
    reduction: Name,
}

impl Model for Words {
    ghost use Rattle.std.specs.Prelude.{◌≡◌, codes};

    ghost Value = { Unit {0} };

    ghost view = { λ a. tt };

    ghost invariant = { λ a. (a.group ≡ codes "group") × (a.reduction ≡ codes "reduction") };
}

impl Words {
    fn new(alloc: Global) -> Result<Words, Memory> {
        let group = Name::of(alloc, "group")?;
        let reduction = Name::of(alloc, "reduction")?;
        Ok(Words {
            alloc,
            group,
            reduction,
        })
    }

    // The object of a group and its datum.
    fn object(&self, group: &Datum, datum: &Datum) -> Result<Datum, Memory>
        ensures { IfOk result (λ d. plain d ≡ reduction (plain group.now, plain datum.now)) }
    {
        let mut fields = Fields::with_room(self.alloc, 2)?;
        fields.set(self.group.copy()?, group.copy()?)?;
        fields.set(self.reduction.copy()?, datum.copy()?)?;
        Ok(Datum::Obj(fields))
    }
}

/// UNGROUP: an object for each group, in order, with the group and its datum as the reduction.
pub fn ungroup(alloc: Global, groups: &Groups) -> Result<Items, Memory>
    ensures { IfOk result (λ r. r ≡ ungroup groups.now) }
{
    let words = Words::new(alloc)?;
    let mut items = Items::with_room(alloc, groups.len())?;
    let mut place = 0;
    while let Some((group, datum)) = groups.at(place) {
        items.push(words.object(group, datum)?)?;
        place += 1;
    }
    Ok(items)
}

// The objects that a join makes.
ghost use Rattle.std.specs.Prelude.{◌≡◌, ◌++◌, map, Ok, IfOk};
ghost use Rattle.reql_datum.specs.Outcome.{Gives};
ghost use Rattle.reql_datum.specs.View.{plain};
ghost use Rattle.reql_rules.specs.Joining.{of_left, of_both};

use reql_datum::{Datum, Fields, Items, Memory, Name};
use std::alloc::Global;
use std::marker::Model;

/// The two names of the objects that a join makes. They are made once, and each object copies them.
#[derive(Drop)]
pub(crate) struct Sides {
    alloc: Global,
    left: Name,
    right: Name,
}

impl Model for Sides {
    ghost use Rattle.std.specs.Prelude.{◌≡◌, codes};

    ghost Value = { Unit {0} };

    ghost view = { λ a. tt };

    ghost invariant = { λ a. (a.left ≡ codes "left") × (a.right ≡ codes "right") };
}

impl Sides {
    pub fn new(alloc: Global) -> Result<Sides, Memory> {
        let left = Name::of(alloc, "left")?;
        let right = Name::of(alloc, "right")?;
        Ok(Sides { alloc, left, right })
    }

    /// The object of a left side alone.
    pub fn alone(&self, left: &Datum) -> Result<Datum, Memory>
        ensures { IfOk result (λ d. plain d ≡ of_left (plain left.now)) }
    {
        let mut fields = Fields::with_room(self.alloc, 1)?;
        fields.set(self.left.copy()?, left.copy()?)?;
        Ok(Datum::Obj(fields))
    }

    /// The object of both sides.
    pub fn both(&self, left: &Datum, right: &Datum) -> Result<Datum, Memory>
        ensures { IfOk result (λ d. plain d ≡ of_both (plain left.now) (plain right.now)) }
    {
        let mut fields = Fields::with_room(self.alloc, 2)?;
        fields.set(self.left.copy()?, left.copy()?)?;
        fields.set(self.right.copy()?, right.copy()?)?;
        Ok(Datum::Obj(fields))
    }

    /// With the objects of one left side and each of many.
    pub fn with_each(&self, pairs: Items, left: &Datum, rows: &[Datum]) -> Result<Items, Memory>
        ensures { IfOk result (λ r. r
            ≡ pairs ++ map (of_both (plain left.now)) (map plain rows.now)) }
    {
        let mut all = pairs;
        for right in rows {
            all.push(self.both(left, right)?)?;
        }
        Ok(all)
    }
}

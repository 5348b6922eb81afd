// What stands around a term.
ghost use Rattle.std.specs.Prelude.{◌≡◌};
ghost use Rattle.reql_faults.specs.Faults.{at, is_one, body_of};
ghost use Rattle.reql_faults.specs.Finds.{around};

use crate::standing::Place;

/// Where a term stands, and whether a function of one parameter is among those around it.
#[derive(Clone, Copy, Drop)]
pub(crate) struct Scope {
    pub(crate) place: Place,
    pub(crate) row: bool,
}

impl Scope {
    /// The same at another place.
    pub(crate) fn at(self, place: Place) -> Scope
        ensures place { result.place ≡ place }
        ensures row { result.row ≡ self.row }
    {
        Scope {
            place,
            row: self.row,
        }
    }
}

// The bounds of a feed, as two pairs.
ghost use Rattle.std.specs.Prelude.{◌≡◌, IfOk};
ghost use Rattle.reql_datum.specs.View.{plain};
ghost use Rattle.reql_feed_limit.specs.Bounds.{before, in_bounds};
ghost use Rattle.reql_feed_limit.specs.Bounded.{bounds_of};

use reql_datum::{Datum, Memory, compare};

/// Two pairs between which an index is cut; a side that is open leaves its own pair out.
#[derive(Drop)]
pub struct Bounds {
    pub bottom: Datum,
    pub bottom_open: bool,
    pub top: Datum,
    pub top_open: bool,
}

fn before(is_open: bool, a: &Datum, b: &Datum) -> bool
    ensures { result ≡ before is_open (plain a.now) (plain b.now) }
{
    if is_open {
        compare(a, b).is_lt()
    } else {
        compare(a, b).is_le()
    }
}

impl Bounds {
    /// Equal bounds that share what they hold.
    pub(crate) fn copy(&self) -> Result<Bounds, Memory>
        ensures { IfOk result (λ b. b ≡ self.now) }
    {
        Ok(Bounds {
            bottom: self.bottom.copy()?,
            bottom_open: self.bottom_open,
            top: self.top.copy()?,
            top_open: self.top_open,
        })
    }

    /// Whether a pair lies between them.
    pub fn holds(&self, pair: &Datum) -> bool
        ensures { result ≡ in_bounds (bounds_of self.now) (plain pair.now) }
    {
        before(self.bottom_open, &self.bottom, pair) && before(self.top_open, pair, &self.top)
    }
}

// What a user of the order can say of it.
ghost use Rattle.std.specs.Prelude.{◌≡◌};
ghost use Rattle.reql_datum.specs.Order.{order};
ghost use Rattle.reql_datum.specs.View.{plain};
ghost use Rattle.std.specs.Ordering.{is_eq};

use reql_datum::{Datum, compare};

/// Whether two documents are equal by the order.
pub fn are_equal(a: &Datum, b: &Datum) -> bool
    ensures { result ≡ is_eq (order (plain a.now) (plain b.now)) }
{
    compare(a, b).is_eq()
}

// Comparisons of neighbours.
ghost use Rattle.std.specs.Prelude.{◌≡◌};
ghost use Rattle.reql_datum.specs.View.{plain};
ghost use Rattle.reql_rules.specs.Relations.{neighbours, relate};
ghost use Rattle.reql_scalar.specs.Stands.{stands};

use reql_datum::{Datum, Items, compare};
use reql_rules::Relate;

fn stand(op: Relate, first: &Datum, next: &Datum) -> bool
    ensures { result ≡ stands op (plain first.now) (plain next.now) }
{
    let answer = compare(first, next);
    match op {
        Relate::Eq | Relate::Ne => answer.is_eq(),
        Relate::Lt => answer.is_lt(),
        Relate::Le => answer.is_le(),
        Relate::Gt => answer.is_gt(),
        Relate::Ge => answer.is_ge(),
    }
}

fn all_stand(op: Relate, args: &Items) -> bool
    ensures { result ≡ neighbours (stands op) args.now }
{
    let Some(mut last) = args.at(0) else {
        return true;
    };
    let mut place = 1;
    while let Some(next) = args.at(place) {
        if !stand(op, last, next) {
            return false;
        }
        last = next;
        place += 1;
    }
    true
}

/// Whether each two neighbours stand so in the order of documents, each pair compared once; NE is
/// the contrary of EQ.
pub fn relate(op: Relate, args: &Items) -> bool
    ensures { result ≡ relate op args.now }
{
    let all = all_stand(op, args);
    match op {
        Relate::Ne => !all,
        _ => all,
    }
}

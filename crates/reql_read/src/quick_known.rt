// What was read before, where a term may have the same names.
ghost use Rattle.std.specs.Prelude.{◌≡◌, IfSome};

use reql_datum::Name;
use reql_term::{Term, TermFields};

// Where a name stands in a map, or would stand.
fn place_of(fields: &TermFields, key: &str) -> usize {
    let mut low = 0;
    let mut high = fields.len();
    while low < high {
        let middle = low + (high - low) / 2;
        let Some((name, _)) = fields.at(middle) else {
            return low;
        };
        if name.as_str() < key {
            low = middle + 1;
        } else {
            high = middle;
        }
    }
    low
}

fn field_at<'a>(fields: &'a TermFields, place: usize, key: &str) -> Option<(&'a Name, &'a Term)>
    ensures { IfSome result (λ m. m.0.now ≡ key.now) }
{
    let (name, term) = fields.at(place)?;
    if name.as_str() == key {
        Some((name, term))
    } else {
        None
    }
}

/// The member of this name in what was read before, looked for at a place first.
pub(crate) fn known<'a>(
    like: Option<&'a Term>,
    place: usize,
    key: &str,
) -> Option<(&'a Name, &'a Term)>
    ensures { IfSome result (λ m. m.0.now ≡ key.now) }
{
    let Some(Term::Obj(fields)) = like else {
        return None;
    };
    match field_at(fields, place, key) {
        Some(field) => Some(field),
        None => field_at(fields, place_of(fields, key), key),
    }
}

// Arguments that have their data.
ghost use Rattle.std.specs.Prelude.{◌≡◌, IfOk, map, option_map};
ghost use Rattle.reql_datum.specs.Outcome.{Gives};
ghost use Rattle.reql_datum.specs.View.{plain};
ghost use Rattle.reql_term.specs.View.{form_of};
ghost use Rattle.reql_operand.specs.Seen.{choice, shown};
ghost use Rattle.reql_rules.specs.Lists.{each};
ghost use Rattle.reql_rules.specs.Types.{text_in as text_in_of};
ghost use Rattle.reql_value_spec.specs.Wanted.{as_number as as_number_of};
ghost use Rattle.reql_value_spec.specs.World.{World as Seen, bare_world};
ghost use Rattle.reql_plan_spec.specs.Feeding.{datum_at, given_in as given_in_of, givens as givens_of, name_in as name_in_of};

use reql_datum::{Datum, Fault, Items, Memory, Name, Whole};
use reql_operand::{Arg, Callee, Choice, Value, as_datum, as_number};
use reql_term::{Term, TermFields};
use std::alloc::Global;

// What an argument is, once it has its data.
fn given_in(term: &Term) -> Result<Arg, Memory>
    ensures { (w : Seen) → IfOk result (λ a. shown w a ≡ given_in_of (form_of term.now)) }
{
    match term {
        Term::Lit(datum) => Ok(Arg::Value(Value::One(datum.copy()?))),
        _ => Ok(Arg::Function(Callee {
            at: 0,
            makes_object: false,
        })),
    }
}

/// The document that an argument is.
pub(crate) fn datum_in(alloc: Global, term: &Term) -> Result<Datum, Fault>
    ensures { Gives plain result (datum_at (form_of term.now)) }
{
    let given = given_in(term)?;
    let datum = as_datum(alloc, &given);
    drop(given);
    datum
}

/// The documents that arguments are.
pub(crate) fn data_in(alloc: Global, terms: &[Term]) -> Result<Items, Fault>
    ensures { Gives (λ items. items) result (each datum_at (map form_of terms.now)) }
{
    let mut items = Items::with_room(alloc, terms.len())?;
    for term in terms {
        let datum = datum_in(alloc, term)?;
        items.push(datum)?;
    }
    Ok(items)
}

/// The number that an argument is.
pub(crate) fn number_in(alloc: Global, term: &Term) -> Result<Whole, Fault>
    ensures { Gives (λ n. n) result (as_number_of (given_in_of (form_of term.now))) }
{
    let given = given_in(term)?;
    let number = as_number(alloc, &given);
    drop(given);
    number
}

/// The name that a literal is.
pub(crate) fn name_in(term: &Term) -> Option<&Name>
    ensures { option_map (λ n. n.now) result ≡ name_in_of (form_of term.now) }
{
    match term {
        Term::Lit(datum) => text_in(datum),
        _ => None,
    }
}

/// The text that a document is.
pub(crate) fn text_in(datum: &Datum) -> Option<&Name>
    ensures { option_map (λ n. n.now) result ≡ text_in_of (plain datum.now) }
{
    match datum {
        Datum::Text(text) => Some(text),
        _ => None,
    }
}

// An optional argument, once it has its data.
fn chosen(name: &Name, term: &Term) -> Result<Choice, Memory>
    ensures { (w : Seen) → IfOk result (λ c. choice w c ≡ (name.now, given_in_of (form_of term.now))) }
{
    let name = name.copy()?;
    let arg = given_in(term)?;
    Ok(Choice { name, arg })
}

/// The optional arguments, once they have their data.
#[tactic(auto, using(reql_datum::proofs::Walks::walks))]
pub(crate) fn givens(alloc: Global, fields: &TermFields) -> Result<Vec<Choice>, Memory>
    ensures { IfOk result (λ os. map (choice bare_world) os.items ≡ givens_of fields.now) }
{
    let mut given = Vec::new(alloc);
    let mut place = 0;
    while let Some((name, term)) = fields.at(place) {
        given.push(chosen(name, term)?)?;
        place += 1;
    }
    Ok(given)
}

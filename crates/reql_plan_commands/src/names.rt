// Names that stand as literal texts, and the rules of the names of indexes.
ghost use Rattle.std.specs.Prelude.{◌≡◌, option_map};
ghost use Rattle.reql_datum.specs.Outcome.{Gives};
ghost use Rattle.reql_term.specs.View.{form_of};
ghost use Rattle.reql_faults.specs.Places.{text_in, text_at};
ghost use Rattle.reql_plan_spec.specs.Commands.{name_at as name_at_of, ruled as ruled_of, fresh as fresh_of};

use crate::texts::{bad_name, key_name};
use reql_catalog::is_name;
use reql_datum::{Datum, Fault, Name};
use reql_operand::same_text;
use reql_term::Term;
use std::alloc::Global;

fn text_of(term: &Term) -> Option<&Name>
    ensures { option_map (λ n. n.now) result ≡ text_in (form_of term.now) }
{
    match term {
        Term::Lit(Datum::Text(text)) => Some(text),
        _ => None,
    }
}

/// The literal text that an argument is, if it is one.
pub(crate) fn literal_text(term: Option<&Term>) -> Option<&Name>
    ensures { option_map (λ n. n.now) result
        ≡ text_at (option_map (λ t. form_of t.now) term.entry) }
{
    match term {
        Some(term) => text_of(term),
        None => None,
    }
}

/// The name that an argument is, empty where it is no literal text.
pub(crate) fn name_at(term: Option<&Term>) -> &str
    ensures { result.now ≡ name_at_of (option_map (λ t. form_of t.now) term.entry) }
{
    match literal_text(term) {
        Some(name) => name.as_str(),
        None => "",
    }
}

/// That a name keeps the rule of names.
pub(crate) fn ruled(alloc: Global, name: &str) -> Result<(), Fault>
    ensures { Gives (λ u. u) result (ruled_of name.now) }
{
    if is_name(name) {
        return Ok(());
    }
    Err(Fault::QueryLogic(bad_name(alloc)?))
}

/// That the name of an index is another than that of the key field.
pub(crate) fn fresh(alloc: Global, key: &str, name: &str) -> Result<(), Fault>
    ensures { Gives (λ u. u) result (fresh_of key.now name.now) }
{
    if same_text(name, key) {
        return Err(Fault::QueryLogic(key_name(alloc, name)?));
    }
    Ok(())
}

// Terms without terms in them, read from their tokens.
ghost use Rattle.std.specs.Prelude.{◌≡◌, ◌∷◌, ℕ, List, IfSome};
ghost use Rattle.json.specs.Token as token;
ghost use Rattle.reql_term.specs.View.{form_of};
ghost use Rattle.reql_read.specs.Quick.{ReadsForm, ReadsNumbered};
ghost use Rattle.reql_read.specs.Shape.{kind_of};
ghost use Rattle.reql_read.specs.declared.shape.Kind.TheVariants as kind;

use crate::quick_numbers::{integer, number};
use crate::quick_tokens::{close_array, open_array};
use json::Reader;
use reql_datum::{Datum, Name, Whole};
use reql_term::Term;
use std::alloc::Global;

/// The number that a text writes, as a term.
pub(crate) fn number_term(text: &str) -> Option<Term>
    ensures { IfSome result (λ t. (depth : ℕ) (r : List token.Token)
        → ReadsForm depth (token.number text.now ∷ r) (form_of t) r) }
{
    let z = integer(text)?;
    let n = Whole::new(z)?;
    Some(Term::Lit(Datum::Num(n)))
}

/// A text as a term.
pub(crate) fn text_term(alloc: Global, text: &str) -> Option<Term>
    ensures { IfSome result (λ t. (depth : ℕ) (r : List token.Token)
        → ReadsForm depth (token.string text.now ∷ r) (form_of t) r) }
{
    match Name::of(alloc, text) {
        Ok(name) => Some(Term::Lit(Datum::Text(name))),
        Err(_) => None,
    }
}

/// What follows the number of a variable.
pub(crate) fn read_variable(reader: &mut Reader<'_>, depth: usize) -> Option<Term>
    ensures { IfSome result (λ t. (n : ℕ) → kind_of n ≡ kind.Variable
        → ReadsNumbered depth n reader.old (form_of t) reader.new) }
{
    if depth == 0 {
        return None;
    }
    open_array(reader)?;
    let id = number(reader)?;
    close_array(reader)?;
    close_array(reader)?;
    Some(Term::Var(id))
}

/// What follows the number of the row.
pub(crate) fn read_row(reader: &mut Reader<'_>, depth: usize) -> Option<Term>
    ensures { IfSome result (λ t. (n : ℕ) → kind_of n ≡ kind.Row
        → ReadsNumbered depth n reader.old (form_of t) reader.new) }
{
    if depth == 0 {
        return None;
    }
    open_array(reader)?;
    close_array(reader)?;
    close_array(reader)?;
    Some(Term::Row)
}

// What stands in the places of a term.
ghost use Rattle.std.specs.Prelude.{◌≡◌, option_map, length};
ghost use Rattle.reql_datum.specs.View.{plain};
ghost use Rattle.reql_term.specs.Form.{Form, forms_of, named_of};
ghost use Rattle.reql_term.specs.View.{form_of};
ghost use Rattle.reql_faults.specs.Places.{plain_text, text_in, text_at, plain_truth, is_true, is_true_at, first, second, third, option, count};

use reql_datum::{Datum, Name};
use reql_term::{Term, TermFields, Terms};

/// A literal text.
pub(crate) fn text_in(term: &Term) -> Option<&Name>
    ensures { option_map (λ s. s.now) result ≡ text_in (form_of term.now) }
{
    match term {
        Term::Lit(Datum::Text(text)) => Some(text),
        _ => None,
    }
}

/// The literal text that an argument is, if it is there and is one.
pub(crate) fn text_at(term: Option<&Term>) -> Option<&Name>
    ensures { option_map (λ s. s.now) result ≡ text_at (option_map (λ t. form_of t.now) term.entry) }
{
    match term {
        Some(term) => text_in(term),
        None => None,
    }
}

fn is_true(term: &Term) -> bool
    ensures { result ≡ is_true (form_of term.now) }
{
    match term {
        Term::Lit(Datum::Bool(truth)) => *truth,
        _ => false,
    }
}

/// Whether an argument is there and is the literal true.
pub(crate) fn is_true_at(term: Option<&Term>) -> bool
    ensures { result ≡ is_true_at (option_map (λ t. form_of t.now) term.entry) }
{
    match term {
        Some(term) => is_true(term),
        None => false,
    }
}

#[tactic(auto, using(crate::proofs::Below::below))]
pub(crate) fn first(args: &Terms) -> Option<&Term>
    ensures { option_map (λ t. form_of t.now) result ≡ first (forms_of args.now) }
{
    args.at(0)
}

#[tactic(auto, using(crate::proofs::Below::below))]
pub(crate) fn second(args: &Terms) -> Option<&Term>
    ensures { option_map (λ t. form_of t.now) result ≡ second (forms_of args.now) }
{
    args.at(1)
}

#[tactic(auto, using(crate::proofs::Below::below))]
pub(crate) fn third(args: &Terms) -> Option<&Term>
    ensures { option_map (λ t. form_of t.now) result ≡ third (forms_of args.now) }
{
    args.at(2)
}

#[tactic(auto, using(crate::proofs::Below::below))]
pub(crate) fn count(args: &Terms) -> usize
    ensures { result ≡ count (forms_of args.now) }
{
    args.len()
}

#[tactic(auto, using(crate::proofs::Below::below))]
pub(crate) fn option<'a>(opts: &'a TermFields, name: &str) -> Option<&'a Term>
    ensures { option_map (λ t. form_of t.now) result ≡ option name.now (named_of opts.now) }
{
    opts.get(name)
}

// The arguments of an operator where it has so many, and its options.
ghost use Rattle.std.specs.Prelude.{◌≡◌, option_map};
ghost use Rattle.reql_feed_read.specs.Asked.{one_in, two_in, three_in, no_options, only_index, index_option};
ghost use Rattle.reql_term.specs.Form.{forms_of, named_of};
ghost use Rattle.reql_term.specs.View.{form_of};

use reql_datum::Name;
use reql_operand::same_text;
use reql_term::{Term, TermFields, Terms};

/// The argument, where it is the only one.
#[tactic(auto, using(crate::proofs::Counted::ones))]
pub(crate) fn one(args: &Terms) -> Option<&Term>
    ensures { option_map (λ t. form_of t.now) result ≡ one_in (forms_of args.now) }
{
    let Some(first) = args.at(0) else {
        return None;
    };
    let None = args.at(1) else {
        return None;
    };
    Some(first)
}

/// Both arguments, where there are two.
#[tactic(auto, using(crate::proofs::Counted::twos))]
pub(crate) fn two(args: &Terms) -> Option<(&Term, &Term)>
    ensures { option_map (λ p. (form_of p.0.now, form_of p.1.now)) result
        ≡ two_in (forms_of args.now) }
{
    let Some(first) = args.at(0) else {
        return None;
    };
    let Some(second) = args.at(1) else {
        return None;
    };
    let None = args.at(2) else {
        return None;
    };
    Some((first, second))
}

/// All arguments, where there are three.
#[tactic(auto, using(crate::proofs::Counted::threes))]
pub(crate) fn three(args: &Terms) -> Option<(&Term, &Term, &Term)>
    ensures { option_map (λ p. (form_of p.0.now, (form_of p.1.now, form_of p.2.now))) result
        ≡ three_in (forms_of args.now) }
{
    let Some(first) = args.at(0) else {
        return None;
    };
    let Some(second) = args.at(1) else {
        return None;
    };
    let Some(third) = args.at(2) else {
        return None;
    };
    let None = args.at(3) else {
        return None;
    };
    Some((first, second, third))
}

/// Whether there is no option.
pub(crate) fn are_none(opts: &TermFields) -> bool
    ensures { result ≡ no_options (named_of opts.now) }
{
    opts.is_empty()
}

fn if_index<'a>(name: &Name, term: &'a Term) -> Option<&'a Term>
    ensures { option_map (λ t. form_of t.now) result ≡ index_option name.now (form_of term.now) }
{
    if same_text(name.as_str(), "index") {
        return Some(term);
    }
    None
}

/// The option that names an index, where it is the only one.
#[tactic(auto, using(crate::proofs::Counted::options))]
pub(crate) fn index_of(opts: &TermFields) -> Option<&Term>
    ensures { option_map (λ t. form_of t.now) result ≡ only_index (named_of opts.now) }
{
    let Some((name, term)) = opts.at(0) else {
        return None;
    };
    let None = opts.at(1) else {
        return None;
    };
    if_index(name, term)
}

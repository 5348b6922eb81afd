// The name of an index, alone or with a direction.
ghost use Rattle.std.specs.Prelude.{◌≡◌, option_map, Some};
ghost use Rattle.reql_datum.specs.View.{plain};
ghost use Rattle.reql_feed_read.specs.Asked.{name_in, name_if as name_if_of, direction_in, towards as towards_of, directed as directed_of, pointed_in, pointed_if as pointed_if_of};
ghost use Rattle.reql_feed_read.specs.Seen.{pointed_of};
ghost use Rattle.reql_rules.specs.Types.{text_in};
ghost use Rattle.reql_term.specs.Form.{operation, forms_of, named_of};
ghost use Rattle.reql_term.specs.View.{form_of};

use crate::places::{are_none, one};
use reql_datum::{Datum, Name};
use reql_term::{Op, Term, TermFields, Terms};

/// The name of an index, and whether it goes from the greatest to the least.
#[derive(Drop)]
pub(crate) struct Target<'a> {
    pub(crate) name: &'a Name,
    pub(crate) down: bool,
}

fn text_of(value: &Datum) -> Option<&Name>
    ensures { option_map (λ n. n.now) result ≡ text_in (plain value.now) }
{
    match value {
        Datum::Text(name) => Some(name),
        _ => None,
    }
}

/// The name that a term is, where it is a literal text.
pub(crate) fn name_of(term: &Term) -> Option<&Name>
    ensures { option_map (λ n. n.now) result ≡ name_in (form_of term.now) }
{
    match term {
        Term::Lit(value) => text_of(value),
        Term::Arr(_)
        | Term::Obj(_)
        | Term::Var(_)
        | Term::Row
        | Term::Func(_, _)
        | Term::Slot(_)
        | Term::Op { .. } => None,
    }
}

fn name_if<'a>(term: Option<&'a Term>) -> Option<&'a Name>
    ensures { option_map (λ n. n.now) result
        ≡ name_if_of (option_map (λ t. form_of t.now) term.entry) }
{
    match term {
        None => None,
        Some(term) => name_of(term),
    }
}

fn direction(op: Op) -> Option<bool>
    ensures { result ≡ direction_in op }
{
    match op {
        Op::Asc => Some(false),
        Op::Desc => Some(true),
        _ => None,
    }
}

fn towards<'a>(down: bool, name: Option<&'a Name>) -> Option<Target<'a>>
    ensures { option_map pointed_of result
        ≡ towards_of down (option_map (λ n. n.now) name.entry) }
{
    match name {
        None => None,
        Some(name) => Some(Target { name, down }),
    }
}

fn directed<'a>(down: Option<bool>, term: Option<&'a Term>) -> Option<Target<'a>>
    ensures { option_map pointed_of result
        ≡ directed_of down (option_map (λ t. form_of t.now) term.entry) }
{
    match down {
        None => None,
        Some(down) => towards(down, name_if(term)),
    }
}

fn pointed_by<'a>(op: Op, args: &'a Terms, opts: &TermFields) -> Option<Target<'a>>
    ensures { option_map pointed_of result
        ≡ pointed_in (operation op (forms_of args.now) (named_of opts.now)) }
{
    if are_none(opts) {
        return directed(direction(op), one(args));
    }
    None
}

/// The index that a term names, with its direction: a name, or ASC or DESC of one.
pub(crate) fn pointed(term: &Term) -> Option<Target<'_>>
    ensures { option_map pointed_of result ≡ pointed_in (form_of term.now) }
{
    match term {
        Term::Op { op, args, opts } => pointed_by(*op, args, opts),
        Term::Lit(value) => towards(false, text_of(value)),
        Term::Arr(_) | Term::Obj(_) | Term::Var(_) | Term::Row | Term::Func(_, _) | Term::Slot(_) =>
            None,
    }
}

/// The same of a term that may be there.
pub(crate) fn pointed_if<'a>(term: Option<&'a Term>) -> Option<Target<'a>>
    ensures { option_map pointed_of result
        ≡ pointed_if_of (option_map (λ t. form_of t.now) term.entry) }
{
    match term {
        None => None,
        Some(term) => pointed(term),
    }
}

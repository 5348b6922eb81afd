// Terms that select rows of a table.
ghost use Rattle.std.specs.Prelude.{◌≡◌};
ghost use Rattle.reql_term.specs.Form.{forms_of};
ghost use Rattle.reql_term.specs.View.{form_of};
ghost use Rattle.reql_write_spec.specs.Selecting.{selects as selects_of, is_chain as is_chain_of, first_is_chain as first_is_chain_of};

use reql_term::{Op, Term, Terms};

// Whether an operator selects rows of what it is given first.
fn selects(op: Op) -> bool
    ensures { result ≡ selects_of op }
{
    match op {
        Op::Get
        | Op::GetAll
        | Op::Between
        | Op::Filter
        | Op::OrderBy
        | Op::Limit
        | Op::Skip
        | Op::Slice => true,
        _ => false,
    }
}

/// Whether a term is a table, or selects rows of what does.
#[cycle(chain)]
pub fn is_chain(term: &Term) -> bool
    ensures { result ≡ is_chain_of (form_of term.now) }
{
    match term {
        Term::Slot(_) => true,
        Term::Op { op, args, opts: _ } => {
            if selects(*op) {
                return first_is_chain(args);
            }
            false
        }
        _ => false,
    }
}

#[cycle(chain)]
fn first_is_chain(terms: &Terms) -> bool
    ensures { result ≡ first_is_chain_of (forms_of terms.now) }
{
    match terms.at(0) {
        Some(term) => is_chain(term),
        None => false,
    }
}

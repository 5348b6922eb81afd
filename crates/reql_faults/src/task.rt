// What a term asks for.
ghost use Rattle.std.specs.Prelude.{◌≡◌, option_map};
ghost use Rattle.reql_term.specs.Form.{forms_of};
ghost use Rattle.reql_term.specs.View.{form_of};
ghost use Rattle.reql_faults.specs.Faults.{is_write, are_writes, is_body, is_each, is_each_at, fits_task};

use crate::places::second;
use reql_term::{Task, Term, Terms};

fn is_write(term: &Term) -> bool
    ensures { result ≡ is_write (form_of term.now) }
{
    match term {
        Term::Op { op, .. } => matches!(op.task(), Task::Write),
        _ => false,
    }
}

fn are_writes(terms: &Terms) -> bool
    ensures { result ≡ are_writes (forms_of terms.now) }
{
    let mut place = 0;
    while let Some(term) = terms.at(place) {
        if !is_write(term) {
            return false;
        }
        place += 1;
    }
    true
}

fn is_body(term: &Term) -> bool
    ensures { result ≡ is_body (form_of term.now) }
{
    match term {
        Term::Arr(terms) => are_writes(terms),
        _ => is_write(term),
    }
}

#[tactic(auto, using(crate::proofs::Below::below))]
fn is_each(term: &Term) -> bool
    ensures { result ≡ is_each (form_of term.now) }
{
    match term {
        Term::Func(params, body) => params.len() == 1 && is_body(body.term()),
        _ => false,
    }
}

fn is_each_at(term: Option<&Term>) -> bool
    ensures { result ≡ is_each_at (option_map (λ t. form_of t.now) term.entry) }
{
    match term {
        Some(term) => is_each(term),
        None => false,
    }
}

/// Whether a term that asks for this has the arguments for it.
pub(crate) fn fits_task(task: Task, args: &Terms) -> bool
    ensures { result ≡ fits_task task (forms_of args.now) }
{
    match task {
        Task::ForEach => is_each_at(second(args)),
        _ => true,
    }
}

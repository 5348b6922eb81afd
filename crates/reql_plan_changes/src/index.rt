// The index that a range feed goes by.
ghost use Rattle.std.specs.Prelude.{◌≡◌, Err, codes, option_map};
ghost use Rattle.reql_datum.specs.Outcome.{Gives};
ghost use Rattle.reql_datum.specs.View.{plain};
ghost use Rattle.reql_term.specs.Form.{forms_of, named_of};
ghost use Rattle.reql_term.specs.View.{form_of};
ghost use Rattle.reql_rules.specs.Types.{mismatch, as_text as as_text_of};
ghost use Rattle.reql_value_spec.specs.Shapes.{is_stage as is_stage_of};
ghost use Rattle.reql_table_spec.specs.Followed.{literal_name as literal_name_of, literal_index as literal_index_of, index_in as index_in_of, shape_index as shape_index_of, first_index as first_index_of};

use crate::literals::text_in;
use reql_datum::{Datum, Fault, Name};
use reql_operand::{Value, misplaced, wrong};
use reql_term::{Op, Term, TermFields, Terms};
use std::alloc::Global;

// Whether an operator looks at one document each of what it is given first.
fn is_stage(op: Op) -> bool
    ensures { result ≡ is_stage_of op }
{
    match op {
        Op::Filter
        | Op::Map
        | Op::Pluck
        | Op::Without
        | Op::Merge
        | Op::HasFields
        | Op::WithFields => true,
        _ => false,
    }
}

// The fault that a text was wanted.
fn no_text(alloc: Global, datum: &Datum) -> Result<Name, Fault>
    ensures { Gives (λ n. n) result (Err (mismatch (codes "STRING") (plain datum.now))) }
{
    let value = Value::One(datum.copy()?);
    match wrong(alloc, "STRING", &value) {
        Err(fault) => Err(fault),
        Ok(_) => unreachable!(),
    }
}

fn as_text(alloc: Global, datum: &Datum) -> Result<Name, Fault>
    ensures { Gives (λ n. n) result (as_text_of (plain datum.now)) }
{
    match text_in(datum) {
        Some(text) => Ok(text.copy()?),
        None => no_text(alloc, datum),
    }
}

fn literal_name(alloc: Global, term: &Term) -> Result<Name, Fault>
    ensures { Gives (λ n. n) result (literal_name_of (form_of term.now)) }
{
    match term {
        Term::Lit(datum) => as_text(alloc, datum),
        _ => Err(Fault::QueryLogic(misplaced(alloc)?)),
    }
}

fn literal_index(alloc: Global, term: Option<&Term>) -> Result<Option<Name>, Fault>
    ensures { Gives (λ n. n) result
        (literal_index_of (option_map (λ t. form_of t.now) term.entry)) }
{
    match term {
        Some(term) => {
            let name = literal_name(alloc, term)?;
            Ok(Some(name))
        }
        None => Ok(None),
    }
}

#[tactic(auto, using(crate::proofs::Chosen::options_seen))]
fn index_in(alloc: Global, fields: &TermFields) -> Result<Option<Name>, Fault>
    ensures { Gives (λ n. n) result (index_in_of (named_of fields.now)) }
{
    literal_index(alloc, fields.get("index"))
}

/// The index of a range shape, none where it is the primary order.
#[cycle(index)]
pub(crate) fn shape_index(alloc: Global, term: &Term) -> Result<Option<Name>, Fault>
    ensures { Gives (λ n. n) result (shape_index_of (form_of term.now)) }
{
    match term {
        Term::Op { op, args, opts } => {
            if is_stage(*op) {
                return first_index(alloc, args);
            }
            index_in(alloc, opts)
        }
        Term::Lit(_)
        | Term::Arr(_)
        | Term::Obj(_)
        | Term::Var(_)
        | Term::Row
        | Term::Func(_, _)
        | Term::Slot(_) => Ok(None),
    }
}

#[cycle(index)]
fn first_index(alloc: Global, terms: &Terms) -> Result<Option<Name>, Fault>
    ensures { Gives (λ n. n) result (first_index_of (forms_of terms.now)) }
{
    match terms.at(0) {
        Some(term) => shape_index(alloc, term),
        None => Err(Fault::QueryLogic(misplaced(alloc)?)),
    }
}

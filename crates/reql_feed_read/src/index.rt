// The index that a shape names, and the one that a request is kept with.
ghost use Rattle.std.specs.Prelude.{◌≡◌, true, false, Some, IfOk, option_map, is_some};
ghost use Rattle.reql_datum.specs.View.{plain};
ghost use Rattle.reql_feed_read.specs.Follows.{IsThere, held_of};
ghost use Rattle.reql_feed_read.specs.Shapes.{agrees};
ghost use Rattle.reql_table_spec.specs.Followed.{shape_index, index_in, literal_index, is_same as is_same_of, first_index};
ghost use Rattle.reql_table_spec.specs.Table.{held};
ghost use Rattle.reql_table.specs.Seen.{indexes_of};
ghost use Rattle.reql_term.specs.Form.{literal, forms_of, named_of};
ghost use Rattle.reql_term.specs.View.{form_of};
ghost use Rattle.reql_term.specs.Views.{index_of};

use crate::range::is_stage;
use reql_datum::{Datum, Memory, Name};
use reql_operand::same_text;
use reql_table::{IndexDef, Table, TableView};
use reql_table_spec::FeedSpec;
use reql_term::{Term, TermFields, Terms};

/// Whether two names of indexes are the same, or both none.
pub(crate) fn is_same(named: Option<&Name>, asked: Option<&Name>) -> bool
    ensures { result ≡ is_same_of (option_map (λ n. n.now) named.entry)
        (option_map (λ n. n.now) asked.entry) }
{
    match named {
        None => asked.is_none(),
        Some(name) => match asked {
            None => false,
            Some(other) => same_text(name.as_str(), other.as_str()),
        },
    }
}

fn is_text(value: &Datum, asked: Option<&Name>) -> bool
    ensures { result ≡ agrees (option_map (λ n. n.now) asked.entry)
        (literal_index (Some (literal (plain value.now)))) }
{
    match value {
        Datum::Text(name) => is_same(Some(name), asked),
        _ => false,
    }
}

// Whether a term is a literal text that is the index asked for.
fn is_name(term: &Term, asked: Option<&Name>) -> bool
    ensures { result ≡ agrees (option_map (λ n. n.now) asked.entry)
        (literal_index (Some (form_of term.now))) }
{
    match term {
        Term::Lit(value) => is_text(value, asked),
        Term::Arr(_)
        | Term::Obj(_)
        | Term::Var(_)
        | Term::Row
        | Term::Func(_, _)
        | Term::Slot(_)
        | Term::Op { .. } => false,
    }
}

// Whether the option of the index is the one asked for.
#[tactic(auto, using(crate::proofs::Firsts::named_at, crate::proofs::Firsts::named_none))]
fn option_is(opts: &TermFields, asked: Option<&Name>) -> bool
    ensures { result ≡ agrees (option_map (λ n. n.now) asked.entry)
        (index_in (named_of opts.now)) }
{
    match opts.get("index") {
        None => is_same(None, asked),
        Some(term) => is_name(term, asked),
    }
}

/// Whether the index that a shape names, below all stages, is the one asked for.
#[cycle(named)]
pub(crate) fn names_index(term: &Term, asked: Option<&Name>) -> bool
    ensures { result ≡ agrees (option_map (λ n. n.now) asked.entry)
        (shape_index (form_of term.now)) }
{
    match term {
        Term::Op { op, args, opts } => {
            if is_stage(*op) {
                return first_names_index(args, asked);
            }
            option_is(opts, asked)
        }
        Term::Lit(_)
        | Term::Arr(_)
        | Term::Obj(_)
        | Term::Var(_)
        | Term::Row
        | Term::Func(_, _)
        | Term::Slot(_) => is_same(None, asked),
    }
}

#[cycle(named)]
#[tactic(auto, using(crate::proofs::Firsts::firsts))]
fn first_names_index(args: &Terms, asked: Option<&Name>) -> bool
    ensures { result ≡ agrees (option_map (λ n. n.now) asked.entry)
        (first_index (forms_of args.now)) }
{
    match args.at(0) {
        Some(first) => names_index(first, asked),
        None => false,
    }
}

// The definition under a name.
fn named(name: &Name, def: &IndexDef) -> Result<IndexDef, Memory>
    ensures name { IfOk result (λ d. d.name ≡ name.now) }
    ensures index { IfOk result (λ d. index_of d ≡ index_of def.now) }
{
    Ok(IndexDef {
        name: name.copy()?,
        func: def.func.copy()?,
        multi: def.multi,
    })
}

#[tactic(auto, using(crate::proofs::Named::kept_by_name, crate::proofs::Named::there_by_name))]
fn kept_at(spec: &FeedSpec, name: &Name, table: &Table) -> Result<Option<IndexDef>, Memory>
    requires asked { spec.now.index ≡ Some name.now }
    requires there { is_some (held (indexes_of table.now) spec.now) ≡ true }
    ensures held { IfOk result (λ o. held (indexes_of table.now) spec.now
        ≡ Some (held_of spec.now o)) }
    ensures there { IfOk result (λ o. IsThere o table.now) }
{
    if same_text(name.as_str(), spec.key.as_str()) {
        return Ok(None);
    }
    match table.index(name) {
        Some(def) => {
            let kept = named(name, def)?;
            Ok(Some(kept))
        }
        None => unreachable!(),
    }
}

/// The index that a request is kept with: the one that it names, by its name. None where it names none,
/// or the key field.
pub fn kept_index(spec: &FeedSpec, table: &Table) -> Result<Option<IndexDef>, Memory>
    requires there { is_some (held (indexes_of table.now) spec.now) ≡ true }
    ensures held { IfOk result (λ o. held (indexes_of table.now) spec.now
        ≡ Some (held_of spec.now o)) }
    ensures there { IfOk result (λ o. IsThere o table.now) }
{
    match &spec.index {
        None => Ok(None),
        Some(name) => kept_at(spec, name, table),
    }
}

// Terms by name and in order that are edited, and their copies, which stay. The terms are documents.
use reql_datum::{Datum, Items, Name};
use reql_term::{Params, Term, TermFields, Terms};
use rows_reader::{list, number, shown, text};
use std::alloc::Global;

fn put(alloc: Global, fields: &mut TermFields, name: &str, value: &Datum) -> Option<Option<Term>> {
    let key = Name::of(alloc, name).ok()?;
    let value = value.copy().ok()?;
    fields.put(key, Term::Lit(value)).ok()
}

// Terms by names, put in order: a list of [name, value].
fn made(alloc: Global, puts: &Items) -> Option<TermFields> {
    let mut fields = TermFields::new(alloc);
    for step in puts.as_slice() {
        let step = list(step)?;
        drop(put(alloc, &mut fields, text(step.at(0)?)?, step.at(1)?)?);
    }
    Some(fields)
}

fn term(alloc: Global, term: Option<&Term>) -> Option<String> {
    match term {
        Some(Term::Lit(document)) => shown(alloc, document),
        Some(_) => None,
        None => String::from_str(alloc, "none").ok(),
    }
}

// The terms by rising names.
fn members(alloc: Global, fields: &TermFields) -> Option<String> {
    let mut told = format!(in alloc; "{} names", fields.len()).ok()?;
    for place in 0..fields.len() {
        let (name, value) = fields.at(place)?;
        let value = term(alloc, Some(value))?;
        told.push_str(&format!(in alloc; " {}={value}", name.as_str()).ok()?)
            .ok()?;
    }
    Some(told)
}

fn replaced(alloc: Global, args: &Items) -> Option<String> {
    let mut fields = made(alloc, list(args.at(0)?)?)?;
    let shared = fields.copy().ok()?;
    let was = put(alloc, &mut fields, text(args.at(1)?)?, args.at(2)?)?;
    let was = term(alloc, was.as_ref())?;
    let after = members(alloc, &fields)?;
    let copy = members(alloc, &shared)?;
    format!(in alloc; "{was}, now {after}, copy {copy}").ok()
}

fn removed(alloc: Global, args: &Items) -> Option<String> {
    let mut fields = made(alloc, list(args.at(0)?)?)?;
    let shared = fields.copy().ok()?;
    let was = fields.remove(text(args.at(1)?)?).ok()?;
    let was = term(alloc, was.as_ref())?;
    let after = members(alloc, &fields)?;
    let copy = members(alloc, &shared)?;
    format!(in alloc; "{was}, left {after}, copy {copy}").ok()
}

fn push_all(terms: &mut Terms, more: &Items) -> Option<()> {
    for item in more.as_slice() {
        terms.push(Term::Lit(item.copy().ok()?)).ok()?;
    }
    Some(())
}

fn pushed(alloc: Global, args: &Items) -> Option<String> {
    let mut terms = Terms::new(alloc);
    push_all(&mut terms, list(args.at(0)?)?)?;
    let shared = terms.copy().ok()?;
    push_all(&mut terms, list(args.at(1)?)?)?;
    let last = term(alloc, terms.as_slice().last())?;
    format!(in alloc; "{} terms, {last} last, copy {}", terms.len(), shared.len()).ok()
}

// An id that is there already isn't pushed again.
fn push_new(params: &mut Params, id: u64) -> Option<()> {
    if params.as_slice().contains(&id) {
        return Some(());
    }
    params.push(id).ok()
}

fn push_ids(params: &mut Params, more: &Items) -> Option<()> {
    for item in more.as_slice() {
        push_new(params, u64::try_from(number(item)?).ok()?)?;
    }
    Some(())
}

fn ids_pushed(alloc: Global, args: &Items) -> Option<String> {
    let mut params = Params::new(alloc);
    push_ids(&mut params, list(args.at(0)?)?)?;
    let shared = params.copy().ok()?;
    push_ids(&mut params, list(args.at(1)?)?)?;
    format!(in alloc; "{} ids, copy {}", params.len(), shared.len()).ok()
}

/// Of terms by name, put in order as [name, value]: `term_replaced`, what was at a name at which a value
/// is put, what there is then, and a copy made before; `term_removed`, the same where the name is removed.
/// `terms_pushed` of two lists, and `params_pushed` of ids: one and then the other pushed, with a copy
/// made between.
pub(crate) fn term_call(alloc: Global, call: &str, args: &Items) -> Option<String> {
    match call {
        "term_replaced" => replaced(alloc, args),
        "term_removed" => removed(alloc, args),
        "terms_pushed" => pushed(alloc, args),
        "params_pushed" => ids_pushed(alloc, args),
        _ => None,
    }
}

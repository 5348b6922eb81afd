// Terms as rows write them.
use crate::words::{put, put_document, put_if, put_number};
use reql_datum::Datum;
use reql_term::{Op, Params, Term, TermFields, Terms};
use std::alloc::Global;

// Terms that are deeper aren't written.
const DEEP: u32 = 200;

/// Adds a term.
pub(crate) fn put_term(alloc: Global, out: &mut String, term: &Term) -> Option<()> {
    spell(alloc, out, term, DEEP)
}

// A document, in which MINVAL and MAXVAL stand by themselves alone.
fn literal(alloc: Global, out: &mut String, document: &Datum) -> Option<()> {
    match document {
        Datum::Low => put(out, "minval"),
        Datum::High => put(out, "maxval"),
        _ => put_document(alloc, out, document),
    }
}

fn put_params(alloc: Global, out: &mut String, params: &Params) -> Option<()> {
    for id in params.as_slice() {
        put_number(alloc, out, "v", *id)?;
        put(out, "|")?;
    }
    Some(())
}

fn put_op(alloc: Global, out: &mut String, op: Op) -> Option<()> {
    put_number(alloc, out, "", u64::from(op.number()))?;
    put(out, "(")
}

#[cycle(spell)]
fn spell(alloc: Global, out: &mut String, term: &Term, depth: u32) -> Option<()> {
    let deeper = depth.checked_sub(1)?;
    match term {
        Term::Lit(document) => literal(alloc, out, document),
        Term::Arr(terms) => {
            put(out, "2(")?;
            spell_terms(alloc, out, terms, deeper)?;
            put(out, ")")
        }
        Term::Obj(fields) => {
            put(out, "3(")?;
            spell_named(alloc, out, fields, deeper)?;
            put(out, ")")
        }
        Term::Var(id) => put_number(alloc, out, "v", *id),
        Term::Row => put(out, "row"),
        Term::Func(params, body) => {
            put(out, "|")?;
            put_params(alloc, out, params)?;
            spell(alloc, out, body.term(), deeper)
        }
        Term::Slot(slot) => put_number(alloc, out, "@", u64::from(*slot)),
        Term::Op { op, args, opts } => {
            put_op(alloc, out, *op)?;
            spell_terms(alloc, out, args, deeper)?;
            put_if(out, !opts.is_empty(), ";")?;
            spell_named(alloc, out, opts, deeper)?;
            put(out, ")")
        }
    }
}

#[cycle(spell)]
fn spell_terms(alloc: Global, out: &mut String, terms: &Terms, depth: u32) -> Option<()> {
    for place in 0..terms.len() {
        put_if(out, place > 0, ",")?;
        spell(alloc, out, terms.at(place)?, depth)?;
    }
    Some(())
}

#[cycle(spell)]
fn spell_named(alloc: Global, out: &mut String, fields: &TermFields, depth: u32) -> Option<()> {
    for place in 0..fields.len() {
        let (name, term) = fields.at(place)?;
        put_if(out, place > 0, ",")?;
        put(out, name.as_str())?;
        put(out, "=")?;
        spell(alloc, out, term, depth)?;
    }
    Some(())
}

// A term appended as JSON, with no value made for it.
ghost use Rattle.std.specs.Prelude.{◌≡◌, ◌++◌, ◌∷◌, [], false, decimal, OnOk};
ghost use Rattle.serde_json.specs.Data.{no_items, no_members};
ghost use Rattle.serde_json.specs.Written.{comma_if, compact_text, items_text, members_text};
ghost use Rattle.json.specs.Print.{quoted};
ghost use Rattle.reql_datum.specs.View.{plain};
ghost use Rattle.reql_term.specs.Form.{keyed, variable, function, forms_of, named_of};
ghost use Rattle.reql_term.specs.Table.{number_of};
ghost use Rattle.reql_term.specs.View.{form_of};
ghost use Rattle.reql_term.specs.declared.op.Op.TheVariants as op;
ghost use Rattle.reql_read.specs.Spelling.{call, spelled_ids, spelled_literal, spelled, spelled_all, spelled_named};

use reql_datum::{Datum, Name};
use reql_spell::{write_comma, write_document, write_number, write_text};
use reql_term::{Body, Op, Params, Term, TermFields, Terms};
use std::alloc::AllocError;

// A document that is no literal is written as null.
fn write_literal(out: &mut Vec<u8>, datum: &Datum) -> Result<(), AllocError>
    ensures { OnOk result (out.new.items
        ≡ out.old.items ++ compact_text (spelled_literal (plain datum.now))) }
{
    match datum {
        Datum::Low | Datum::High | Datum::List(_) | Datum::Obj(_) => {
            Ok(out.extend_from_slice(b"null")?)
        }
        _ => Ok(write_document(out, datum)?),
    }
}

// The ids of parameters, and the closing bracket.
fn write_ids(out: &mut Vec<u8>, ids: &[u64]) -> Result<(), AllocError>
    ensures { OnOk result (out.new.items
        ≡ out.old.items ++ items_text false (spelled_ids ids.now)) }
{
    let mut later = false;
    for &id in ids {
        write_number(out, later, id)?;
        later = true;
    }
    Ok(out.push(b']')?)
}

// The parameters of a function: an array of their ids.
#[tactic(auto, using(crate::proofs::Appended::appended))]
fn write_params(out: &mut Vec<u8>, params: &Params) -> Result<(), AllocError>
    ensures { OnOk result (out.new.items ≡ out.old.items
        ++ compact_text (call (number_of op.MakeArray) (spelled_ids params.now) no_members)) }
{
    if params.is_empty() {
        return Ok(write_bare(out, Op::MakeArray)?);
    }
    begin(out, Op::MakeArray)?;
    out.extend_from_slice(b",[")?;
    write_ids(out, params.as_slice())?;
    Ok(out.push(b']')?)
}

// The name of a member with its colon, and a comma before it where another stands there.
fn write_name(out: &mut Vec<u8>, later: bool, name: &Name) -> Result<(), AllocError>
    ensures { OnOk result (out.new.items
        ≡ out.old.items ++ (comma_if later ++ (quoted name.now ++ 58 ∷ []))) }
{
    write_comma(out, later)?;
    write_text(out, name.as_str())?;
    Ok(out.push(b':')?)
}

// The opening bracket of a term, and its number.
fn begin(out: &mut Vec<u8>, op: Op) -> Result<(), AllocError>
    ensures { OnOk result (out.new.items ≡ (out.old.items ++ 91 ∷ []) ++ decimal (number_of op)) }
{
    out.push(b'[')?;
    Ok(write_number(out, false, u64::from(op.number()))?)
}

// A term without arguments.
#[tactic(auto, using(crate::proofs::Appended::appended))]
fn write_bare(out: &mut Vec<u8>, op: Op) -> Result<(), AllocError>
    ensures { OnOk result (out.new.items
        ≡ out.old.items ++ compact_text (call (number_of op) no_items no_members)) }
{
    begin(out, op)?;
    Ok(out.push(b']')?)
}

// The value of a variable.
#[tactic(auto, using(crate::proofs::Appended::appended))]
fn write_variable(out: &mut Vec<u8>, id: u64) -> Result<(), AllocError>
    ensures { OnOk result (out.new.items
        ≡ out.old.items ++ compact_text (spelled (variable id))) }
{
    begin(out, Op::Var)?;
    out.extend_from_slice(b",[")?;
    write_number(out, false, id)?;
    Ok(out.extend_from_slice(b"]]")?)
}

/// Appends a term as JSON, as drivers write it. Null stands for what no body can hold: a slot, and a
/// document that is no literal.
#[cycle(write)]
pub fn write_term(out: &mut Vec<u8>, term: &Term) -> Result<(), AllocError>
    ensures { OnOk result (out.new.items
        ≡ out.old.items ++ compact_text (spelled (form_of term.now))) }
{
    match term {
        Term::Lit(datum) => Ok(write_literal(out, datum)?),
        Term::Arr(terms) => Ok(write_several(out, Op::MakeArray, terms)?),
        Term::Obj(fields) => Ok(write_object(out, fields)?),
        Term::Var(id) => Ok(write_variable(out, *id)?),
        Term::Row => Ok(write_bare(out, Op::ImplicitVar)?),
        Term::Func(params, body) => Ok(write_function(out, params, body)?),
        Term::Slot(_) => Ok(out.extend_from_slice(b"null")?),
        Term::Op { op, args, opts } => Ok(write_call(out, *op, args, opts)?),
    }
}

#[cycle(write)]
#[tactic(auto, using(crate::proofs::Appended::appended))]
fn write_object(out: &mut Vec<u8>, fields: &TermFields) -> Result<(), AllocError>
    ensures { OnOk result (out.new.items
        ≡ out.old.items ++ compact_text (spelled (keyed (named_of fields.now)))) }
{
    out.push(b'{')?;
    Ok(write_named(out, fields)?)
}

#[cycle(write)]
#[tactic(auto, using(crate::proofs::Appended::appended))]
fn write_function(out: &mut Vec<u8>, params: &Params, body: &Body) -> Result<(), AllocError>
    ensures { OnOk result (out.new.items
        ≡ out.old.items ++ compact_text (spelled (function params.now body.now))) }
{
    begin(out, Op::Func)?;
    out.extend_from_slice(b",[")?;
    write_params(out, params)?;
    out.push(b',')?;
    write_term(out, body.term())?;
    Ok(out.extend_from_slice(b"]]")?)
}

// A term of an operator with these arguments.
#[cycle(write)]
#[tactic(auto, using(crate::proofs::Appended::appended))]
fn write_several(out: &mut Vec<u8>, op: Op, args: &Terms) -> Result<(), AllocError>
    ensures { OnOk result (out.new.items ≡ out.old.items
        ++ compact_text (call (number_of op) (spelled_all (forms_of args.now)) no_members)) }
{
    if args.is_empty() {
        return Ok(write_bare(out, op)?);
    }
    begin(out, op)?;
    out.extend_from_slice(b",[")?;
    write_all(out, args)?;
    Ok(out.push(b']')?)
}

// A term of an operator with these arguments and optional arguments.
#[cycle(write)]
#[tactic(auto, using(crate::proofs::Appended::appended))]
fn write_call(out: &mut Vec<u8>, op: Op, args: &Terms, opts: &TermFields) -> Result<(), AllocError>
    ensures { OnOk result (out.new.items
        ≡ out.old.items ++ compact_text (call (number_of op) (spelled_all (forms_of args.now))
        (spelled_named (named_of opts.now)))) }
{
    if opts.is_empty() {
        return Ok(write_several(out, op, args)?);
    }
    begin(out, op)?;
    out.extend_from_slice(b",[")?;
    write_all(out, args)?;
    out.extend_from_slice(b",{")?;
    write_named(out, opts)?;
    Ok(out.push(b']')?)
}

// The terms of an array, and its closing bracket.
#[cycle(write)]
#[tactic(auto, using(crate::proofs::Below::below, reql_datum::proofs::Walks::walks))]
fn write_all(out: &mut Vec<u8>, terms: &Terms) -> Result<(), AllocError>
    ensures { OnOk result (out.new.items
        ≡ out.old.items ++ items_text false (spelled_all (forms_of terms.now))) }
{
    let mut place = 0;
    while let Some(term) = terms.at(place) {
        write_comma(out, place > 0)?;
        write_term(out, term)?;
        place += 1;
    }
    Ok(out.push(b']')?)
}

// The terms of an object by their names, and its closing bracket.
#[cycle(write)]
#[tactic(auto, using(crate::proofs::Below::below, reql_datum::proofs::Walks::walks))]
fn write_named(out: &mut Vec<u8>, fields: &TermFields) -> Result<(), AllocError>
    ensures { OnOk result (out.new.items
        ≡ out.old.items ++ members_text false (spelled_named (named_of fields.now))) }
{
    let mut place = 0;
    while let Some((name, term)) = fields.at(place) {
        write_name(out, place > 0, name)?;
        write_term(out, term)?;
        place += 1;
    }
    Ok(out.push(b'}')?)
}

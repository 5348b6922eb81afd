// Tables that rows describe.
use reql_datum::{Datum, Fields, Items, Name};
use reql_table::{Change, IndexDef, Table};
use reql_table_spec::Look;
use reql_term::{Body, Op, Params, Term, TermFields, Terms};
use rows_reader::{list, number, object, text};
use std::alloc::Global;

/// The number of a name, 0 where it is left out.
pub(crate) fn count_in(fields: &Fields, name: &str) -> Option<u64> {
    match fields.get(name) {
        None => Some(0),
        Some(value) => u64::try_from(number(value)?).ok(),
    }
}

/// A look at a table, or at one that was dropped where it is null.
pub(crate) fn look_of(alloc: Global, described: &Datum) -> Option<Look<Table>> {
    match described {
        Datum::Null => Some(Look {
            place: 0,
            stamp: 0,
            view: None,
        }),
        _ => table_seen(alloc, object(described)?),
    }
}

fn table_seen(alloc: Global, fields: &Fields) -> Option<Look<Table>> {
    let place = count_in(fields, "place")?;
    let stamp = count_in(fields, "stamp")?;
    let documents = with_documents(alloc, fields.get("docs"))?;
    let table = with_indexes(alloc, documents, fields.get("indexes"))?;
    Some(Look {
        place,
        stamp,
        view: Some(table),
    })
}

fn with_documents(alloc: Global, documents: Option<&Datum>) -> Option<Table> {
    let mut table = Table::new(alloc);
    let Some(documents) = documents else {
        return Some(table);
    };
    for document in list(documents)?.as_slice() {
        add_document(&mut table, document)?;
    }
    Some(table)
}

// A document is put in at its field `id`.
fn add_document(table: &mut Table, document: &Datum) -> Option<()> {
    let key = object(document)?.get("id")?.copy().ok()?;
    let new = document.copy().ok()?;
    let changes = [Change {
        key,
        old: None,
        new: Some(new),
    }];
    let prepared = table.prepare(&changes);
    drop(changes);
    table.install(prepared.ok()?);
    Some(())
}

fn with_indexes(alloc: Global, bare: Table, names: Option<&Datum>) -> Option<Table> {
    let mut table = bare;
    let Some(names) = names else {
        return Some(table);
    };
    for name in list(names)?.as_slice() {
        table = with_index(alloc, &table, name)?;
    }
    Some(table)
}

fn with_index(alloc: Global, table: &Table, described: &Datum) -> Option<Table> {
    let index = described_index(alloc, described)?;
    let more = table.with_index(&index);
    drop(index);
    more.ok()
}

// A name, a list of it for an index whose values are the members of arrays, or a name with those of
// the fields that the arrays of its values have.
fn described_index(alloc: Global, described: &Datum) -> Option<IndexDef> {
    match described {
        Datum::Text(name) => field_index(alloc, name.as_str(), false),
        Datum::List(names) => field_index(alloc, text(names.at(0)?)?, true),
        Datum::Obj(fields) => {
            let (name, parts) = fields.at(0)?;
            index_of(alloc, name.as_str(), fields_of(alloc, list(parts)?)?, false)
        }
        _ => None,
    }
}

fn field_index(alloc: Global, name: &str, multi: bool) -> Option<IndexDef> {
    index_of(alloc, name, field_of(alloc, name)?, multi)
}

// The index of a function of variable 0.
fn index_of(alloc: Global, name: &str, value: Term, multi: bool) -> Option<IndexDef> {
    let value = Body::new(alloc, value).ok()?;
    let mut params = Params::new(alloc);
    params.push(0).ok()?;
    let func = Body::new(alloc, Term::Func(params, value)).ok()?;
    let name = Name::of(alloc, name).ok()?;
    Some(IndexDef { name, func, multi })
}

fn field_of(alloc: Global, name: &str) -> Option<Term> {
    let mut args = Terms::new(alloc);
    args.push(Term::Var(0)).ok()?;
    let name = Name::of(alloc, name).ok()?;
    args.push(Term::Lit(Datum::Text(name))).ok()?;
    Some(Term::Op {
        op: Op::GetField,
        args,
        opts: TermFields::new(alloc),
    })
}

fn fields_of(alloc: Global, names: &Items) -> Option<Term> {
    let mut parts = Terms::new(alloc);
    for name in names.as_slice() {
        parts.push(field_of(alloc, text(name)?)?).ok()?;
    }
    Some(Term::Arr(parts))
}

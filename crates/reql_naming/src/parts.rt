// The names that stand in a term.
ghost use Rattle.std.specs.Prelude.{◌≡◌};
ghost use Rattle.reql_term.specs.Form.{forms_of};
ghost use Rattle.reql_term.specs.View.{form_of};
ghost use Rattle.reql_faults.specs.Places.{text_in};
ghost use Rattle.reql_naming.specs.Named.{text_or_empty, first_name, name_of_db, pair_of, db_of};

use reql_datum::Datum;
use reql_term::{Term, Terms};

/// The names of a database and of a table.
#[derive(Clone, Copy)]
pub struct Pair<'a> {
    pub db: &'a str,
    pub table: &'a str,
}

fn text_of(term: &Term) -> &str
    ensures { result.now ≡ text_or_empty (text_in (form_of term.now)) }
{
    match term {
        Term::Lit(Datum::Text(text)) => text.as_str(),
        _ => "",
    }
}

/// The name that the first argument is, empty where it is no literal text.
pub fn first_name(args: &Terms) -> &str
    ensures { result.now ≡ first_name (forms_of args.now) }
{
    match args.at(0) {
        Some(term) => text_of(term),
        None => "",
    }
}

fn name_of_db(term: &Term) -> &str
    ensures { result.now ≡ name_of_db (form_of term.now) }
{
    match term {
        Term::Op { args, .. } => first_name(args),
        _ => "",
    }
}

/// The database that the arguments name, or this one where they are none.
pub fn db_of<'a>(db: &'a str, args: &'a Terms) -> &'a str
    ensures { result.now ≡ db_of db.now (forms_of args.now) }
{
    match args.at(0) {
        Some(term) => name_of_db(term),
        None => db,
    }
}

/// The database and the table that the arguments name, in this database where they name none.
pub fn pair_of<'a>(db: &'a str, args: &'a Terms) -> Pair<'a>
    ensures { (result.db.now, result.table.now) ≡ pair_of db.now (forms_of args.now) }
{
    let Some(first) = args.at(0) else {
        return Pair { db, table: "" };
    };
    match args.at(1) {
        Some(second) => Pair {
            db: name_of_db(first),
            table: text_of(second),
        },
        None => Pair {
            db,
            table: text_of(first),
        },
    }
}

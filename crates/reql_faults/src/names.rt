// Names are literal texts.
ghost use Rattle.std.specs.Prelude.{◌≡◌, option_map};
ghost use Rattle.reql_term.specs.Form.{forms_of, named_of};
ghost use Rattle.reql_term.specs.View.{form_of};
ghost use Rattle.reql_faults.specs.Faults.{is_text_at, is_db, is_table_name, is_db_or_none, is_text_or_none, is_named};

use crate::places::{first, option, second, text_at, third};
use reql_term::{Naming, Term, TermFields, Terms};

fn is_text_at(term: Option<&Term>) -> bool
    ensures { result ≡ is_text_at (option_map (λ t. form_of t.now) term.entry) }
{
    text_at(term).is_some()
}

fn is_db(term: &Term) -> bool
    ensures { result ≡ is_db (form_of term.now) }
{
    match term {
        Term::Op { op, .. } => matches!(op.naming(), Naming::Database),
        _ => false,
    }
}

fn is_table_name(args: &Terms) -> bool
    ensures { result ≡ is_table_name (forms_of args.now) }
{
    let Some(before) = args.at(0) else {
        return false;
    };
    match args.at(1) {
        Some(name) => is_db(before) && is_text_at(Some(name)),
        None => is_text_at(Some(before)),
    }
}

fn is_db_or_none(args: &Terms) -> bool
    ensures { result ≡ is_db_or_none (forms_of args.now) }
{
    match args.at(0) {
        Some(db) => is_db(db),
        None => true,
    }
}

fn is_text_or_none(term: Option<&Term>) -> bool
    ensures { result ≡ is_text_or_none (option_map (λ t. form_of t.now) term.entry) }
{
    match term {
        Some(term) => is_text_at(Some(term)),
        None => true,
    }
}

/// Whether the names that a term gives are literal texts.
pub(crate) fn are_literal(naming: Naming, args: &Terms, opts: &TermFields) -> bool
    ensures { result ≡ is_named naming (forms_of args.now) (named_of opts.now) }
{
    match naming {
        Naming::Nothing => true,
        Naming::Database => is_text_at(first(args)),
        Naming::Table => is_table_name(args),
        Naming::Databases => true,
        Naming::Tables => is_db_or_none(args),
        Naming::CommandDatabase => is_text_at(first(args)),
        Naming::CommandTable => {
            is_table_name(args) && is_text_or_none(option(opts, "primary_key"))
        }
        Naming::Index => is_text_at(second(args)),
        Naming::TwoIndexes => is_text_at(second(args)) && is_text_at(third(args)),
    }
}

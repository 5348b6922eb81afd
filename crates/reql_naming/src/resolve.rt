// Names become slots.
ghost use Rattle.std.specs.Prelude.{◌≡◌, map, option_map, IfOk};
ghost use Rattle.reql_datum.specs.Outcome.{Gives};
ghost use Rattle.reql_term.specs.Form.{literal, several, keyed, forms_of, named_of};
ghost use Rattle.reql_term.specs.View.{form_of};
ghost use Rattle.reql_rewrite.specs.Rewrite.{rewritten};
ghost use Rattle.reql_naming.specs.Named.{checked_db, checked_table, tables_listed, by_naming, value_rule, is_command, with_options, command_answer, op_rule, names_rule, resolved};

use crate::parts::{Pair, db_of, first_name, pair_of};
use crate::texts::{bad_name, no_db, no_table};
use reql_catalog::{Names, is_name};
use reql_datum::{Fault, Items, Memory};
use reql_rewrite::{Rule, rewrite};
use reql_term::{Naming, Op, Term, TermFields, Terms};
use std::alloc::Global;

/// The rule of terms that are no commands on names.
#[derive(Drop)]
struct OfValues<'a> {
    names: &'a Names,
    db: &'a str,
}

/// The rule by which each table becomes its slot.
#[derive(Drop)]
struct OfRequests<'a> {
    names: &'a Names,
    db: &'a str,
}

impl Rule for OfValues<'_> {
    ghost rule = { λ s. value_rule s.names.now s.db.now };

    fn instead(&self, alloc: Global, term: &Term) -> Result<Option<Term>, Fault> {
        match term {
            Term::Op { op, args, .. } => by_naming(alloc, self.names, self.db, op.naming(), args),
            _ => Ok(None),
        }
    }

    fn passes(&self, term: &Term) -> bool {
        match term {
            Term::Op { .. } => false,
            _ => true,
        }
    }
}

impl Rule for OfRequests<'_> {
    ghost rule = { λ s. names_rule s.names.now s.db.now };

    fn instead(&self, alloc: Global, term: &Term) -> Result<Option<Term>, Fault> {
        match term {
            Term::Op { op, args, opts } => by_op(alloc, self.names, self.db, *op, args, opts),
            _ => Ok(None),
        }
    }

    fn passes(&self, term: &Term) -> bool {
        match term {
            Term::Op { .. } => false,
            _ => true,
        }
    }
}

/// The term of a request with its tables as slots, at one look at the catalogue, and what it asks of
/// names alone as a list of literals; or the fault of the first name in preorder that breaks the rule of
/// names or isn't there. A table's database, which is `db` where it is left out, comes before its own
/// name. What a command makes or drops is left to its reply.
pub fn resolved(alloc: Global, names: &Names, db: &str, term: &Term) -> Result<Term, Fault>
    ensures { Gives form_of result (resolved names.now db.now (form_of term.now)) }
{
    rewrite(alloc, &OfRequests { names, db }, term)
}

#[tactic(auto, unfolding(crate::specs::Named::op_rule))]
fn by_op(
    alloc: Global,
    names: &Names,
    db: &str,
    op: Op,
    args: &Terms,
    opts: &TermFields,
) -> Result<Option<Term>, Fault>
    ensures { Gives (option_map form_of) result (op_rule names.now db.now op (forms_of args.now)
        (named_of opts.now)) }
{
    let naming = op.naming();
    if is_command(naming) {
        return command(alloc, names, db, op, args, opts);
    }
    by_naming(alloc, names, db, naming, args)
}

fn command(
    alloc: Global,
    names: &Names,
    db: &str,
    op: Op,
    args: &Terms,
    opts: &TermFields,
) -> Result<Option<Term>, Fault>
    ensures { Gives (option_map form_of) result (command_answer names.now db.now op
        (forms_of args.now) (named_of opts.now)) }
{
    let options = looked_up(alloc, names, db, opts)?;
    let term = with_options(op, args, options)?;
    Ok(Some(term))
}

fn looked_up(alloc: Global, names: &Names, db: &str, opts: &TermFields) -> Result<Term, Fault>
    ensures { Gives form_of result (rewritten (value_rule names.now db.now)
        (keyed (named_of opts.now))) }
{
    let options = Term::Obj(opts.copy()?);
    rewrite(alloc, &OfValues { names, db }, &options)
}

fn is_command(naming: Naming) -> bool
    ensures { result ≡ is_command naming }
{
    match naming {
        Naming::CommandDatabase => true,
        Naming::CommandTable => true,
        _ => false,
    }
}

fn with_options(op: Op, args: &Terms, options: Term) -> Result<Term, Memory>
    ensures { IfOk result (λ t. form_of t ≡ with_options op (forms_of args.now) (form_of options)) }
{
    match options {
        Term::Obj(opts) => Ok(Term::Op {
            op,
            args: args.copy()?,
            opts,
        }),
        other => Ok(other),
    }
}

fn by_naming(
    alloc: Global,
    names: &Names,
    db: &str,
    naming: Naming,
    args: &Terms,
) -> Result<Option<Term>, Fault>
    ensures { Gives (option_map form_of) result (by_naming names.now db.now naming
        (forms_of args.now)) }
{
    match naming {
        Naming::Database => {
            check_db(alloc, names, first_name(args))?;
            Ok(None)
        }
        Naming::Table => check_table(alloc, names, pair_of(db, args)),
        Naming::Databases => Ok(Some(listed(alloc, &names.dbs(alloc)?)?)),
        Naming::Tables => tables(alloc, names, db_of(db, args)),
        _ => Ok(None),
    }
}

fn tables(alloc: Global, names: &Names, db: &str) -> Result<Option<Term>, Fault>
    ensures { Gives (option_map form_of) result (tables_listed names.now db.now) }
{
    check_db(alloc, names, db)?;
    Ok(Some(listed(alloc, &names.tables(alloc, db)?)?))
}

// A term that gives the array of these documents.
fn listed(alloc: Global, items: &Items) -> Result<Term, Memory>
    ensures { IfOk result (λ t. form_of t ≡ several (forms_of (map literal items.now))) }
{
    let mut terms = Terms::with_room(alloc, items.len())?;
    for item in items.as_slice() {
        terms.push(Term::Lit(item.copy()?))?;
    }
    Ok(Term::Arr(terms))
}

fn check_db(alloc: Global, names: &Names, db: &str) -> Result<(), Fault>
    ensures { Gives (λ u. u) result (checked_db names.now db.now) }
{
    if !is_name(db) {
        return Err(Fault::QueryLogic(bad_name(alloc)?));
    }
    if !names.has_db(db) {
        return Err(Fault::OpFailed(no_db(alloc, db)?));
    }
    Ok(())
}

fn check_table(alloc: Global, names: &Names, pair: Pair) -> Result<Option<Term>, Fault>
    ensures { Gives (option_map form_of) result (checked_table names.now
        (pair.entry.db.now, pair.entry.table.now)) }
{
    check_db(alloc, names, pair.db)?;
    if !is_name(pair.table) {
        return Err(Fault::QueryLogic(bad_name(alloc)?));
    }
    match names.slot(pair.db, pair.table) {
        Some(slot) => Ok(Some(Term::Slot(slot))),
        None => Err(Fault::OpFailed(no_table(alloc, pair.db, pair.table)?)),
    }
}

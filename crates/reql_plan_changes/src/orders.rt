// The indexes that limit feeds go by.
ghost use Rattle.std.specs.Prelude.{◌≡◌, option_map, option_and_then};
ghost use Rattle.std.specs.Option.{unwrap_or};
ghost use Rattle.reql_datum.specs.Outcome.{Gives};
ghost use Rattle.reql_term.specs.Form.{forms_of, named_of};
ghost use Rattle.reql_term.specs.View.{form_of};
ghost use Rattle.reql_term.specs.Views.{index_of};
ghost use Rattle.reql_operand.specs.Tables.{seen};
ghost use Rattle.reql_faults.specs.Places.{first as first_of};
ghost use Rattle.reql_plan_spec.specs.Reads.{args_of};
ghost use Rattle.reql_plan_spec.specs.Settled.{there as there_of};
ghost use Rattle.reql_plan_spec.specs.Feeding.{name_in as name_in_of, is_direction as is_direction_of, name_under as name_under_of, order_name as order_name_of, index_or as index_or_of, name_of_order as name_of_order_of, is_between as is_between_of, between_name as between_name_of, agrees as agrees_of, is_multi as is_multi_of, single as single_of, limit_index as limit_index_of};
ghost use Rattle.reql_plan_context.specs.Seen.{held};
ghost use Rattle.reql_plan_changes.specs.Tests.{name_among as name_among_of};

use crate::literals::name_in;
use crate::texts::multi_feed;
use reql_datum::{Fault, Name};
use reql_operand::{World, bad_option, misplaced, misplaced_order, same_text, table_at};
use reql_plan_context::{Held, first, first_at, option_at, there};
use reql_plan_results::key_field;
use reql_reads::first_slot;
use reql_term::{IndexDef, Op, TableView, Term, TermFields, Terms, Way};
use std::alloc::Global;

fn is_direction(way: Way) -> bool
    ensures { result ≡ is_direction_of way }
{
    match way {
        Way::Rising => true,
        Way::Falling => true,
        _ => false,
    }
}

// The name under ASC or DESC.
fn name_under(is_directed: bool, args: &Terms) -> Option<&Name>
    ensures { option_map (λ n. n.now) result
        ≡ name_under_of is_directed (first_of (forms_of args.now)) }
{
    if !is_directed {
        return None;
    }
    match first_at(args) {
        Some(term) => name_in(term),
        None => None,
    }
}

// The name that an order goes by, which may stand under ASC or DESC.
fn order_name(term: &Term) -> Option<&Name>
    ensures { option_map (λ n. n.now) result ≡ order_name_of (form_of term.now) }
{
    match term {
        Term::Op { op, args, opts: _ } => name_under(is_direction(op.way()), args),
        _ => name_in(term),
    }
}

fn index_or(alloc: Global, name: Option<&Name>) -> Result<&Name, Fault>
    ensures { Gives (λ n. n.now) result (index_or_of (option_map (λ n. n.now) name.entry)) }
{
    match name {
        Some(name) => Ok(name),
        None => Err(Fault::QueryLogic(bad_option(alloc, "index")?)),
    }
}

// The name of the index among these options.
fn name_among<'a>(alloc: Global, fields: &'a TermFields) -> Result<&'a Name, Fault>
    ensures { Gives (λ n. n.now) result (name_among_of (named_of fields.now)) }
{
    let index = there(alloc, option_at(fields, "index"))?;
    index_or(alloc, order_name(index))
}

// The name of the index that a term of ORDER_BY goes by.
fn name_of_order(alloc: Global, term: &Term) -> Result<&Name, Fault>
    ensures { Gives (λ n. n.now) result (name_of_order_of (form_of term.now)) }
{
    match term {
        Term::Op {
            op: _,
            args: _,
            opts,
        } => name_among(alloc, opts),
        _ => Err(Fault::QueryLogic(misplaced(alloc)?)),
    }
}

fn is_between(op: Op) -> bool
    ensures { result ≡ is_between_of op }
{
    match op {
        Op::Between => true,
        _ => false,
    }
}

fn option_name(term: Option<&Term>) -> Option<&Name>
    ensures { option_map (λ n. n.now) result
        ≡ option_and_then name_in_of (option_map (λ t. form_of t.now) term.entry) }
{
    match term {
        Some(term) => name_in(term),
        None => None,
    }
}

fn name_or<'a>(name: Option<&'a Name>, key: &'a str) -> &'a str
    ensures { result.now ≡ unwrap_or (option_map (λ n. n.now) name.entry) key.now }
{
    match name {
        Some(name) => name.as_str(),
        None => key,
    }
}

// The index of a BETWEEN, which is the key field where it names none.
fn between_name<'a>(key: &'a str, term: &'a Term) -> Option<&'a str>
    ensures { option_map (λ s. s.now) result ≡ between_name_of key.now (form_of term.now) }
{
    match term {
        Term::Op { op, args: _, opts } => {
            if !is_between(*op) {
                return None;
            }
            Some(name_or(option_name(option_at(opts, "index")), key))
        }
        _ => None,
    }
}

fn agrees(alloc: Global, name: &str, other: Option<&str>) -> Result<(), Fault>
    ensures { Gives (λ u. u) result (agrees_of name.now (option_map (λ s. s.now) other.entry)) }
{
    match other {
        None => Ok(()),
        Some(other) => {
            if same_text(name, other) {
                return Ok(());
            }
            Err(Fault::QueryLogic(misplaced_order(alloc)?))
        }
    }
}

fn is_multi(index: Option<&IndexDef>) -> bool
    ensures { result ≡ is_multi_of (option_map (λ d. index_of d.now) index.entry) }
{
    match index {
        Some(index) => index.multi,
        None => false,
    }
}

// That a name is of no multi index of a table.
fn single<V: TableView>(
    alloc: Global,
    world: &World<V>,
    slot: u32,
    name: &Name,
) -> Result<(), Fault>
    ensures { Gives (λ u. u) result (single_of (seen V.documents V.indexes V.entries world.now)
        slot name.now) }
{
    let table = table_at(alloc, world, slot)?;
    if is_multi(table.view.index(name)) {
        return Err(Fault::QueryLogic(multi_feed(alloc)?));
    }
    Ok(())
}

// What an order is over.
fn source(alloc: Global, order: &Term) -> Result<&Term, Fault>
    ensures { Gives (λ t. form_of t.now) result
        (there_of (first_of (args_of (form_of order.now)))) }
{
    match order {
        Term::Op {
            op: _,
            args,
            opts: _,
        } => first(alloc, args),
        _ => Err(Fault::QueryLogic(misplaced(alloc)?)),
    }
}

/// The index that a limit feed over an order goes by.
pub(crate) fn limit_index<V: TableView>(
    alloc: Global,
    request: &Held<V>,
    order: &Term,
) -> Result<Name, Fault>
    ensures { Gives (λ n. n) result (limit_index_of (held V.documents V.indexes V.entries
        request.now) (form_of order.now)) }
{
    let name = name_of_order(alloc, order)?;
    let term = source(alloc, order)?;
    let slot = first_slot(alloc, term)?;
    let key = key_field(alloc, &request.names, slot)?;
    agrees(alloc, name.as_str(), between_name(key.as_str(), term))?;
    single(alloc, &request.world, slot, name)?;
    Ok(name.copy()?)
}

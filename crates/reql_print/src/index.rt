// The function of an index as the text of a body.
ghost use Rattle.std.specs.Prelude.{◌≡◌, option_map, map, length, nat_le, true, if◌then◌else◌, IfOk, IfSome, MatchOption};
ghost use Rattle.std.specs.List.{filter};
ghost use Rattle.reql_datum.specs.Keys.{is_key};
ghost use Rattle.reql_datum.specs.Plain.{items_of, listed, null};
ghost use Rattle.reql_datum.specs.View.{plain};
ghost use Rattle.reql_term.specs.Form.{literal};
ghost use Rattle.reql_term.specs.View.{form_of};
ghost use Rattle.reql_print.specs.Indexed.{entry_constant as entry_constant_of, made as made_of, is_short as is_short_of, all_short as all_short_of, keeps_limits as keeps_limits_of, printed_constant as printed_constant_of, printed_index, IsNoLiteral, ReadsConstant, ReadsSameEntries};

use crate::body::print;
use reql_datum::{Datum, Items, Memory};
use reql_term::{Body, Term, Terms};
use std::alloc::Global;

// How many members an array may have in a function of an index.
const ARRAY_LIMIT: usize = 100_000;

// How deep a document may be.
const MAX_DEPTH: u32 = 100;

// The members of a list that are keys.
#[tactic(auto, using(reql_datum::proofs::Walks::walks, crate::proofs::Kept::kept))]
fn keys_in(alloc: Global, items: &Items) -> Result<Items, Memory>
    ensures { IfOk result (λ keys. keys ≡ filter is_key items.now) }
{
    let mut keys = Items::new(alloc);
    let mut place = 0;
    while let Some(item) = items.at(place) {
        if item.is_key() {
            keys.push(item.copy()?)?;
        }
        place += 1;
    }
    Ok(keys)
}

// The same, of the list as it stands in an array.
#[tactic(auto, using(crate::proofs::Kept::keys_listed))]
fn keys_listed(alloc: Global, items: &Items) -> Result<Items, Memory>
    ensures { IfOk result (λ keys. keys ≡ filter is_key (listed (items_of items.now))) }
{
    let keys = keys_in(alloc, items)?;
    Ok(keys)
}

fn key_or_null(datum: &Datum) -> Result<Datum, Memory>
    ensures { IfOk result (λ d. plain d ≡ (if is_key (plain datum.now) then plain datum.now else null)) }
{
    if datum.is_key() {
        return Ok(datum.copy()?);
    }
    Ok(Datum::Null)
}

fn entry_constant(alloc: Global, multi: bool, datum: &Datum) -> Result<Datum, Memory>
    ensures { IfOk result (λ d. plain d ≡ entry_constant_of multi (plain datum.now)) }
{
    if !multi {
        return Ok(key_or_null(datum)?);
    }
    match datum {
        Datum::List(items) => Ok(Datum::List(keys_listed(alloc, items)?)),
        _ => Ok(key_or_null(datum)?),
    }
}

// No more members than an array may have.
fn are_few(items: &Items) -> bool
    ensures { result ≡ nat_le (length (listed (items_of items.now))) 100000 }
{
    items.len() <= ARRAY_LIMIT
}

#[cycle(short)]
fn is_short(datum: &Datum) -> bool
    ensures { result ≡ is_short_of (plain datum.now) }
{
    match datum {
        Datum::List(items) => {
            if !are_few(items) {
                return false;
            }
            all_short(items)
        }
        _ => true,
    }
}

#[cycle(short)]
#[tactic(auto, using(reql_datum::proofs::Walks::walks))]
fn all_short(items: &Items) -> bool
    ensures { result ≡ all_short_of (items_of items.now) }
{
    let mut place = 0;
    while let Some(item) = items.at(place) {
        if !is_short(item) {
            return false;
        }
        place += 1;
    }
    true
}

fn keeps_limits(datum: &Datum) -> bool
    ensures { result ≡ keeps_limits_of (plain datum.now) }
{
    if datum.depth() > MAX_DEPTH {
        return false;
    }
    is_short(datum)
}

// The term that makes a constant.
#[cycle(made)]
#[tactic(auto, using(crate::proofs::Kept::all_made_of))]
fn made(alloc: Global, datum: &Datum) -> Result<Term, Memory>
    ensures { IfOk result (λ t. form_of t ≡ made_of (plain datum.now)) }
{
    match datum {
        Datum::List(items) => Ok(Term::Arr(all_made(alloc, items)?)),
        _ => Ok(Term::Lit(datum.copy()?)),
    }
}

#[cycle(made)]
#[tactic(auto, using(reql_datum::proofs::Walks::walks))]
fn all_made(alloc: Global, items: &Items) -> Result<Terms, Memory>
    ensures { IfOk result (λ terms. terms ≡ map made_of items.now) }
{
    let mut terms = Terms::with_room(alloc, items.len())?;
    let mut place = 0;
    while let Some(item) = items.at(place) {
        let term = made(alloc, item)?;
        terms.push(term)?;
        place += 1;
    }
    Ok(terms)
}

// A constant that keeps the limits.
fn print_kept(alloc: Global, datum: &Datum) -> Result<Option<Vec<u8>>, Memory>
    requires { keeps_limits_of (plain datum.now) ≡ true }
    ensures text { IfOk result
        (λ text. option_map (λ b. b.items) text ≡ printed_constant_of (plain datum.now)) }
    ensures reads_back { IfOk result (λ text. IfSome text
        (λ b. ReadsConstant (plain datum.now) b.items)) }
{
    let term = made(alloc, datum)?;
    let text = print(alloc, &term)?;
    drop(term);
    Ok(text)
}

#[tactic(auto, using(crate::proofs::Indexes::no_constant))]
fn print_constant(alloc: Global, datum: &Datum) -> Result<Option<Vec<u8>>, Memory>
    ensures text { IfOk result
        (λ text. option_map (λ b. b.items) text ≡ printed_constant_of (plain datum.now)) }
    ensures reads_back { IfOk result (λ text. IfSome text
        (λ b. ReadsConstant (plain datum.now) b.items)) }
{
    if !keeps_limits(datum) {
        return Ok(None);
    }
    let text = print_kept(alloc, datum)?;
    Ok(text)
}

fn print_literal(alloc: Global, datum: &Datum, multi: bool) -> Result<Option<Vec<u8>>, Memory>
    ensures text { IfOk result (λ text. option_map (λ b. b.items) text
        ≡ printed_index multi (literal (plain datum.now))) }
    ensures reads_back { IfOk result (λ text. IfSome text
        (λ b. ReadsSameEntries multi (literal (plain datum.now)) b.items)) }
{
    let constant = entry_constant(alloc, multi, datum)?;
    let text = print_constant(alloc, &constant)?;
    drop(constant);
    Ok(text)
}

fn literal_in(term: &Term) -> Option<&Datum>
    ensures { MatchOption result (IsNoLiteral (form_of term.now))
        (λ d. form_of term.now ≡ literal (plain d.now)) }
{
    match term {
        Term::Lit(datum) => Some(datum),
        Term::Arr(_) => None,
        Term::Obj(_) => None,
        Term::Var(_) => None,
        Term::Row => None,
        Term::Func(_, _) => None,
        Term::Slot(_) => None,
        Term::Op { .. } => None,
    }
}

fn print_function(alloc: Global, term: &Term, _multi: bool) -> Result<Option<Vec<u8>>, Memory>
    requires { IsNoLiteral (form_of term.now) }
    ensures text { IfOk result (λ text. option_map (λ b. b.items) text
        ≡ printed_index _multi (form_of term.now)) }
    ensures reads_back { IfOk result (λ text. IfSome text
        (λ b. ReadsSameEntries _multi (form_of term.now) b.items)) }
{
    let text = print(alloc, term)?;
    Ok(text)
}

/// The text of the query `[1,function]` for the function of an index: read back, it gives the same
/// entries on every document.
///
/// A function reads back as it is. A constant, which INDEX_CREATE may be given too, is printed as a
/// term that makes its arrays, null where it gives no entry. None where a function could not have
/// been read from a body, and where a constant's arrays of keys nest too deep to be read (63 levels,
/// or 62 around a binary or a time) or have more than 100000 members, so that no term makes them
/// outside of a request.
pub fn print_index(alloc: Global, func: &Body, multi: bool) -> Result<Option<Vec<u8>>, Memory>
    ensures text { IfOk result
        (λ text. option_map (λ b. b.items) text ≡ printed_index multi func.now) }
    ensures reads_back { IfOk result (λ text. IfSome text
        (λ b. ReadsSameEntries multi func.now b.items)) }
{
    let term = func.term();
    match literal_in(term) {
        Some(datum) => {
            let text = print_literal(alloc, datum, multi)?;
            Ok(text)
        }
        None => {
            let text = print_function(alloc, term, multi)?;
            Ok(text)
        }
    }
}

// The documents that a range shape reads, where its term says so by primary keys or by an index.
ghost use Rattle.std.specs.Prelude.{◌≡◌, [], drop, IfOk, List, option_map};
ghost use Rattle.std.specs.List.{list_any};
ghost use Rattle.std.specs.Ordering.{is_eq};
ghost use Rattle.reql_datum.specs.Answer.{Answer};
ghost use Rattle.reql_datum.specs.Order.{order};
ghost use Rattle.reql_datum.specs.Outcome.{Gives, Fails};
ghost use Rattle.reql_datum.specs.Plain.{Plain, null};
ghost use Rattle.reql_datum.specs.View.{plain};
ghost use Rattle.reql_feed_spec.specs.Watched.{lies_in as lies_in_of};
ghost use Rattle.reql_feed_read.specs.Follows.{indexes_in};
ghost use Rattle.reql_feed_read.specs.Seen.{part_of, places_of, source_of};
ghost use Rattle.reql_feed_read.specs.Shapes.{given};
ghost use Rattle.reql_feed_read.specs.Source.{at_keys as at_keys_of, base_source as base_source_of, everything as everything_of, first_source as first_source_of, holds as holds_of, in_part as in_part_of, index_source as index_source_of, is_get_all as is_get_all_of, keys_in as keys_in_of, keys_over as keys_over_of, may_hold as may_hold_of, places_in as places_in_of, source_in};
ghost use Rattle.reql_table_spec.specs.Followed.{closed_value};
ghost use Rattle.reql_rules.specs.Lists.{each};
ghost use Rattle.reql_term.specs.Form.{forms_of, named_of};
ghost use Rattle.reql_term.specs.View.{form_of};
ghost use Rattle.reql_term.specs.Views.{is_above as is_above_of, is_below as is_below_of};

use crate::copies::index_copy;
use crate::free::{Scope, is_free};
use crate::order::Part;
use crate::part::{names_by, part_by};
use crate::point::{datum_of, is_slot};
use crate::range::is_stage;
use reql_datum::{Datum, Fault, Items, Memory, Name, compare};
use reql_index::entries;
use reql_operand::misplaced;
use reql_table::{IndexDef, Table};
use reql_term::{Op, Term, TermFields, Terms};
use std::alloc::Global;

/// Places of an order.
#[derive(Drop)]
pub enum Places {
    /// A part of it.
    InPart(Part),
    /// Some keys.
    AtKeys(Items),
}

/// The documents of a table that a range shape can give something of: those that have an entry at
/// these places.
#[derive(Drop)]
pub struct Source {
    /// The index of the entries; none is the primary order, where a document has its key.
    pub index: Option<IndexDef>,
    pub places: Places,
}

fn is_above(is_open: bool, bottom: &Datum, key: &Datum) -> bool
    ensures { result ≡ is_above_of is_open (plain bottom.now) (plain key.now) }
{
    if is_open {
        compare(bottom, key).is_lt()
    } else {
        compare(bottom, key).is_le()
    }
}

fn is_below(is_open: bool, top: &Datum, key: &Datum) -> bool
    ensures { result ≡ is_below_of is_open (plain top.now) (plain key.now) }
{
    if is_open {
        compare(key, top).is_lt()
    } else {
        compare(key, top).is_le()
    }
}

fn lies_in(part: &Part, value: &Datum) -> bool
    ensures { result ≡ lies_in_of (part_of part.now) (plain value.now, (plain value.now, null)) }
{
    match part {
        Part::Whole => true,
        Part::Between {
            bottom,
            bottom_open,
            top,
            top_open,
        } => is_above(*bottom_open, bottom, value) && is_below(*top_open, top, value),
    }
}

#[tactic(auto, using(reql_datum::proofs::Walks::walks))]
fn is_one_of(keys: &Items, value: &Datum) -> bool
    ensures { result ≡ list_any (λ j. is_eq (order j (plain value.now))) keys.now }
{
    let mut place = 0;
    while let Some(other) = keys.at(place) {
        if compare(other, value).is_eq() {
            return true;
        }
        place += 1;
    }
    false
}

impl Places {
    fn hold(&self, value: &Datum) -> bool
        ensures { result ≡ holds_of (places_of self.now) (plain value.now) }
    {
        match self {
            Places::InPart(part) => lies_in(part, value),
            Places::AtKeys(keys) => is_one_of(keys, value),
        }
    }

    #[tactic(auto, using(reql_datum::proofs::Walks::walks))]
    fn hold_one(&self, values: &Items) -> bool
        ensures { result ≡ list_any (holds_of (places_of self.now)) values.now }
    {
        let mut place = 0;
        while let Some(value) = values.at(place) {
            if self.hold(value) {
                return true;
            }
            place += 1;
        }
        false
    }

    fn copy(&self) -> Result<Places, Memory>
        ensures { IfOk result (λ p. p ≡ self.now) }
    {
        match self {
            Places::InPart(part) => {
                let copy = part.copy()?;
                Ok(Places::InPart(copy))
            }
            Places::AtKeys(keys) => {
                let copy = keys.copy()?;
                Ok(Places::AtKeys(copy))
            }
        }
    }
}

impl Source {
    /// Whether a document may be one of them: where it isn't, the shape gives nothing of it. By the
    /// primary order that is told by its key alone, by an index of its entries there.
    #[tactic(auto, using(crate::proofs::Constants::one_value))]
    pub fn may_hold(&self, alloc: Global, key: &Datum, doc: &Datum) -> Result<bool, Memory>
        ensures { IfOk result (λ b. b
            ≡ may_hold_of (source_of self.now) (plain key.now, plain doc.now)) }
    {
        match &self.index {
            None => Ok(self.places.hold(key)),
            Some(def) => {
                let values = entries::<Table>(alloc, def, doc)?;
                Ok(self.places.hold_one(&values))
            }
        }
    }

    /// An equal source that shares what it holds.
    pub fn copy(&self) -> Result<Source, Memory>
        ensures { IfOk result (λ s. s ≡ self.now) }
    {
        Ok(Source {
            index: index_copy(&self.index)?,
            places: self.places.copy()?,
        })
    }
}

fn everything() -> Source
    ensures { source_of result ≡ everything_of }
{
    Source {
        index: None,
        places: Places::InPart(Part::Whole),
    }
}

// What a term gives that reads nothing from outside.
fn constant(alloc: Global, term: &Term) -> Result<Datum, Fault>
    ensures { Gives plain result (closed_value (form_of term.now)) }
{
    if !is_free(term, &Scope::Outside) {
        return Err(Fault::QueryLogic(misplaced(alloc)?));
    }
    datum_of(alloc, term)
}

// What the arguments after the first give.
#[tactic(auto, using(crate::proofs::Constants::constants, reql_datum::proofs::Walks::walks))]
fn constants(alloc: Global, args: &Terms) -> Result<Items, Fault>
    ensures { Gives (λ items. items) result (each closed_value (drop 1 args.now)) }
{
    let mut keys = Items::new(alloc);
    let mut place = 1;
    while let Some(term) = args.at(place) {
        let key = constant(alloc, term)?;
        keys.push(key)?;
        place += 1;
    }
    Ok(keys)
}

// A fault names no keys; want of memory is handed on.
fn no_keys(fault: &Fault) -> Result<Option<Items>, Memory>
    ensures { (a : Answer (List Plain)) → Fails fault.now a → IfOk result (λ o. o ≡ given a) }
{
    match fault {
        Fault::Memory => Err(Memory),
        _ => Ok(None),
    }
}

fn keys_given(alloc: Global, args: &Terms) -> Result<Option<Items>, Memory>
    ensures { IfOk result (λ o. o ≡ given (each closed_value (drop 1 args.now))) }
{
    match constants(alloc, args) {
        Ok(keys) => Ok(Some(keys)),
        Err(fault) => no_keys(&fault),
    }
}

// The keys that GET_ALL is given with a table.
#[tactic(auto, using(crate::proofs::Constants::no_first, crate::proofs::Constants::off_slot, crate::proofs::Constants::on_slot))]
fn keys_over(alloc: Global, args: &Terms) -> Result<Option<Items>, Memory>
    ensures { IfOk result (λ o. o ≡ keys_over_of (forms_of args.now)) }
{
    let Some(first) = args.at(0) else {
        return Ok(None);
    };
    if !is_slot(first) {
        return Ok(None);
    }
    let keys = keys_given(alloc, args)?;
    Ok(keys)
}

// Those that it is given by the index of a name.
fn keys_by(
    alloc: Global,
    key: &Name,
    name: &Name,
    args: &Terms,
    opts: &TermFields,
) -> Result<Option<Items>, Memory>
    ensures { IfOk result (λ o. o
        ≡ keys_in_of key.now name.now (forms_of args.now) (named_of opts.now)) }
{
    if names_by(key, name, opts) {
        let keys = keys_over(alloc, args)?;
        return Ok(keys);
    }
    Ok(None)
}

fn at_keys(keys: Option<Items>) -> Option<Places>
    ensures { option_map places_of result ≡ option_map at_keys_of keys }
{
    match keys {
        None => None,
        Some(keys) => Some(Places::AtKeys(keys)),
    }
}

fn in_part(part: Option<Part>) -> Option<Places>
    ensures { option_map places_of result ≡ option_map in_part_of (option_map part_of part) }
{
    match part {
        None => None,
        Some(part) => Some(Places::InPart(part)),
    }
}

fn is_get_all(op: Op) -> bool
    ensures { result ≡ is_get_all_of op }
{
    match op {
        Op::GetAll => true,
        _ => false,
    }
}

// The places that GET_ALL or BETWEEN names by the index of a name.
fn places_by(
    alloc: Global,
    key: &Name,
    name: &Name,
    op: Op,
    args: &Terms,
    opts: &TermFields,
) -> Result<Option<Places>, Memory>
    ensures { IfOk result (λ o. option_map places_of o
        ≡ places_in_of key.now name.now op (forms_of args.now) (named_of opts.now)) }
{
    if is_get_all(op) {
        let keys = keys_by(alloc, key, name, args, opts)?;
        return Ok(at_keys(keys));
    }
    let part = part_by(alloc, key, name, op, args, opts)?;
    Ok(in_part(part))
}

// By the index that is kept with the request.
fn index_source(
    alloc: Global,
    key: &Name,
    index: &Option<IndexDef>,
    op: Op,
    args: &Terms,
    opts: &TermFields,
) -> Result<Source, Memory>
    ensures { IfOk result (λ s. source_of s ≡ index_source_of key.now (indexes_in index.now) op
        (forms_of args.now) (named_of opts.now)) }
{
    let Some(def) = index else {
        return Ok(everything());
    };
    let copy = def.copy()?;
    match places_by(alloc, key, &def.name, op, args, opts)? {
        None => Ok(everything()),
        Some(places) => Ok(Source {
            index: Some(copy),
            places,
        }),
    }
}

fn base_source(
    alloc: Global,
    key: &Name,
    index: &Option<IndexDef>,
    op: Op,
    args: &Terms,
    opts: &TermFields,
) -> Result<Source, Memory>
    ensures { IfOk result (λ s. source_of s ≡ base_source_of key.now (indexes_in index.now) op
        (forms_of args.now) (named_of opts.now)) }
{
    match places_by(alloc, key, key, op, args, opts)? {
        None => index_source(alloc, key, index, op, args, opts),
        Some(places) => Ok(Source {
            index: None,
            places,
        }),
    }
}

/// The documents that the term of a shape reads, below all stages, by primary keys or by the index of
/// its request; all of them where it doesn't say so.
#[cycle(source)]
pub(crate) fn read_source(
    alloc: Global,
    key: &Name,
    index: &Option<IndexDef>,
    term: &Term,
) -> Result<Source, Memory>
    ensures { IfOk result (λ s. source_of s
        ≡ source_in key.now (indexes_in index.now) (form_of term.now)) }
{
    match term {
        Term::Op { op, args, opts } => {
            if is_stage(*op) {
                return first_source(alloc, key, index, args);
            }
            base_source(alloc, key, index, *op, args, opts)
        }
        Term::Lit(_)
        | Term::Arr(_)
        | Term::Obj(_)
        | Term::Var(_)
        | Term::Row
        | Term::Func(_, _)
        | Term::Slot(_) => Ok(everything()),
    }
}

#[cycle(source)]
#[tactic(auto, using(crate::proofs::Firsts::firsts, crate::proofs::Constants::source_at, crate::proofs::Constants::source_none))]
fn first_source(
    alloc: Global,
    key: &Name,
    index: &Option<IndexDef>,
    args: &Terms,
) -> Result<Source, Memory>
    ensures { IfOk result (λ s. source_of s
        ≡ first_source_of key.now (indexes_in index.now) (forms_of args.now)) }
{
    match args.at(0) {
        Some(first) => read_source(alloc, key, index, first),
        None => Ok(everything()),
    }
}

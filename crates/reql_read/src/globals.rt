// The options of a whole query.
ghost use Rattle.std.specs.Prelude.{◌≡◌, map, option_map, None, IfOk};
ghost use Rattle.serde_json.specs.Find.{as_bool, as_object};
ghost use Rattle.serde_json.specs.View.{view, items_view, members_view};
ghost use Rattle.reql_term.specs.Table.{is_among};
ghost use Rattle.reql_read.specs.Outcome.{Understands};
ghost use Rattle.reql_read.specs.Globals.{is_named, is_accepted, usual, only_text, are_none, are_no_options, db_args, is_number, db_term, db_in, limit_of, batch_of, profile_of, as_whole, choice_of, with_option, settings_from, settings_of, or_bad};
ghost use Rattle.reql_read.specs.Seen.{seen, optional};

use crate::fault::ReadFault;
use reql_datum::{Memory, Name};
use reql_term::Op;
use serde_json::{Map, Value};
use std::alloc::Global;

/// The options of a query: its default database, the length that an array may have, how many items
/// an answer holds at most, and whether it wants none.
#[derive(Drop)]
pub(crate) struct Settings {
    pub(crate) db: Name,
    pub(crate) array_limit: u64,
    pub(crate) batch: u32,
    pub(crate) noreply: bool,
}

// What an option sets, by its name.
#[derive(Clone, Copy)]
pub(crate) enum Choice {
    Db,
    Noreply,
    ArrayLimit,
    Batch,
    Profile,
    Accepted,
    Unknown,
}

/// Options that are accepted without effect.
pub(crate) const ACCEPTED: [&str; 10] = [
    "durability",
    "read_mode",
    "min_batch_rows",
    "max_batch_bytes",
    "max_batch_seconds",
    "first_batch_scaledown_factor",
    "identifier_format",
    "time_format",
    "group_format",
    "binary_format",
];

#[tactic(auto, unfolding(crate::specs::Globals::is_named))]
fn is_named(key: &str, name: &str) -> bool
    ensures { result ≡ is_named key.now name.now }
{
    key.cmp(name).is_eq()
}

fn is_among(names: &[&str], name: &str) -> bool
    ensures { result ≡ is_among (map (λ s. s.now) names.now) name.now }
{
    for known in names {
        if known.cmp(&name).is_eq() {
            return true;
        }
    }
    false
}

#[tactic(auto, unfolding(crate::specs::Globals::is_accepted))]
fn is_accepted(key: &str) -> bool
    ensures { result ≡ is_accepted key.now }
{
    is_among(&ACCEPTED, key)
}

#[tactic(auto, unfolding(crate::specs::Globals::choice_of))]
fn choice_of(key: &str) -> Choice
    ensures { result ≡ choice_of key.now }
{
    if is_named(key, "db") {
        Choice::Db
    } else if is_named(key, "noreply") {
        Choice::Noreply
    } else if is_named(key, "array_limit") {
        Choice::ArrayLimit
    } else if is_named(key, "max_batch_rows") {
        Choice::Batch
    } else if is_named(key, "profile") {
        Choice::Profile
    } else if is_accepted(key) {
        Choice::Accepted
    } else {
        Choice::Unknown
    }
}

// That an option is none, or has a bad value.
fn bad<T: Drop>(alloc: Global, key: &str) -> Result<T, ReadFault>
    ensures { Understands (λ x. x) result (or_bad key.now None) }
{
    Err(ReadFault::BadOptarg(Name::of(alloc, key)?))
}

fn only_text(items: &[Value]) -> Option<&str>
    ensures { option_map (λ s. s.now) result ≡ only_text (items_view items.now) }
{
    let [one, rest @ ..] = items else {
        return None;
    };
    let [] = rest else {
        return None;
    };
    one.as_str()
}

#[tactic(auto, using(crate::proofs::Weights::none_seen))]
fn are_none(options: &Value) -> bool
    ensures { result ≡ are_none (as_object (view options.now)) }
{
    match options.as_object() {
        Some(members) => members.len() == 0,
        None => false,
    }
}

fn are_no_options(rest: &[Value]) -> bool
    ensures { result ≡ are_no_options (items_view rest.now) }
{
    let [options, rest @ ..] = rest else {
        return true;
    };
    let [] = rest else {
        return false;
    };
    are_none(options)
}

fn db_args(rest: &[Value]) -> Option<&str>
    ensures { option_map (λ s. s.now) result ≡ db_args (items_view rest.now) }
{
    let [args, rest @ ..] = rest else {
        return None;
    };
    if are_no_options(rest) {
        only_text(args.as_array()?.as_slice())
    } else {
        None
    }
}

/// Whether a number was found, and is this one.
pub(crate) fn is_number(number: u64, found: Option<u64>) -> bool
    ensures { result ≡ is_number number found }
{
    match found {
        Some(found) => found == number,
        None => false,
    }
}

fn db_term(term: &[Value]) -> Option<&str>
    ensures { option_map (λ s. s.now) result ≡ db_term (items_view term.now) }
{
    let [number, rest @ ..] = term else {
        return None;
    };
    if is_number(u64::from(Op::Db.number()), number.as_u64()) {
        db_args(rest)
    } else {
        None
    }
}

// The name in a database term.
fn db_in(v: &Value) -> Option<&str>
    ensures { option_map (λ s. s.now) result ≡ db_in (view v.now) }
{
    db_term(v.as_array()?.as_slice())
}

fn db(alloc: Global, key: &str, v: &Value) -> Result<Name, ReadFault>
    ensures { Understands (λ n. n) result (or_bad key.now (db_in (view v.now))) }
{
    match db_in(v) {
        Some(name) => Ok(Name::of(alloc, name)?),
        None => bad(alloc, key),
    }
}

fn noreply(alloc: Global, key: &str, v: &Value) -> Result<bool, ReadFault>
    ensures { Understands (λ b. b) result (or_bad key.now (as_bool (view v.now))) }
{
    match v.as_bool() {
        Some(wanted) => Ok(wanted),
        None => bad(alloc, key),
    }
}

fn array_limit(alloc: Global, key: &str, v: &Value) -> Result<u64, ReadFault>
    ensures { Understands (λ n. n) result (or_bad key.now (limit_of (as_whole (view v.now)))) }
{
    match v.as_u64() {
        Some(limit) if limit >= 1 && limit <= 100_000_000 => Ok(limit),
        _ => bad(alloc, key),
    }
}

fn batch(alloc: Global, key: &str, v: &Value) -> Result<u32, ReadFault>
    ensures { Understands (λ n. n) result (or_bad key.now (batch_of (as_whole (view v.now)))) }
{
    match v.as_u64() {
        Some(rows) if rows >= 1 => Ok(if rows < 1000 { rows as u32 } else { 1000 }),
        _ => bad(alloc, key),
    }
}

// No profile is made.
fn profile(alloc: Global, key: &str, v: &Value) -> Result<(), ReadFault>
    ensures { Understands (λ t. t) result (or_bad key.now (profile_of (as_bool (view v.now)))) }
{
    match v.as_bool() {
        Some(false) => Ok(()),
        _ => bad(alloc, key),
    }
}

// The options with one more.
fn with_option(
    alloc: Global,
    mut settings: Settings,
    key: &str,
    v: &Value,
) -> Result<Settings, ReadFault>
    ensures { Understands (λ s. s) result (with_option settings key.now (view v.now)) }
{
    match choice_of(key) {
        Choice::Db => settings.db = db(alloc, key, v)?,
        Choice::Noreply => settings.noreply = noreply(alloc, key, v)?,
        Choice::ArrayLimit => settings.array_limit = array_limit(alloc, key, v)?,
        Choice::Batch => settings.batch = batch(alloc, key, v)?,
        Choice::Profile => profile(alloc, key, v)?,
        Choice::Accepted => {}
        Choice::Unknown => return bad(alloc, key),
    }
    Ok(settings)
}

pub(crate) fn usual(alloc: Global) -> Result<Settings, Memory>
    ensures { IfOk result (λ s. s ≡ usual) }
{
    Ok(Settings {
        db: Name::of(alloc, "test")?,
        array_limit: 100_000,
        batch: 1000,
        noreply: false,
    })
}

fn settings_from(
    alloc: Global,
    mut settings: Settings,
    members: &Map<String, Value>,
) -> Result<Settings, ReadFault>
    ensures { Understands (λ s. s) result (settings_from settings (seen members.now)) }
{
    for (key, member) in members.iter() {
        settings = with_option(alloc, settings, key.as_str(), member)?;
    }
    Ok(settings)
}

/// The options of a query.
#[tactic(auto, unfolding(crate::specs::Globals::settings_of))]
pub(crate) fn settings_of(
    alloc: Global,
    options: Option<&Map<String, Value>>,
) -> Result<Settings, ReadFault>
    ensures { Understands (λ s. s) result (settings_of (optional options.entry)) }
{
    let usual = usual(alloc)?;
    match options {
        Some(members) => settings_from(alloc, usual, members),
        None => Ok(usual),
    }
}

// FILTER.
ghost use Rattle.std.specs.Prelude.{◌≡◌, List, [], ◌∷◌, IfOk, Some, codes, map, option_map};
ghost use Rattle.reql_datum.specs.Answer.{Answer};
ghost use Rattle.reql_datum.specs.Members.{find};
ghost use Rattle.reql_datum.specs.Outcome.{Gives};
ghost use Rattle.reql_datum.specs.Plain.{Plain};
ghost use Rattle.reql_datum.specs.View.{plain};
ghost use Rattle.reql_rules.specs.Mapping.{filter_all};
ghost use Rattle.reql_value_spec.specs.Called.{answer_test as answer_test_of};
ghost use Rattle.reql_value_spec.specs.Meant.{Calls};
ghost use Rattle.reql_value_spec.specs.Sequenced.{alike_first};
ghost use Rattle.reql_value_spec.specs.Sequences.{filter_rule, by_default as by_default_of, by_error as by_error_of, default_given, in_its_place as in_its_place_of};
ghost use Rattle.reql_value_spec.specs.Wanted.{datum_in};
ghost use Rattle.reql_value_spec.specs.World.{World as Seen};
ghost use Rattle.reql_operand.specs.Called.{Answers};
ghost use Rattle.reql_operand.specs.Seen.{meant, shown, choice, answered, reason, all_shown, all_chosen};
ghost use Rattle.reql_operand.specs.Tables.{seen};
ghost use Rattle.reql_apply_seq.specs.Filtering.{missed_as, by_bool as by_bool_of};

use reql_datum::{Datum, Fault, Items, Memory};
use reql_operand::{
    Arg, Choice, Value, World, alike, answer_test, as_sequence, bad_option, find_choice, misplaced,
};
use reql_rules::Missing;
use reql_term::TableView;
use std::alloc::Global;

/// What is done with an element on which the test is NON_EXISTENCE, and the fault that is raised in
/// the place of that one, if any.
#[derive(Drop)]
pub(crate) struct Missed {
    missing: Missing,
    instead: Option<Fault>,
}

/// FILTER: the elements on which the function is true, or that fit the constant. Where it is
/// NON_EXISTENCE, `default` says whether the element goes, stays, or an ERROR is raised.
pub fn filter<V: TableView, F: Fn(usize, &[Datum]) -> Result<Value, Fault>>(
    alloc: Global,
    args: &[Arg],
    opts: &[Choice],
    world: &World<V>,
    call: &F,
) -> Result<Value, Fault>
    requires { F.IsAlwaysCallable call.now }
    ensures { let w = seen V.documents V.indexes V.entries world.now in
        (calls : Calls) → Answers w F.Fn call.now calls → Gives (meant w) result
        (alike_first filter_rule w calls (all_shown w args.now) (all_chosen w opts.now)) }
{
    match args {
        [source, f] => {
            let kept = all_kept(alloc, source, f, opts, world, call)?;
            Ok(alike(source, kept))
        }
        _ => Err(Fault::QueryLogic(misplaced(alloc)?)),
    }
}

fn all_kept<V: TableView, F: Fn(usize, &[Datum]) -> Result<Value, Fault>>(
    alloc: Global,
    source: &Arg,
    f: &Arg,
    opts: &[Choice],
    world: &World<V>,
    call: &F,
) -> Result<Items, Fault>
    requires { F.IsAlwaysCallable call.now }
    ensures { let w = seen V.documents V.indexes V.entries world.now in
        (calls : Calls) → Answers w F.Fn call.now calls → Gives (λ items. items) result
        (filter_rule w calls (shown w source.now ∷ shown w f.now ∷ []) (all_chosen w opts.now)) }
{
    let all = as_sequence(alloc, source, world)?;
    let missed = default_of(alloc, opts)?;
    kept_of(alloc, &all, f, missed, call)
}

fn kept_of<F: Fn(usize, &[Datum]) -> Result<Value, Fault>>(
    alloc: Global,
    items: &Items,
    f: &Arg,
    missed: Missed,
    call: &F,
) -> Result<Items, Fault>
    requires { F.IsAlwaysCallable call.now }
    ensures { (w : Seen) (calls : Calls) → Answers w F.Fn call.now calls → Gives (λ items. items)
        result (in_its_place_of (option_map reason missed.instead)
        (filter_all missed.missing (answer_test_of calls (shown w f.now)) items.now)) }
{
    let answer = filter_items(alloc, items, f, missed.missing, call);
    in_its_place(missed.instead, answer)
}

fn filter_items<F: Fn(usize, &[Datum]) -> Result<Value, Fault>>(
    alloc: Global,
    items: &Items,
    f: &Arg,
    missing: Missing,
    call: &F,
) -> Result<Items, Fault>
    requires { F.IsAlwaysCallable call.now }
    ensures { (w : Seen) (calls : Calls) → Answers w F.Fn call.now calls → Gives (λ items. items)
        result (filter_all missing (answer_test_of calls (shown w f.now)) items.now) }
{
    let test = |d: &Datum|
        requires { F.IsAlwaysCallable call.now }
    { answer_test(alloc, f, d, call) };
    reql_seq::filter(alloc, items, &test, missing)
}

fn default_of(alloc: Global, opts: &[Choice]) -> Result<Missed, Fault>
    ensures { (w : Seen) → Gives missed_as result
        (default_given (find (codes "default") (map (choice w) opts.now))) }
{
    match find_choice(opts, "default") {
        None => Ok(Missed {
            missing: Missing::Drop,
            instead: None,
        }),
        Some(arg) => default_in(alloc, arg),
    }
}

fn default_in(alloc: Global, arg: &Arg) -> Result<Missed, Fault>
    ensures { (w : Seen) → Gives missed_as result (default_given (Some (shown w arg.now))) }
{
    match arg {
        Arg::Late { texted, outcome } => by_error(alloc, *texted, outcome),
        Arg::Value(value) => by_bool(alloc, bool_of(value)),
        Arg::Function(_) => by_bool(alloc, None),
        Arg::Directed { down: _, key: _ } => by_bool(alloc, None),
    }
}

// An ERROR with a text is raised in the place of NON_EXISTENCE, and one without leaves it.
fn by_error(alloc: Global, texted: bool, outcome: &Result<Value, Fault>) -> Result<Missed, Fault>
    ensures { (w : Seen) → Gives missed_as result (by_error_of texted (answered w outcome.now)) }
{
    match outcome {
        Ok(_) => Err(Fault::QueryLogic(bad_option(alloc, "default")?)),
        Err(fault) => {
            if texted {
                return Ok(Missed {
                    missing: Missing::Raise,
                    instead: Some(copy_fault(fault)?),
                });
            }
            Ok(Missed {
                missing: Missing::Raise,
                instead: None,
            })
        }
    }
}

fn copy_fault(fault: &Fault) -> Result<Fault, Memory>
    ensures { IfOk result (λ f. f ≡ fault.now) }
{
    match fault {
        Fault::QueryLogic(text) => Ok(Fault::QueryLogic(text.copy()?)),
        Fault::NonExistence(text) => Ok(Fault::NonExistence(text.copy()?)),
        Fault::ResourceLimit(text) => Ok(Fault::ResourceLimit(text.copy()?)),
        Fault::OpFailed(text) => Ok(Fault::OpFailed(text.copy()?)),
        Fault::User(text) => Ok(Fault::User(text.copy()?)),
        Fault::Empty => Ok(Fault::Empty),
        Fault::Memory => Ok(Fault::Memory),
    }
}

// The truth value that a value is, if it is one.
fn bool_of(value: &Value) -> Option<bool>
    ensures { (w : Seen) → by_bool_of result ≡ by_default_of (datum_in (meant w value.now)) }
{
    match value {
        Value::One(d) => bool_in(d),
        Value::Row {
            slot: _,
            key: _,
            document,
        } => match document {
            Some(d) => bool_in(d),
            None => None,
        },
        _ => None,
    }
}

fn bool_in(d: &Datum) -> Option<bool>
    ensures { by_bool_of result ≡ by_default_of (Some (plain d.now)) }
{
    match d {
        Datum::Bool(b) => Some(*b),
        _ => None,
    }
}

fn by_bool(alloc: Global, given: Option<bool>) -> Result<Missed, Fault>
    ensures { Gives missed_as result (by_bool_of given) }
{
    match given {
        Some(true) => Ok(Missed {
            missing: Missing::Keep,
            instead: None,
        }),
        Some(false) => Ok(Missed {
            missing: Missing::Drop,
            instead: None,
        }),
        None => Err(Fault::QueryLogic(bad_option(alloc, "default")?)),
    }
}

// What was answered, with another fault in the place of NON_EXISTENCE.
fn in_its_place(instead: Option<Fault>, answer: Result<Items, Fault>) -> Result<Items, Fault>
    ensures { (a : Answer (List Plain)) → Gives (λ items. items) answer a
        → Gives (λ items. items) result (in_its_place_of (option_map reason instead) a) }
{
    match instead {
        None => answer,
        Some(fault) => raised_instead(fault, answer),
    }
}

fn raised_instead(fault: Fault, answer: Result<Items, Fault>) -> Result<Items, Fault>
    ensures { (a : Answer (List Plain)) → Gives (λ items. items) answer a
        → Gives (λ items. items) result (in_its_place_of (Some (reason fault)) a) }
{
    match answer {
        Ok(items) => Ok(items),
        Err(Fault::NonExistence(_)) => Err(fault),
        Err(other) => Err(other),
    }
}

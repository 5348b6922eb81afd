// DEFAULT.
ghost use Rattle.std.specs.Prelude.{◌≡◌};
ghost use Rattle.reql_datum.specs.Answer.{Answer};
ghost use Rattle.reql_datum.specs.Outcome.{Gives};
ghost use Rattle.reql_value_spec.specs.Lazy.{default_to as default_to_of, unless_nothing as unless_nothing_of};
ghost use Rattle.reql_value_spec.specs.Meant.{Meant};
ghost use Rattle.reql_value_spec.specs.Sense.{Sense};
ghost use Rattle.reql_value_spec.specs.Sequenced.{on_groups as on_groups_of};
ghost use Rattle.reql_value_spec.specs.World.{World as Seen, Vars as Frames};
ghost use Rattle.reql_operand.specs.Seen.{meant};
ghost use Rattle.reql_term_analysis.specs.Ways.{missing};
ghost use Rattle.reql_argument_order.specs.Kept.{kept, if_null as if_null_of};
ghost use Rattle.reql_argument_order.specs.Lent.{Tells};

use crate::groups::on_groups;
use reql_datum::{Datum, Fault, Name};
use reql_operand::{Value, sized};
use reql_term_analysis::{or_caught, something};
use std::alloc::Global;
use std::slice;

/// DEFAULT, by what its first argument gave: the second is told what is missing, and only where the
/// first is null or is not there.
pub fn default_to<F: Fn(&[Datum]) -> Result<Value, Fault>>(
    alloc: Global,
    limit: u64,
    first: Result<Value, Fault>,
    tell: &F,
) -> Result<Value, Fault>
    requires { F.IsAlwaysCallable tell.now }
    ensures { (w : Seen) (s : Sense) (vars : Frames) (a : Answer Meant) → w.array_limit ≡ limit
        → Tells w F.Fn tell.now s vars → Gives (meant w) first a
        → Gives (meant w) result (default_to_of s w vars a) }
{
    match first {
        Ok(value) => on_value(alloc, limit, value, tell),
        Err(Fault::NonExistence(why)) => if_missing(alloc, limit, why, tell),
        Err(fault) => Err(fault),
    }
}

// The first, group by group.
fn on_value<F: Fn(&[Datum]) -> Result<Value, Fault>>(
    alloc: Global,
    limit: u64,
    value: Value,
    tell: &F,
) -> Result<Value, Fault>
    requires { F.IsAlwaysCallable tell.now }
    ensures { (w : Seen) (s : Sense) (vars : Frames) → w.array_limit ≡ limit
        → Tells w F.Fn tell.now s vars
        → Gives (meant w) result (on_groups_of (kept s w vars) (meant w value)) }
{
    on_groups(
        alloc,
        value,
        &|found: Value|
            requires { F.IsAlwaysCallable tell.now }
            ensures { (w : Seen) (s : Sense) (vars : Frames) → w.array_limit ≡ limit
                → Tells w F.Fn tell.entry.now s vars
                → Gives (meant w) result (kept s w vars (meant w found)) }
        { keep(alloc, limit, found, tell) },
    )
}

// The same of a value that is not grouped, within the limits.
#[tactic(auto, unfolding(crate::specs::Kept::kept))]
fn keep<F: Fn(&[Datum]) -> Result<Value, Fault>>(
    alloc: Global,
    limit: u64,
    found: Value,
    tell: &F,
) -> Result<Value, Fault>
    requires { F.IsAlwaysCallable tell.now }
    ensures { (w : Seen) (s : Sense) (vars : Frames) → w.array_limit ≡ limit
        → Tells w F.Fn tell.now s vars → Gives (meant w) result (kept s w vars (meant w found)) }
{
    let value = unless_nothing(found, tell)?;
    sized(alloc, limit, value)
}

// The first, unless it is null.
fn unless_nothing<F: Fn(&[Datum]) -> Result<Value, Fault>>(
    found: Value,
    tell: &F,
) -> Result<Value, Fault>
    requires { F.IsAlwaysCallable tell.now }
    ensures { (w : Seen) (s : Sense) (vars : Frames) → Tells w F.Fn tell.now s vars
        → Gives (meant w) result (unless_nothing_of s w vars (meant w found)) }
{
    match something(found) {
        Some(value) => Ok(value),
        None => if_null(tell),
    }
}

// The second, where the first is null.
fn if_null<F: Fn(&[Datum]) -> Result<Value, Fault>>(tell: &F) -> Result<Value, Fault>
    requires { F.IsAlwaysCallable tell.now }
    ensures { (w : Seen) (s : Sense) (vars : Frames) → Tells w F.Fn tell.now s vars
        → Gives (meant w) result (if_null_of s w vars) }
{
    let null = Datum::Null;
    let given = tell(slice::from_ref(&null));
    or_caught(Ok(Value::One(Datum::Null)), given)
}

// The second, told why the first is not there.
fn if_missing<F: Fn(&[Datum]) -> Result<Value, Fault>>(
    alloc: Global,
    limit: u64,
    why: Name,
    tell: &F,
) -> Result<Value, Fault>
    requires { F.IsAlwaysCallable tell.now }
    ensures { (w : Seen) (s : Sense) (vars : Frames) → w.array_limit ≡ limit
        → Tells w F.Fn tell.now s vars → Gives (meant w) result (missing s w vars why) }
{
    let text = Datum::Text(why.copy()?);
    let given = tell(slice::from_ref(&text));
    let value = or_caught(Err(Fault::NonExistence(why)), given)?;
    sized(alloc, limit, value)
}

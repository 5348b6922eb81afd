// EPOCH_TIME and TO_EPOCH_TIME.
ghost use Rattle.std.specs.Prelude.{◌≡◌, pos};
ghost use Rattle.reql_datum.specs.Outcome.{Gives};
ghost use Rattle.reql_datum.specs.Plain.{time};
ghost use Rattle.reql_datum.specs.View.{plain};
ghost use Rattle.reql_value_spec.specs.Meant.{Calls, Options};
ghost use Rattle.reql_value_spec.specs.Scalars.{epoch_time as epoch_time_of, to_epoch_time as to_epoch_time_of};
ghost use Rattle.reql_value_spec.specs.World.{World as Seen};
ghost use Rattle.reql_operand.specs.Seen.{all_shown};

use reql_datum::{Datum, Fault, Moment, Whole};
use reql_operand::{Arg, as_number, as_time, misplaced};
use std::alloc::Global;

fn in_utc(at: Whole) -> Datum
    ensures { plain result ≡ time (at, pos 0) }
{
    match Moment::of(at, 0) {
        Some(moment) => Datum::Time(moment),
        None => unreachable!(),
    }
}

/// EPOCH_TIME: the time of so many seconds after 1970, in UTC.
pub fn epoch_time(alloc: Global, args: &[Arg]) -> Result<Datum, Fault>
    ensures { (w : Seen) (calls : Calls) (opts : Options) → Gives plain result
        (epoch_time_of w calls (all_shown w args.now) opts) }
{
    match args {
        [seconds] => Ok(in_utc(as_number(alloc, seconds)?)),
        _ => Err(Fault::QueryLogic(misplaced(alloc)?)),
    }
}

/// TO_EPOCH_TIME: the seconds of a time after 1970.
pub fn to_epoch_time(alloc: Global, args: &[Arg]) -> Result<Datum, Fault>
    ensures { (w : Seen) (calls : Calls) (opts : Options) → Gives plain result
        (to_epoch_time_of w calls (all_shown w args.now) opts) }
{
    match args {
        [time] => Ok(Datum::Num(as_time(alloc, time)?.at())),
        _ => Err(Fault::QueryLogic(misplaced(alloc)?)),
    }
}

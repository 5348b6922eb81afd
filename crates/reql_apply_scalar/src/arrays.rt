// APPEND, PREPEND, INSERT_AT, DELETE_AT, CHANGE_AT and SPLICE_AT, and arrays as sets.
ghost use Rattle.std.specs.Prelude.{◌≡◌};
ghost use Rattle.reql_datum.specs.Outcome.{Gives};
ghost use Rattle.reql_value_spec.specs.Arrays.{end_edit as end_edit_of, place_edit as place_edit_of, delete_at as delete_at_of, splice_at as splice_at_of, set_insert as set_insert_of, set_operation as set_operation_of};
ghost use Rattle.reql_value_spec.specs.Meant.{Calls, Options};
ghost use Rattle.reql_value_spec.specs.World.{World as Seen};
ghost use Rattle.reql_operand.specs.Seen.{all_shown};

use reql_datum::{Datum, Fault, Items};
use reql_operand::{Arg, as_array, as_datum, as_number, misplaced};
use reql_rules::{Edit, SetOp};
use reql_scalar::{edit, set};
use std::alloc::Global;

/// APPEND and PREPEND.
pub fn end_edit(alloc: Global, op: Edit, args: &[Arg]) -> Result<Items, Fault>
    ensures { (w : Seen) (calls : Calls) (opts : Options) → Gives (λ items. items) result
        (end_edit_of op w calls (all_shown w args.now) opts) }
{
    match args {
        [array, value] => {
            let list = as_array(alloc, array)?;
            let d = as_datum(alloc, value)?;
            edit(alloc, op, list, 0, &d)
        }
        _ => Err(Fault::QueryLogic(misplaced(alloc)?)),
    }
}

/// INSERT_AT and CHANGE_AT.
pub fn place_edit(alloc: Global, op: Edit, args: &[Arg]) -> Result<Items, Fault>
    ensures { (w : Seen) (calls : Calls) (opts : Options) → Gives (λ items. items) result
        (place_edit_of op w calls (all_shown w args.now) opts) }
{
    match args {
        [array, place, value] => {
            let list = as_array(alloc, array)?;
            let at = as_number(alloc, place)?;
            let d = as_datum(alloc, value)?;
            edit(alloc, op, list, at.get(), &d)
        }
        _ => Err(Fault::QueryLogic(misplaced(alloc)?)),
    }
}

/// DELETE_AT: one item, or those from one place up to another.
pub fn delete_at(alloc: Global, args: &[Arg]) -> Result<Items, Fault>
    ensures { (w : Seen) (calls : Calls) (opts : Options) → Gives (λ items. items) result
        (delete_at_of w calls (all_shown w args.now) opts) }
{
    match args {
        [array, place] => {
            let list = as_array(alloc, array)?;
            let at = as_number(alloc, place)?;
            edit(alloc, Edit::DeleteAt, list, at.get(), &Datum::Null)
        }
        [array, place, end] => {
            let list = as_array(alloc, array)?;
            let at = as_number(alloc, place)?;
            let to = as_number(alloc, end)?;
            edit(alloc, Edit::DeleteAt, list, at.get(), &Datum::Num(to))
        }
        _ => Err(Fault::QueryLogic(misplaced(alloc)?)),
    }
}

/// SPLICE_AT.
pub fn splice_at(alloc: Global, args: &[Arg]) -> Result<Items, Fault>
    ensures { (w : Seen) (calls : Calls) (opts : Options) → Gives (λ items. items) result
        (splice_at_of w calls (all_shown w args.now) opts) }
{
    match args {
        [array, place, more] => {
            let list = as_array(alloc, array)?;
            let at = as_number(alloc, place)?;
            let others = Datum::List(as_array(alloc, more)?.copy()?);
            edit(alloc, Edit::SpliceAt, list, at.get(), &others)
        }
        _ => Err(Fault::QueryLogic(misplaced(alloc)?)),
    }
}

/// SET_INSERT.
pub fn set_insert(alloc: Global, args: &[Arg]) -> Result<Items, Fault>
    ensures { (w : Seen) (calls : Calls) (opts : Options) → Gives (λ items. items) result
        (set_insert_of w calls (all_shown w args.now) opts) }
{
    match args {
        [array, value] => {
            let list = as_array(alloc, array)?;
            let d = as_datum(alloc, value)?;
            let mut one = Items::with_room(alloc, 1)?;
            one.push(d)?;
            Ok(set(alloc, SetOp::SetInsert, list, &one)?)
        }
        _ => Err(Fault::QueryLogic(misplaced(alloc)?)),
    }
}

/// SET_UNION, SET_INTERSECTION, SET_DIFFERENCE and DIFFERENCE.
pub fn set_operation(alloc: Global, op: SetOp, args: &[Arg]) -> Result<Items, Fault>
    ensures { (w : Seen) (calls : Calls) (opts : Options) → Gives (λ items. items) result
        (set_operation_of op w calls (all_shown w args.now) opts) }
{
    match args {
        [left, right] => {
            let list = as_array(alloc, left)?;
            let others = as_array(alloc, right)?;
            Ok(set(alloc, op, list, others)?)
        }
        _ => Err(Fault::QueryLogic(misplaced(alloc)?)),
    }
}

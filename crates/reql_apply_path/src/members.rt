// KEYS, VALUES and OBJECT.
ghost use Rattle.std.specs.Prelude.{◌≡◌, [], IfOk, map, true};
ghost use Rattle.reql_datum.specs.Outcome.{Gives};
ghost use Rattle.reql_datum.specs.Plain.{text};
ghost use Rattle.reql_datum.specs.View.{plain};
ghost use Rattle.reql_value_spec.specs.Fields.{keys_rule as keys_rule_of, values_rule as values_rule_of, object_rule as object_rule_of};
ghost use Rattle.reql_value_spec.specs.Meant.{Calls, Options};
ghost use Rattle.reql_value_spec.specs.World.{World as Seen};
ghost use Rattle.reql_operand.specs.Seen.{shown, all_shown};
ghost use Rattle.reql_apply_path.specs.Pairs.{are_pairs as are_pairs_of, put_pairs as put_pairs_of, put_one as put_one_of};

use reql_datum::{Datum, Fault, Fields, Items, Memory};
use reql_operand::{Arg, as_datum, as_object, as_text, misplaced};
use reql_scalar::ObjectBuilder;
use std::alloc::Global;

fn keys(alloc: Global, fields: &Fields) -> Result<Items, Memory>
    ensures { IfOk result (λ names. names ≡ map (λ m. text m.0) fields.now) }
{
    let mut names = Items::with_room(alloc, fields.len())?;
    let mut place = 0;
    while let Some((name, _value)) = fields.at(place) {
        let key = name.copy()?;
        names.push(Datum::Text(key))?;
        place += 1;
    }
    Ok(names)
}

/// KEYS: the names of an object, which rise.
pub fn keys_rule(alloc: Global, args: &[Arg]) -> Result<Datum, Fault>
    ensures { (w : Seen) (calls : Calls) (opts : Options) → Gives plain result
        (keys_rule_of w calls (all_shown w args.now) opts) }
{
    match args {
        [arg] => {
            let fields = as_object(alloc, arg)?;
            Ok(Datum::List(keys(alloc, &fields)?))
        }
        _ => Err(Fault::QueryLogic(misplaced(alloc)?)),
    }
}

fn values(alloc: Global, fields: &Fields) -> Result<Items, Memory>
    ensures { IfOk result (λ values. values ≡ map (λ m. m.1) fields.now) }
{
    let mut values = Items::with_room(alloc, fields.len())?;
    let mut place = 0;
    while let Some((_name, value)) = fields.at(place) {
        let copied = value.copy()?;
        values.push(copied)?;
        place += 1;
    }
    Ok(values)
}

/// VALUES: the values of an object, by its rising names.
pub fn values_rule(alloc: Global, args: &[Arg]) -> Result<Datum, Fault>
    ensures { (w : Seen) (calls : Calls) (opts : Options) → Gives plain result
        (values_rule_of w calls (all_shown w args.now) opts) }
{
    match args {
        [arg] => {
            let fields = as_object(alloc, arg)?;
            Ok(Datum::List(values(alloc, &fields)?))
        }
        _ => Err(Fault::QueryLogic(misplaced(alloc)?)),
    }
}

// Whether the arguments come two by two.
fn are_pairs(args: &[Arg]) -> bool
    ensures { (w : Seen) → result ≡ are_pairs_of (all_shown w args.now) }
{
    args.len() % 2 == 0
}

fn put_pair(alloc: Global, object: &mut ObjectBuilder, name: &Arg, value: &Arg) -> Result<(), Fault>
    ensures { (w : Seen) → Gives (λ _. object.new) result
        (put_one_of object.old (shown w name.now) (shown w value.now)) }
{
    let text = as_text(alloc, name)?;
    let d = as_datum(alloc, value)?;
    object.put_new(text, &d)
}

fn put_pairs(alloc: Global, args: &[Arg]) -> Result<Fields, Fault>
    ensures { (w : Seen) → Gives (λ fields. fields) result
        (put_pairs_of [] (all_shown w args.now)) }
{
    let mut object = ObjectBuilder::with_room(alloc, args.len() / 2)?;
    let mut rest = args;
    while let [name, value, more @ ..] = rest {
        put_pair(alloc, &mut object, name, value)?;
        rest = more;
    }
    let fields = object.build()?;
    Ok(fields)
}

/// OBJECT: the object of names and their values, which come two by two. A name that comes twice is
/// a fault.
pub fn object_rule(alloc: Global, args: &[Arg]) -> Result<Datum, Fault>
    ensures { (w : Seen) (calls : Calls) (opts : Options) → Gives plain result
        (object_rule_of w calls (all_shown w args.now) opts) }
{
    if !are_pairs(args) {
        return Err(Fault::QueryLogic(misplaced(alloc)?));
    }
    let fields = put_pairs(alloc, args)?;
    Ok(Datum::Obj(fields))
}

// GET_FIELD and BRACKET.
ghost use Rattle.std.specs.Prelude.{Err, codes, option_and_then};
ghost use Rattle.reql_datum.specs.Outcome.{Gives};
ghost use Rattle.reql_rules.specs.Types.{number_in, text_in};
ghost use Rattle.reql_value_spec.specs.Fields.{nth_rule as nth_rule_of, field_of as field_of_of, get_field_rule as get_field_rule_of, bracket as bracket_of};
ghost use Rattle.reql_value_spec.specs.Meant.{Calls, Options, meant_of};
ghost use Rattle.reql_value_spec.specs.Sequenced.{datum};
ghost use Rattle.reql_value_spec.specs.Wanted.{seen as seen_of, wrong as wrong_of};
ghost use Rattle.reql_value_spec.specs.World.{World as Seen};
ghost use Rattle.reql_operand.specs.Seen.{meant, shown, all_shown};
ghost use Rattle.reql_operand.specs.Tables.{seen};
ghost use Rattle.reql_apply_path.specs.Brackets.{bracket_at as bracket_at_of, bracket_named as bracket_named_of};
ghost use Rattle.reql_apply_path.specs.Subjects.{seen_subject};

use crate::places::nth_rule;
use crate::subjects::{Subject, field_subject};
use reql_datum::Fault;
use reql_operand::{
    Arg, Value, World, as_text, get_field, get_fields, like, misplaced, number_in_arg, text_in_arg,
    wrong_arg,
};
use reql_term::TableView;
use std::alloc::Global;

fn field_of(alloc: Global, arg: &Arg, name: &str, subject: &Subject) -> Result<Value, Fault>
    ensures { (w : Seen) → Gives (meant w) result
        (field_of_of (meant_of (shown w arg.now)) name.now (seen_subject subject.now)) }
{
    match subject {
        Subject::Object(d) => Ok(Value::One(get_field(alloc, name, d)?)),
        Subject::Elements(items) => Ok(like(arg, get_fields(alloc, name, items)?)),
    }
}

/// GET_FIELD: a field of an object, or those of the elements of a sequence that have it.
pub fn get_field_rule<V: TableView>(
    alloc: Global,
    args: &[Arg],
    world: &World<V>,
) -> Result<Value, Fault>
    ensures { let w = seen V.documents V.indexes V.entries world.now in
        (calls : Calls) (opts : Options) → Gives (meant w) result
        (get_field_rule_of w calls (all_shown w args.now) opts) }
{
    match args {
        [arg, text] => {
            let subject = field_subject(alloc, arg, world)?;
            let name = as_text(alloc, text)?;
            field_of(alloc, arg, name.as_str(), &subject)
        }
        _ => Err(Fault::QueryLogic(misplaced(alloc)?)),
    }
}

fn no_bracket(alloc: Global, arg: &Arg) -> Result<Value, Fault>
    ensures { (w : Seen) → Gives (meant w) result
        (Err (wrong_of (codes "STRING") (meant_of (shown w arg.now)))) }
{
    match wrong_arg(alloc, "STRING", arg) {
        Err(fault) => Err(fault),
        Ok(_) => unreachable!(),
    }
}

fn nth_value<V: TableView>(alloc: Global, args: &[Arg], world: &World<V>) -> Result<Value, Fault>
    ensures { let w = seen V.documents V.indexes V.entries world.now in
        (calls : Calls) (opts : Options) → Gives (meant w) result
        (datum nth_rule_of w calls (all_shown w args.now) opts) }
{
    let d = nth_rule(alloc, args, world)?;
    Ok(Value::One(d))
}

fn bracket_named<V: TableView>(
    alloc: Global,
    args: &[Arg],
    by: &Arg,
    world: &World<V>,
) -> Result<Value, Fault>
    ensures { let w = seen V.documents V.indexes V.entries world.now in
        (calls : Calls) (opts : Options) → Gives (meant w) result
        (bracket_named_of (option_and_then text_in (seen_of (shown w by.now))) w calls
        (all_shown w args.now) (shown w by.now) opts) }
{
    match text_in_arg(by) {
        Some(_) => get_field_rule(alloc, args, world),
        None => no_bracket(alloc, by),
    }
}

fn bracket_at<V: TableView>(
    alloc: Global,
    args: &[Arg],
    by: &Arg,
    world: &World<V>,
) -> Result<Value, Fault>
    ensures { let w = seen V.documents V.indexes V.entries world.now in
        (calls : Calls) (opts : Options) → Gives (meant w) result
        (bracket_at_of (option_and_then number_in (seen_of (shown w by.now)))
        (option_and_then text_in (seen_of (shown w by.now))) w calls (all_shown w args.now)
        (shown w by.now) opts) }
{
    match number_in_arg(by) {
        Some(_) => nth_value(alloc, args, world),
        None => bracket_named(alloc, args, by, world),
    }
}

/// BRACKET: a text takes a field, as GET_FIELD does, and a number an element, as NTH does.
pub fn bracket<V: TableView>(alloc: Global, args: &[Arg], world: &World<V>) -> Result<Value, Fault>
    ensures { let w = seen V.documents V.indexes V.entries world.now in
        (calls : Calls) (opts : Options) → Gives (meant w) result
        (bracket_of w calls (all_shown w args.now) opts) }
{
    match args {
        [_, by] => bracket_at(alloc, args, by, world),
        _ => Err(Fault::QueryLogic(misplaced(alloc)?)),
    }
}

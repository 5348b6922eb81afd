// HAS_FIELDS and WITH_FIELDS.
ghost use Rattle.std.specs.Prelude.{◌≡◌, [], ◌∷◌, ◌++◌, IfOk, if◌then◌else◌, map, true};
ghost use Rattle.reql_datum.specs.Answer.{query_logic};
ghost use Rattle.reql_datum.specs.Outcome.{Gives};
ghost use Rattle.reql_datum.specs.Plain.{items_of};
ghost use Rattle.reql_datum.specs.View.{plain};
ghost use Rattle.reql_rules.specs.Faults.{bad_pattern as bad_pattern_of};
ghost use Rattle.reql_rules.specs.Lists.{array_of};
ghost use Rattle.reql_rules.specs.Patterns.{is_pattern as is_pattern_of, are_patterns, pluck as pluck_of};
ghost use Rattle.reql_path.specs.Normal.{IfArray};
ghost use Rattle.reql_value_spec.specs.Fields.{patterns as patterns_of, has_all as has_all_of, having_one as having_one_of, having as having_of, has_fields_of as has_fields_of_of, has_fields_rule as has_fields_rule_of, with_fields as with_fields_of};
ghost use Rattle.reql_value_spec.specs.Meant.{Calls, Options, meant_of};
ghost use Rattle.reql_value_spec.specs.World.{World as Seen};
ghost use Rattle.reql_operand.specs.Seen.{meant, shown, all_shown};
ghost use Rattle.reql_operand.specs.Tables.{seen};
ghost use Rattle.reql_apply_path.specs.Subjects.{seen_subject};
ghost use Rattle.reql_apply_path.specs.Merged.{named_in, pattern_given, having_plucked};

use crate::elements::as_fields;
use crate::parts::pluck_one;
use crate::subjects::{Subject, field_subject};
use reql_datum::{Datum, Fault, Items, Memory, Name};
use reql_operand::{Arg, Value, World, as_datum, as_sequence, like, misplaced};
use reql_path::{PathFault, Pattern, has, is_pattern};
use reql_term::TableView;
use std::alloc::Global;

fn bad_pattern(alloc: Global) -> Result<Name, Memory>
    ensures { IfOk result (λ text. query_logic text ≡ bad_pattern_of) }
{
    Name::of(alloc, "Invalid field pattern.")
}

fn pattern_of(alloc: Global, arg: &Arg) -> Result<Datum, Fault>
    ensures pattern { (w : Seen) → Gives plain result (pattern_given (shown w arg.now)) }
    ensures good { IfOk result (λ d. is_pattern_of (plain d) ≡ true) }
{
    let d = as_datum(alloc, arg)?;
    if !is_pattern(&d) {
        return Err(Fault::QueryLogic(bad_pattern(alloc)?));
    }
    Ok(d)
}

fn documents(alloc: Global, args: &[Arg]) -> Result<Items, Fault>
    ensures items { (w : Seen) → Gives (λ items. items) result
        (patterns_of (all_shown w args.now)) }
    ensures good { IfOk result (λ items. are_patterns (items_of items) ≡ true) }
{
    let mut items = Items::with_room(alloc, args.len())?;
    for arg in args {
        let d = pattern_of(alloc, arg)?;
        items.push(d)?;
    }
    Ok(items)
}

/// The arguments as one pattern, which names what they name.
#[tactic(auto, using(reql_datum::proofs::Back::back))]
pub(crate) fn patterns(alloc: Global, args: &[Arg]) -> Result<Pattern, Fault>
    ensures patterns { (w : Seen) → Gives named_in result (patterns_of (all_shown w args.now)) }
    ensures array { IfOk result (λ p. p ≡ array_of (named_in p)) }
{
    let items = documents(alloc, args)?;
    match Pattern::of(alloc, &Datum::List(items)) {
        Ok(pattern) => Ok(pattern),
        Err(PathFault::BadPattern) => unreachable!(),
        Err(PathFault::Memory) => Err(Fault::Memory),
    }
}

fn has_all(alloc: Global, pattern: &Pattern, d: &Datum) -> Result<bool, Fault>
    ensures { IfArray pattern.now (λ ps. Gives (λ b. b) result (has_all_of ps (plain d.now))) }
{
    let fields = as_fields(alloc, d)?;
    Ok(has(fields, pattern))
}

// Null has nothing, and is no fault.
fn element_has(alloc: Global, pattern: &Pattern, d: &Datum) -> Result<bool, Fault>
    ensures { IfArray pattern.now (λ ps. Gives (λ b. if b then plain d.now ∷ [] else []) result
        (having_one_of ps (plain d.now))) }
{
    match d {
        Datum::Null => Ok(false),
        _ => has_all(alloc, pattern, d),
    }
}

fn keep(kept: &mut Items, passes: bool, d: &Datum) -> Result<(), Memory>
    ensures { IfOk result (λ _. kept.new ≡ kept.old ++ (if passes then plain d.now ∷ [] else [])) }
{
    if passes {
        let copied = d.copy()?;
        kept.push(copied)?;
    }
    Ok(())
}

// The elements that have all that a pattern names.
fn those_having(alloc: Global, pattern: &Pattern, items: &Items) -> Result<Items, Fault>
    ensures { IfArray pattern.now (λ ps. Gives (λ kept. kept) result (having_of ps items.now)) }
{
    let mut kept = Items::new(alloc);
    let mut place = 0;
    while let Some(d) = items.at(place) {
        let passes = element_has(alloc, pattern, d)?;
        keep(&mut kept, passes, d)?;
        place += 1;
    }
    Ok(kept)
}

fn has_fields_of(
    alloc: Global,
    arg: &Arg,
    pattern: &Pattern,
    subject: &Subject,
) -> Result<Value, Fault>
    ensures { (w : Seen) → IfArray pattern.now (λ ps. Gives (meant w) result
        (has_fields_of_of (meant_of (shown w arg.now)) ps (seen_subject subject.now))) }
{
    match subject {
        Subject::Object(d) => Ok(Value::One(Datum::Bool(has_all(alloc, pattern, d)?))),
        Subject::Elements(items) => Ok(like(arg, those_having(alloc, pattern, items)?)),
    }
}

/// HAS_FIELDS: whether an object has all that the patterns name, or the elements of a sequence that
/// do.
pub fn has_fields_rule<V: TableView>(
    alloc: Global,
    args: &[Arg],
    world: &World<V>,
) -> Result<Value, Fault>
    ensures { let w = seen V.documents V.indexes V.entries world.now in
        (calls : Calls) (opts : Options) → Gives (meant w) result
        (has_fields_rule_of w calls (all_shown w args.now) opts) }
{
    match args {
        [arg, rest @ ..] => {
            let subject = field_subject(alloc, arg, world)?;
            let pattern = patterns(alloc, rest)?;
            has_fields_of(alloc, arg, &pattern, &subject)
        }
        [] => Err(Fault::QueryLogic(misplaced(alloc)?)),
    }
}

// What a pattern names of each object.
fn plucked(alloc: Global, pattern: &Pattern, items: &Items) -> Result<Items, Memory>
    ensures { IfArray pattern.now (λ ps. IfOk result (λ r. r ≡ map (pluck_of ps) items.now)) }
{
    let mut parts = Items::with_room(alloc, items.len())?;
    let mut place = 0;
    while let Some(d) = items.at(place) {
        let part = pluck_one(alloc, pattern, d)?;
        parts.push(part)?;
        place += 1;
    }
    Ok(parts)
}

// What a pattern names of each object that has it all.
fn those_plucked(alloc: Global, pattern: &Pattern, items: &Items) -> Result<Items, Fault>
    ensures { IfArray pattern.now (λ ps. Gives (λ parts. parts) result
        (having_plucked ps items.now)) }
{
    let kept = those_having(alloc, pattern, items)?;
    Ok(plucked(alloc, pattern, &kept)?)
}

/// WITH_FIELDS: what the patterns name of each element that has it all.
pub fn with_fields<V: TableView>(
    alloc: Global,
    args: &[Arg],
    world: &World<V>,
) -> Result<Items, Fault>
    ensures { let w = seen V.documents V.indexes V.entries world.now in
        (calls : Calls) (opts : Options) → Gives (λ items. items) result
        (with_fields_of w calls (all_shown w args.now) opts) }
{
    match args {
        [arg, rest @ ..] => {
            let items = as_sequence(alloc, arg, world)?;
            let pattern = patterns(alloc, rest)?;
            those_plucked(alloc, &pattern, &items)
        }
        [] => Err(Fault::QueryLogic(misplaced(alloc)?)),
    }
}

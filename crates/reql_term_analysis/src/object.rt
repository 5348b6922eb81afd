// The object of what terms by rising name gave.
ghost use Rattle.std.specs.Prelude.{◌≡◌, List, ℕ, ◌∷◌, [], ◌++◌, map, IfOk};
ghost use Rattle.std.specs.List.Sorted.{IsStrictlySortedBy};
ghost use Rattle.std.specs.Map.{keys_of};
ghost use Rattle.reql_datum.specs.Answer.{Answer};
ghost use Rattle.reql_datum.specs.Members.{text_order};
ghost use Rattle.reql_datum.specs.Outcome.{Gives};
ghost use Rattle.reql_datum.specs.Plain.{Plain};
ghost use Rattle.reql_datum.specs.View.{plain};
ghost use Rattle.reql_rules.specs.Lists.{Bytes, each};
ghost use Rattle.reql_value_spec.specs.Meaning.{member_datum};
ghost use Rattle.reql_value_spec.specs.World.{World as Seen};
ghost use Rattle.reql_operand.specs.Seen.{meant, all_chosen};
ghost use Rattle.reql_term_analysis.specs.Ways.{members_within, object_sized};

use reql_datum::{Datum, Fault, Fields, Memory, Name};
use reql_operand::{Choice, Value, as_datum, sized};
use std::alloc::Global;

/// The object of what terms by rising name gave, within the limits. A value that is no document is
/// a fault.
pub fn object_of(alloc: Global, limit: u64, choices: &[Choice]) -> Result<Value, Fault>
    requires { IsStrictlySortedBy text_order (map (λ o. o.name) choices.now) }
    ensures { (w : Seen) → Gives (meant w) result
        (members_within limit (all_chosen w choices.now)) }
{
    object_within(alloc, limit, members_of(alloc, choices))
}

#[tactic(auto, using(reql_operand::proofs::Steps::fails_on))]
fn object_within(alloc: Global, limit: u64, found: Result<Fields, Fault>) -> Result<Value, Fault>
    ensures { (w : Seen) (a : Answer (List (Bytes × Plain))) → Gives (λ fields. fields) found a
        → Gives (meant w) result (object_sized limit a) }
{
    match found {
        Ok(fields) => sized(alloc, limit, Value::One(Datum::Obj(fields))),
        Err(fault) => Err(fault),
    }
}

fn members_of(alloc: Global, choices: &[Choice]) -> Result<Fields, Fault>
    requires { IsStrictlySortedBy text_order (map (λ o. o.name) choices.now) }
    ensures { (w : Seen) → Gives (λ fields. fields) result
        (each member_datum (all_chosen w choices.now)) }
{
    let mut fields = Fields::with_room(alloc, choices.len())?;
    for choice in choices {
        let d = as_datum(alloc, &choice.arg)?;
        let name = choice.name.copy()?;
        put_last(&mut fields, name, d)?;
    }
    Ok(fields)
}

// A member after all others.
#[tactic(auto, using(crate::proofs::Objects::put_last))]
fn put_last(fields: &mut Fields, name: Name, d: Datum) -> Result<(), Memory>
    ensures { (later : List (List ℕ)) →
        IsStrictlySortedBy text_order (keys_of fields.old ++ name ∷ later)
        → IfOk result (λ u. fields.new ≡ fields.old ++ (name, plain d) ∷ []) }
{
    fields.set(name, d)?;
    Ok(())
}

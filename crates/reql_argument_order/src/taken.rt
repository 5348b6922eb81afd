// Arguments from left to right.
ghost use Rattle.std.specs.Prelude.{◌≡◌, List, MatchOption, Ok};
ghost use Rattle.reql_datum.specs.Outcome.{Gives};
ghost use Rattle.reql_term.specs.View.{form_of};
ghost use Rattle.reql_value_spec.specs.Meaning.{sense};
ghost use Rattle.reql_value_spec.specs.Sense.{Sense, argument, option, arguments as arguments_of};
ghost use Rattle.reql_value_spec.specs.World.{World as Seen, Vars as Frames};
ghost use Rattle.reql_operand.specs.Seen.{key, all_shown};
ghost use Rattle.reql_argument_order.specs.Lent.{Take, Takes};

use reql_datum::Fault;
use reql_operand::{Arg, Callee, Key};
use reql_term::Term;
use reql_term_analysis::shape;
use std::alloc::Global;

/// The function that stands at a place, to be called later. A term that is none is evaluated once,
/// whatever it is an argument of.
#[tactic(auto, using(reql_term_analysis::proofs::Senses::callee_argument, reql_term_analysis::proofs::Senses::value_argument))]
pub fn function_at(term: &Term, at: usize) -> Option<Key>
    ensures { (w : Seen) (vars : Frames) → MatchOption result
        (argument at (sense (form_of term.now)) w vars ≡ option (sense (form_of term.now)) w vars)
        (λ k. argument at (sense (form_of term.now)) w vars ≡ Ok (key w k)) }
{
    match shape(term) {
        Some(makes_object) => Some(Key::Function(Callee { at, makes_object })),
        None => None,
    }
}

/// So many arguments from left to right, up to the first fault.
pub fn arguments<F: Fn(usize) -> Result<Arg, Fault>>(
    alloc: Global,
    count: usize,
    take: &F,
) -> Result<Vec<Arg>, Fault>
    requires { F.IsAlwaysCallable take.now }
    ensures { (w : Seen) (how : Take) (ss : List Sense) (vars : Frames)
        → Takes w F.Fn take.now how count ss vars
        → Gives (λ gs. all_shown w gs.items) result (arguments_of how 0 ss w vars) }
{
    let mut found = Vec::new(alloc);
    let mut place = 0;
    while place < count {
        let arg = take(place)?;
        found.push(arg)?;
        place += 1;
    }
    Ok(found)
}

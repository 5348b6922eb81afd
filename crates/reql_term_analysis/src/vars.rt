// The bound variables.
ghost use Rattle.std.specs.Prelude.{◌≡◌, Ok, Err, MatchOption, option_map, map};
ghost use Rattle.std.specs.List.{zip};
ghost use Rattle.reql_datum.specs.Outcome.{Gives};
ghost use Rattle.reql_datum.specs.View.{plain};
ghost use Rattle.reql_rules.specs.Faults.{misplaced};
ghost use Rattle.reql_value_spec.specs.World.{variable_at, implicit_at, in_frame as in_frame_of, only as only_of};
ghost use Rattle.reql_term_analysis.specs.Bound.{bound};

use reql_datum::{Datum, Fault};
use reql_operand::misplaced;
use std::alloc::Global;

/// The bound variables: a frame for each function around, the innermost first.
#[derive(Clone, Copy)]
pub enum Vars<'a> {
    /// No variable.
    Empty,
    /// The parameters of a function with their values, and the variables around it.
    Frame {
        ids: &'a [u64],
        values: &'a [Datum],
        up: &'a Vars<'a>,
    },
}

/// What a search for a variable costs, in units of a purse: one for so many parameters of the functions
/// around.
pub fn reach(vars: &Vars) -> u64 {
    match vars {
        Vars::Empty => 0,
        Vars::Frame { ids, values: _, up } => (ids.len() as u64 / 32).saturating_add(reach(up)),
    }
}

/// The value of a variable where it lies, if one of that id is bound.
pub fn lookup<'a>(id: u64, vars: &'a Vars<'a>) -> Option<&'a Datum>
    ensures { MatchOption result (variable_at id (bound vars.now) ≡ Err misplaced)
        (λ d. variable_at id (bound vars.now) ≡ Ok (plain d.now)) }
{
    match vars {
        Vars::Empty => None,
        Vars::Frame { ids, values, up } => match in_frame(id, ids, values) {
            Some(d) => Some(d),
            None => lookup(id, up),
        },
    }
}

/// The value of a variable. QueryLogic where none of that id is bound.
pub fn find(alloc: Global, id: u64, vars: &Vars) -> Result<Datum, Fault>
    ensures { Gives plain result (variable_at id (bound vars.now)) }
{
    match lookup(id, vars) {
        Some(d) => Ok(d.copy()?),
        None => Err(Fault::QueryLogic(misplaced(alloc)?)),
    }
}

// The variable's value in a frame.
#[tactic(auto, using(crate::proofs::Frames::passed, crate::proofs::Frames::own, crate::proofs::Frames::outside))]
fn in_frame<'a>(id: u64, ids: &[u64], values: &'a [Datum]) -> Option<&'a Datum>
    ensures { option_map (λ d. plain d.now) result
        ≡ in_frame_of id (zip ids.now (map plain values.now)) }
{
    let mut i = 0;
    while i < ids.len() && i < values.len() {
        if ids[i] == id {
            return Some(&values[i]);
        }
        i += 1;
    }
    None
}

/// The value of the nearest function of one parameter where it lies, if there is one.
pub fn lookup_implicit<'a>(vars: &'a Vars<'a>) -> Option<&'a Datum>
    ensures { MatchOption result (implicit_at (bound vars.now) ≡ Err misplaced)
        (λ d. implicit_at (bound vars.now) ≡ Ok (plain d.now)) }
{
    match vars {
        Vars::Empty => None,
        Vars::Frame { ids, values, up } => match only(ids, values) {
            Some(d) => Some(d),
            None => lookup_implicit(up),
        },
    }
}

/// The value of the nearest function of one parameter. QueryLogic where there is none.
pub fn implicit(alloc: Global, vars: &Vars) -> Result<Datum, Fault>
    ensures { Gives plain result (implicit_at (bound vars.now)) }
{
    match lookup_implicit(vars) {
        Some(d) => Ok(d.copy()?),
        None => Err(Fault::QueryLogic(misplaced(alloc)?)),
    }
}

// The value of a frame of one variable.
#[tactic(auto, using(crate::proofs::Frames::only_one, crate::proofs::Frames::only_other))]
fn only<'a>(ids: &[u64], values: &'a [Datum]) -> Option<&'a Datum>
    ensures { option_map (λ d. plain d.now) result ≡ only_of (zip ids.now (map plain values.now)) }
{
    if (ids.len() == 1 && values.len() > 0) || (values.len() == 1 && ids.len() > 0) {
        return Some(&values[0]);
    }
    None
}

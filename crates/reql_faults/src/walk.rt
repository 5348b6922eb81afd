// The walk that finds the first fault.
ghost use Rattle.std.specs.Prelude.{◌≡◌, ◌++◌, IfOk};
ghost use Rattle.reql_term.specs.Form.{function, operation, forms_of, named_of};
ghost use Rattle.reql_term.specs.View.{form_of};
ghost use Rattle.reql_faults.specs.Places.{count};
ghost use Rattle.reql_faults.specs.Faults.{unless, faults, member_faults, part_faults, named_faults, is_bound, around_root};
ghost use Rattle.reql_faults.specs.Finds.{around, Finds};
ghost use Rattle.reql_faults.specs.declared.fault.CompileFault.TheVariants.{Unbound};

use crate::fault::CompileFault;
use crate::own::{own_fault, unless};
use crate::scope::Scope;
use crate::standing::Place;
use reql_term::{Body, Op, Params, Task, Term, TermFields, Terms};
use std::alloc::Global;

/// Ok where the term of a request has a plan, or the first fault in preorder: a term before its
/// arguments, and those before its optional arguments by name.
pub fn plan_fault(alloc: Global, term: &Term) -> Result<(), CompileFault>
    ensures { Finds result (faults around_root (form_of term.now)) }
{
    let mut ids = Vec::new(alloc);
    fault_of(
        term,
        Scope {
            place: Place::Root,
            row: false,
        },
        &mut ids,
    )
}

// The ids are those of the variables in scope; after Ok they are as they were.
#[cycle(walk)]
#[tactic(auto, using(crate::proofs::Firsts::firsts))]
fn fault_of(term: &Term, scope: Scope, ids: &mut Vec<u64>) -> Result<(), CompileFault>
    ensures found { Finds result (faults (around scope ids.old.items) (form_of term.now)) }
    ensures kept { IfOk result (λ _. ids.new.items ≡ ids.old.items) }
{
    match term {
        Term::Lit(_) => Ok(()),
        Term::Slot(_) => Ok(()),
        Term::Var(id) => unless(is_bound(*id, ids.as_slice()), CompileFault::Unbound(*id)),
        Term::Row => unless(scope.row, CompileFault::Unbound(0)),
        Term::Arr(terms) => fault_of_members(terms, scope.at(scope.place.of_member()), ids),
        Term::Obj(fields) => fault_of_named(fields, scope.at(Place::Inside), ids),
        Term::Func(params, body) => fault_of_body(params, body, scope, ids),
        Term::Op { op, args, opts } => fault_of_op(*op, args, opts, scope, ids),
    }
}

#[cycle(walk)]
#[tactic(auto, using(crate::proofs::Firsts::firsts))]
fn fault_of_body(
    params: &Params,
    body: &Body,
    scope: Scope,
    ids: &mut Vec<u64>,
) -> Result<(), CompileFault>
    ensures found { Finds result (faults (around scope ids.old.items) (function params.now body.now)) }
    ensures kept { IfOk result (λ _. ids.new.items ≡ ids.old.items) }
{
    let outer = ids.len();
    let inside = Scope {
        place: scope.place.of_body(),
        row: params.len() == 1 || scope.row,
    };
    ids.extend_from_slice(params.as_slice())?;
    fault_of(body.term(), inside, ids)?;
    ids.truncate(outer);
    Ok(())
}

#[cycle(walk)]
#[tactic(auto, using(crate::proofs::Firsts::firsts))]
fn fault_of_op(
    op: Op,
    args: &Terms,
    opts: &TermFields,
    scope: Scope,
    ids: &mut Vec<u64>,
) -> Result<(), CompileFault>
    ensures found { Finds result (faults (around scope ids.old.items) (operation op (forms_of args.now) (named_of opts.now))) }
    ensures kept { IfOk result (λ _. ids.new.items ≡ ids.old.items) }
{
    own_fault(scope.place, op, args, opts)?;
    fault_of_parts(args, op.task(), scope, ids)?;
    fault_of_named(opts, scope.at(Place::Inside), ids)
}

#[cycle(walk)]
#[tactic(auto, using(crate::proofs::Firsts::firsts))]
fn fault_of_members(terms: &Terms, scope: Scope, ids: &mut Vec<u64>) -> Result<(), CompileFault>
    ensures found { Finds result (member_faults (around scope ids.old.items) (forms_of terms.now)) }
    ensures kept { IfOk result (λ _. ids.new.items ≡ ids.old.items) }
{
    let mut place = 0;
    while let Some(term) = terms.at(place) {
        fault_of(term, scope, ids)?;
        place += 1;
    }
    Ok(())
}

#[cycle(walk)]
#[tactic(auto, using(crate::proofs::Firsts::firsts))]
fn fault_of_parts(
    terms: &Terms,
    task: Task,
    scope: Scope,
    ids: &mut Vec<u64>,
) -> Result<(), CompileFault>
    ensures found { Finds result (part_faults (around scope ids.old.items) task
        (count (forms_of terms.now)) 0 (forms_of terms.now)) }
    ensures kept { IfOk result (λ _. ids.new.items ≡ ids.old.items) }
{
    let mut place = 0;
    while let Some(term) = terms.at(place) {
        let part = scope.place.of_part(task, place, terms.len());
        fault_of(term, scope.at(part), ids)?;
        place += 1;
    }
    Ok(())
}

#[cycle(walk)]
#[tactic(auto, using(crate::proofs::Firsts::firsts))]
fn fault_of_named(fields: &TermFields, scope: Scope, ids: &mut Vec<u64>) -> Result<(), CompileFault>
    ensures found { Finds result (named_faults (around scope ids.old.items) (named_of fields.now)) }
    ensures kept { IfOk result (λ _. ids.new.items ≡ ids.old.items) }
{
    let mut place = 0;
    while let Some((_name, term)) = fields.at(place) {
        fault_of(term, scope, ids)?;
        place += 1;
    }
    Ok(())
}

fn is_bound(id: u64, ids: &[u64]) -> bool
    ensures { result ≡ is_bound id ids.now }
{
    for known in ids {
        if *known == id {
            return true;
        }
    }
    false
}

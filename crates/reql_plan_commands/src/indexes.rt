// The functions of indexes.
ghost use Rattle.std.specs.Prelude.{◌≡◌, ◌∷◌, [], IfOk, option_map};
ghost use Rattle.reql_datum.specs.Outcome.{Gives};
ghost use Rattle.reql_datum.specs.Plain.{text};
ghost use Rattle.reql_term.specs.Form.{literal, variable, operation, forms_of, no_named};
ghost use Rattle.reql_term.specs.View.{form_of};
ghost use Rattle.reql_term.specs.declared.op.Op.TheVariants as op;
ghost use Rattle.reql_operand.specs.Tables.{seen};
ghost use Rattle.reql_plan_spec.specs.Commands.{field_function as field_function_of, index_function as index_function_of};

use reql_datum::{Datum, Fault, Memory, Name};
use reql_operand::World;
use reql_plan_context::argument;
use reql_term::{Body, Op, Params, TableView, Term, TermFields, Terms};
use std::alloc::Global;

// The field of a name of variable 0.
fn field_of(alloc: Global, name: &str) -> Result<Term, Memory>
    ensures { IfOk result (λ t. form_of t ≡ operation op.GetField (forms_of (variable 0
        ∷ literal (text name.now) ∷ [])) no_named) }
{
    let mut args = Terms::with_room(alloc, 2)?;
    args.push(Term::Var(0))?;
    args.push(Term::Lit(Datum::Text(Name::of(alloc, name)?)))?;
    let opts = TermFields::new(alloc);
    Ok(Term::Op {
        op: Op::GetField,
        args,
        opts,
    })
}

// The parameters of a function of variable 0.
fn one_parameter(alloc: Global) -> Result<Params, Memory>
    ensures { IfOk result (λ ids. ids ≡ 0 ∷ []) }
{
    let mut ids = Params::with_room(alloc, 1)?;
    ids.push(0)?;
    Ok(ids)
}

// The function that gives the field of a name.
fn field_function(alloc: Global, name: &str) -> Result<Term, Memory>
    ensures { IfOk result (λ t. form_of t ≡ field_function_of name.now) }
{
    let ids = one_parameter(alloc)?;
    let body = field_of(alloc, name)?;
    Ok(Term::Func(ids, Body::new(alloc, body)?))
}

/// The function of an index: the one that is given, or the field of its name.
pub(crate) fn index_function<V: TableView>(
    alloc: Global,
    world: &World<V>,
    name: &str,
    given: Option<&Term>,
) -> Result<Body, Fault>
    ensures { Gives (λ f. f) result (index_function_of
        (seen V.documents V.indexes V.entries world.now) name.now
        (option_map (λ t. form_of t.now) given.entry)) }
{
    match given {
        Some(term) => {
            let func = argument(alloc, world, term)?;
            Ok(Body::new(alloc, func)?)
        }
        None => {
            let func = field_function(alloc, name)?;
            Ok(Body::new(alloc, func)?)
        }
    }
}

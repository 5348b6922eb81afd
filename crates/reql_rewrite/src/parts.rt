// Parts of a term of which some are others. What is as it was is shared.
ghost use Rattle.std.specs.Prelude.{◌≡◌, ◌<◌, ◌≤◌, length, set, IfOk};
ghost use Rattle.std.specs.Option.{unwrap_or};
ghost use Rattle.reql_datum.specs.Members.{put};
ghost use Rattle.reql_term.specs.Form.{operation, forms_of, named_of};
ghost use Rattle.reql_term.specs.View.{form_of};
ghost use Rattle.reql_rewrite.specs.Same.{form_or};

use reql_datum::Name;
use reql_memory::Memory;
use reql_term::{Op, Term, TermFields, Terms};

// The terms with another at a place.
pub(crate) fn with_term(
    done: Option<Terms>,
    terms: &Terms,
    place: usize,
    other: Term,
) -> Result<Terms, Memory>
    requires there { place < length (unwrap_or done terms.now) }
    ensures { IfOk result (λ list. list ≡ set (unwrap_or done terms.now) place (form_of other)) }
{
    let mut list = match done {
        Some(list) => list,
        None => terms.copy()?,
    };
    drop(list.set(place, other)?);
    Ok(list)
}

// The terms by name with another at a name.
pub(crate) fn with_field(
    done: Option<TermFields>,
    fields: &TermFields,
    name: &Name,
    other: Term,
) -> Result<TermFields, Memory>
    ensures { IfOk result (λ map. map ≡ put name.now (form_of other) (unwrap_or done fields.now)) }
{
    let mut map = match done {
        Some(map) => map,
        None => fields.copy()?,
    };
    drop(map.put(name.copy()?, other)?);
    Ok(map)
}

fn terms_or(done: Option<Terms>, terms: &Terms) -> Result<Terms, Memory>
    ensures { IfOk result (λ list. list ≡ unwrap_or done terms.now) }
{
    match done {
        Some(list) => Ok(list),
        None => terms.copy(),
    }
}

fn fields_or(done: Option<TermFields>, fields: &TermFields) -> Result<TermFields, Memory>
    ensures { IfOk result (λ map. map ≡ unwrap_or done fields.now) }
{
    match done {
        Some(map) => Ok(map),
        None => fields.copy(),
    }
}

// The term of an operator of which its arguments or its optional ones are others.
pub(crate) fn with_parts(
    op: Op,
    args: &Terms,
    opts: &TermFields,
    new_args: Option<Terms>,
    new_opts: Option<TermFields>,
) -> Result<Option<Term>, Memory>
    ensures { IfOk result (λ o. form_or (operation op (forms_of args.now) (named_of opts.now)) o
        ≡ operation op (forms_of (unwrap_or new_args args.now))
        (named_of (unwrap_or new_opts opts.now))) }
{
    if new_args.is_none() && new_opts.is_none() {
        return Ok(None);
    }
    Ok(Some(Term::Op {
        op,
        args: terms_or(new_args, args)?,
        opts: fields_or(new_opts, opts)?,
    }))
}

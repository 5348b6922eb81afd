// Functions that may name no table.
ghost use Rattle.std.specs.Prelude.{◌≡◌, ◌&&◌, ◌||◌, false};
ghost use Rattle.reql_term.specs.Form.{forms_of, named_of};
ghost use Rattle.reql_term.specs.View.{form_of};
ghost use Rattle.reql_write_spec.specs.Selecting.{slots, slots_of, slots_named};
ghost use Rattle.reql_plan_spec.specs.Reads.{is_any, is_closed as is_closed_of, leaks as leaks_of, all_leak as all_leak_of, named_leak as named_leak_of};

use reql_term::{Op, Term, TermFields, Terms};

/// Whether a function inside a write, an index or a feed names a table.
pub fn leaks(term: &Term) -> bool
    ensures { result ≡ leaks_of false (form_of term.now) }
{
    leaks_in(false, term)
}

// Whether no function among the arguments may name a table.
fn is_closed(op: Op) -> bool
    ensures { result ≡ is_closed_of op }
{
    match op {
        Op::Insert | Op::Update | Op::Replace | Op::Delete | Op::IndexCreate | Op::Changes => true,
        _ => false,
    }
}

fn is_either(a: bool, b: bool) -> bool
    ensures { result ≡ (a || b) }
{
    a || b
}

// Whether a table stands in a body that may have none.
fn is_refused(closed: bool, body: &Term) -> bool
    ensures { result ≡ (closed && is_any (slots (form_of body.now))) }
{
    if closed {
        return has_slot(body);
    }
    false
}

#[cycle(leaks)]
fn leaks_in(closed: bool, term: &Term) -> bool
    ensures { result ≡ leaks_of closed (form_of term.now) }
{
    match term {
        Term::Arr(terms) => all_leak(closed, terms),
        Term::Obj(fields) => named_leak(closed, fields),
        Term::Func(_, body) => {
            if is_refused(closed, body.term()) {
                return true;
            }
            leaks_in(closed, body.term())
        }
        Term::Op { op, args, opts } => parts_leak(is_either(closed, is_closed(*op)), args, opts),
        Term::Lit(_) | Term::Var(_) | Term::Row | Term::Slot(_) => false,
    }
}

#[cycle(leaks)]
fn parts_leak(closed: bool, args: &Terms, opts: &TermFields) -> bool
    ensures { result ≡ (all_leak_of closed (forms_of args.now)
        || named_leak_of closed (named_of opts.now)) }
{
    if all_leak(closed, args) {
        return true;
    }
    named_leak(closed, opts)
}

#[cycle(leaks)]
#[tactic(auto, using(reql_faults::proofs::Below::below, reql_datum::proofs::Walks::walks))]
fn all_leak(closed: bool, terms: &Terms) -> bool
    ensures { result ≡ all_leak_of closed (forms_of terms.now) }
{
    let mut place = 0;
    while let Some(term) = terms.at(place) {
        if leaks_in(closed, term) {
            return true;
        }
        place += 1;
    }
    false
}

#[cycle(leaks)]
#[tactic(auto, using(reql_faults::proofs::Below::below, reql_datum::proofs::Walks::walks))]
fn named_leak(closed: bool, fields: &TermFields) -> bool
    ensures { result ≡ named_leak_of closed (named_of fields.now) }
{
    let mut place = 0;
    while let Some(field) = fields.at(place) {
        if leaks_in(closed, field.1) {
            return true;
        }
        place += 1;
    }
    false
}

// Whether a table stands in a term.
#[cycle(slot)]
#[tactic(auto, using(crate::proofs::Any::any))]
fn has_slot(term: &Term) -> bool
    ensures { result ≡ is_any (slots (form_of term.now)) }
{
    match term {
        Term::Slot(_) => true,
        Term::Arr(terms) => any_slot(terms),
        Term::Obj(fields) => named_slot(fields),
        Term::Func(_, body) => has_slot(body.term()),
        Term::Op { op: _, args, opts } => {
            if any_slot(args) {
                return true;
            }
            named_slot(opts)
        }
        Term::Lit(_) | Term::Var(_) | Term::Row => false,
    }
}

#[cycle(slot)]
#[tactic(auto, using(reql_faults::proofs::Below::below, crate::proofs::Any::any, reql_datum::proofs::Walks::walks))]
fn any_slot(terms: &Terms) -> bool
    ensures { result ≡ is_any (slots_of (forms_of terms.now)) }
{
    let mut place = 0;
    while let Some(term) = terms.at(place) {
        if has_slot(term) {
            return true;
        }
        place += 1;
    }
    false
}

#[cycle(slot)]
#[tactic(auto, using(reql_faults::proofs::Below::below, crate::proofs::Any::any, reql_datum::proofs::Walks::walks))]
fn named_slot(fields: &TermFields) -> bool
    ensures { result ≡ is_any (slots_named (named_of fields.now)) }
{
    let mut place = 0;
    while let Some(field) = fields.at(place) {
        if has_slot(field.1) {
            return true;
        }
        place += 1;
    }
    false
}

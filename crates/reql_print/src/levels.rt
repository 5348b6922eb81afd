// Whether a term fits in so many levels of arrays and objects once it is printed.
ghost use Rattle.std.specs.Prelude.{◌≡◌, ℕ, nat_le};
ghost use Rattle.serde_json.specs.Data.{depth, items_depth, members_depth, no_members};
ghost use Rattle.reql_datum.specs.View.{plain};
ghost use Rattle.reql_term.specs.Form.{keyed, function, forms_of, named_of};
ghost use Rattle.reql_term.specs.View.{form_of};
ghost use Rattle.reql_read.specs.Spelling.{call, spelled_ids, spelled_literal, spelled, spelled_all, spelled_named};

use reql_datum::Datum;
use reql_term::{Body, Params, Term, TermFields, Terms};

fn literal_fits(datum: &Datum, levels: u32) -> bool
    ensures { result ≡ nat_le (depth (spelled_literal (plain datum.now))) levels }
{
    match datum {
        Datum::Binary(_) | Datum::Time(_) => levels >= 1,
        _ => true,
    }
}

// The ids of a function, as an array.
#[tactic(auto, using(crate::proofs::Deepest::levels))]
fn params_fit(params: &Params, levels: u32) -> bool
    ensures { (n : ℕ) → result ≡ nat_le (depth (call n (spelled_ids params.now) no_members)) levels }
{
    if params.is_empty() {
        return levels >= 1;
    }
    levels >= 2
}

/// Whether a term fits in so many levels.
#[cycle(levels)]
#[tactic(auto, using(crate::proofs::Deepest::variable_fits, crate::proofs::Deepest::row_fits))]
pub(crate) fn fits(term: &Term, levels: u32) -> bool
    ensures { result ≡ nat_le (depth (spelled (form_of term.now))) levels }
{
    match term {
        Term::Lit(datum) => literal_fits(datum, levels),
        Term::Arr(terms) => several_fit(terms, levels),
        Term::Obj(fields) => object_fits(fields, levels),
        Term::Var(_) => levels >= 2,
        Term::Row => levels >= 1,
        Term::Func(params, body) => function_fits(params, body, levels),
        Term::Slot(_) => true,
        Term::Op { args, opts, .. } => call_fits(args, opts, levels),
    }
}

#[cycle(levels)]
#[tactic(auto, using(crate::proofs::Deepest::levels))]
fn object_fits(fields: &TermFields, levels: u32) -> bool
    ensures { result ≡ nat_le (depth (spelled (keyed (named_of fields.now)))) levels }
{
    if levels < 1 {
        return false;
    }
    named_fit(fields, levels - 1)
}

#[cycle(levels)]
#[tactic(auto, using(crate::proofs::Deepest::levels))]
fn function_fits(params: &Params, body: &Body, levels: u32) -> bool
    ensures { result ≡ nat_le (depth (spelled (function params.now body.now))) levels }
{
    if levels < 2 {
        return false;
    }
    if !params_fit(params, levels - 2) {
        return false;
    }
    fits(body.term(), levels - 2)
}

// A term with these arguments.
#[cycle(levels)]
#[tactic(auto, using(crate::proofs::Deepest::levels))]
fn several_fit(args: &Terms, levels: u32) -> bool
    ensures { (n : ℕ) → result ≡ nat_le (depth (call n (spelled_all (forms_of args.now)) no_members)) levels }
{
    if args.is_empty() {
        return levels >= 1;
    }
    if levels < 2 {
        return false;
    }
    all_fit(args, levels - 2)
}

// A term with these arguments and optional arguments.
#[cycle(levels)]
#[tactic(auto, using(crate::proofs::Deepest::levels))]
fn call_fits(args: &Terms, opts: &TermFields, levels: u32) -> bool
    ensures { (n : ℕ) → result ≡ nat_le (depth (call n (spelled_all (forms_of args.now))
        (spelled_named (named_of opts.now)))) levels }
{
    if opts.is_empty() {
        return several_fit(args, levels);
    }
    if levels < 2 {
        return false;
    }
    if !all_fit(args, levels - 2) {
        return false;
    }
    named_fit(opts, levels - 2)
}

#[cycle(levels)]
#[tactic(auto, using(crate::proofs::Below::below, reql_datum::proofs::Walks::walks, crate::proofs::Deepest::deepest))]
fn all_fit(terms: &Terms, levels: u32) -> bool
    ensures { result ≡ nat_le (items_depth (spelled_all (forms_of terms.now))) levels }
{
    let mut place = 0;
    while let Some(term) = terms.at(place) {
        if !fits(term, levels) {
            return false;
        }
        place += 1;
    }
    true
}

#[cycle(levels)]
#[tactic(auto, using(crate::proofs::Below::below, reql_datum::proofs::Walks::walks, crate::proofs::Deepest::deepest))]
fn named_fit(fields: &TermFields, levels: u32) -> bool
    ensures { result ≡ nat_le (members_depth (spelled_named (named_of fields.now))) levels }
{
    let mut place = 0;
    while let Some(field) = fields.at(place) {
        if !fits(field.1, levels) {
            return false;
        }
        place += 1;
    }
    true
}

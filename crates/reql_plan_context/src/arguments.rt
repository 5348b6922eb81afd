// The arguments of a term by their places, and its optional ones by name.
ghost use Rattle.std.specs.Prelude.{◌≡◌, option_map};
ghost use Rattle.reql_datum.specs.Outcome.{Gives};
ghost use Rattle.reql_term.specs.Form.{forms_of, named_of};
ghost use Rattle.reql_term.specs.View.{form_of};
ghost use Rattle.reql_faults.specs.Places.{first as first_of, second as second_of, third as third_of, option as option_of};
ghost use Rattle.reql_plan_spec.specs.Settled.{there as there_of};

use crate::evaluated::there;
use reql_datum::Fault;
use reql_term::{Term, TermFields, Terms};
use std::alloc::Global;

/// The first argument, which has to be there.
#[tactic(auto, using(reql_faults::proofs::Below::below))]
pub fn first<'a>(alloc: Global, args: &'a Terms) -> Result<&'a Term, Fault>
    ensures { Gives (λ t. form_of t.now) result (there_of (first_of (forms_of args.now))) }
{
    there(alloc, args.at(0))
}

/// The second argument, which has to be there.
#[tactic(auto, using(reql_faults::proofs::Below::below))]
pub fn second<'a>(alloc: Global, args: &'a Terms) -> Result<&'a Term, Fault>
    ensures { Gives (λ t. form_of t.now) result (there_of (second_of (forms_of args.now))) }
{
    there(alloc, args.at(1))
}

/// The second argument, if there is one.
#[tactic(auto, using(reql_faults::proofs::Below::below))]
pub fn second_at(args: &Terms) -> Option<&Term>
    ensures { option_map (λ t. form_of t.now) result ≡ second_of (forms_of args.now) }
{
    args.at(1)
}

/// The third argument, if there is one.
#[tactic(auto, using(reql_faults::proofs::Below::below))]
pub fn third_at(args: &Terms) -> Option<&Term>
    ensures { option_map (λ t. form_of t.now) result ≡ third_of (forms_of args.now) }
{
    args.at(2)
}

/// The optional argument of a name, if there is one.
#[tactic(auto, using(reql_faults::proofs::Below::below))]
pub fn option_at<'a>(opts: &'a TermFields, name: &str) -> Option<&'a Term>
    ensures { option_map (λ t. form_of t.now) result ≡ option_of name.now (named_of opts.now) }
{
    opts.get(name)
}

/// The first argument, if there is one.
#[tactic(auto, using(reql_faults::proofs::Below::below))]
pub fn first_at(args: &Terms) -> Option<&Term>
    ensures { option_map (λ t. form_of t.now) result ≡ first_of (forms_of args.now) }
{
    args.at(0)
}

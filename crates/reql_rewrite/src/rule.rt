// Rules that terms are rewritten by.
ghost use Rattle.std.specs.Prelude.{◌≡◌, Ok, None, IsTrue, option_map};
ghost use Rattle.reql_datum.specs.Outcome.{Gives};
ghost use Rattle.reql_term.specs.View.{form_of};
ghost use Rattle.reql_rewrite.specs.Rewrite.{Saying};

use reql_datum::Fault;
use reql_term::Term;
use std::alloc::Global;

/// A rule that says of a term what takes its place.
pub trait Rule {
    ghost rule: { Self → Saying };

    /// The term that takes the place of this one as it stands; None, so that its parts are looked
    /// at; or a fault.
    fn instead(&self, alloc: Global, term: &Term) -> Result<Option<Term>, Fault>
        ensures { Gives (option_map form_of) result (rule self.now (form_of term.now)) };

    /// Whether a look at the term's kind tells that the rule says nothing of it: most terms of a
    /// request are passed by so.
    fn passes(&self, term: &Term) -> bool
        ensures { IsTrue result → rule self.now (form_of term.now) ≡ Ok None };
}

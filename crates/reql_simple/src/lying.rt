// Documents where they lie, and truths and numbers that were made.
ghost use Rattle.std.specs.Prelude.{◌≡◌, Ok, IfOk, IfSome, nat_lt};
ghost use Rattle.reql_datum.specs.Plain.{depth, number};
ghost use Rattle.reql_datum.specs.View.{plain};
ghost use Rattle.reql_rules.specs.Sizes.{is_long as is_long_of, max_depth, within as within_of};
ghost use Rattle.reql_rules.specs.Types.{truth};
ghost use Rattle.reql_simple.specs.Found.{document};

use reql_datum::{Datum, Memory, Whole};
use reql_operand::{is_true, size_of};

/// What a simple term stands for: a document where it lies, or a truth or a number that was made.
#[derive(Drop)]
pub enum Found<'a> {
    Lying(&'a Datum),
    Truth(bool),
    Number(Whole),
}

impl<'a> Found<'a> {
    /// The document. Memory where a copy of one that lies elsewhere wants some.
    pub fn to_datum(&self) -> Result<Datum, Memory>
        ensures { IfOk result (λ d. plain d ≡ document self.now) }
    {
        match self {
            Found::Lying(d) => Ok(d.copy()?),
            Found::Truth(b) => Ok(Datum::Bool(*b)),
            Found::Number(n) => Ok(Datum::Num(*n)),
        }
    }

    /// How much it has, in units of a purse.
    pub(crate) fn size(&self) -> u64 {
        match self {
            Found::Lying(d) => size_of(d),
            Found::Truth(_) => 1,
            Found::Number(_) => 1,
        }
    }

    /// Whether it is true.
    pub(crate) fn is_true(&self) -> bool
        ensures { result ≡ truth (document self.now) }
    {
        match self {
            Found::Lying(d) => is_true(d),
            Found::Truth(b) => *b,
            Found::Number(_) => true,
        }
    }

    /// The number that it is.
    pub(crate) fn number(&self) -> Option<Whole>
        ensures { IfSome result (λ n. document self.now ≡ number n) }
    {
        match self {
            Found::Lying(d) => number_of(d),
            Found::Truth(_) => None,
            Found::Number(n) => Some(*n),
        }
    }
}

/// The number that a document is.
pub(crate) fn number_of(d: &Datum) -> Option<Whole>
    ensures { IfSome result (λ n. plain d.now ≡ number n) }
{
    match d {
        Datum::Num(n) => Some(*n),
        _ => None,
    }
}

#[tactic(auto, using(reql_datum::proofs::Back::back))]
fn is_long(limit: u64, d: &Datum) -> bool
    ensures { result ≡ is_long_of limit (plain d.now) }
{
    match d {
        Datum::List(items) => limit < items.len() as u64,
        _ => false,
    }
}

fn is_deep(d: &Datum) -> bool
    ensures { result ≡ nat_lt max_depth (depth (plain d.now)) }
{
    d.depth() > 100
}

/// The document where it lies, if it keeps the limits.
pub(crate) fn within<'a>(limit: u64, d: &'a Datum) -> Option<Found<'a>>
    ensures found { IfSome result (λ x. document x ≡ plain d.now) }
    ensures kept { IfSome result (λ x. within_of limit (document x) ≡ Ok (document x)) }
{
    if is_long(limit, d) {
        return None;
    }
    if is_deep(d) {
        return None;
    }
    Some(Found::Lying(d))
}

/// The same of what was found.
pub(crate) fn kept<'a>(limit: u64, x: &Found<'a>) -> Option<Found<'a>>
    ensures found { IfSome result (λ y. document y ≡ document x.now) }
    ensures kept { IfSome result (λ y. within_of limit (document y) ≡ Ok (document y)) }
{
    match x {
        Found::Lying(d) => within(limit, d),
        Found::Truth(b) => Some(Found::Truth(*b)),
        Found::Number(n) => Some(Found::Number(*n)),
    }
}

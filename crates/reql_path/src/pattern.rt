// Field patterns.
ghost use Rattle.std.specs.Prelude.{◌≡◌, ◌↔◌, IfOk, IfErr, true, false, Err};
ghost use Rattle.reql_datum.specs.Plain.{items_of, pairs_of};
ghost use Rattle.reql_datum.specs.View.{plain};
ghost use Rattle.reql_rules.specs.Patterns.{is_pattern, are_patterns, are_field_patterns};
ghost use Rattle.reql_path.specs.declared.pattern.PathFault.TheVariants.{BadPattern};

use crate::compiling::compiled;
use crate::having::is_true;
use reql_datum::{Datum, Fields, Items, Memory};
use std::alloc::Global;
use std::marker::Model;

/// A field pattern: a text, an object whose values are patterns or true, or an array of patterns.
/// Several patterns are as the array of them.
///
/// Contracts see it as the document that it was made of. It also holds what that names as one
/// object, in which each name stands once, so that an object and a pattern are walked side by side.
#[derive(Drop)]
pub struct Pattern {
    pub(crate) document: Datum,
    pub(crate) parts: Fields,
}

impl Model for Pattern {
    ghost use Rattle.reql_datum.specs.Plain.{Plain};
    ghost use Rattle.reql_datum.specs.Code.{plain_code};

    ghost Value = { Plain };

    ghost coded = { plain_code };

    ghost use Rattle.reql_datum.specs.View.{plain};

    ghost view = { λ a. plain a.document };

    ghost use Rattle.reql_path.specs.Normal.{IsCompiled};

    ghost invariant = { λ a. IsCompiled (plain a.document) a.parts };
}

/// Why a document gives no pattern.
#[derive(PartialEq, Eq, Debug, Drop)]
pub enum PathFault {
    /// Something in it is neither a text, an object, an array, nor true as the value of a name; or
    /// it holds a LITERAL.
    BadPattern,
    Memory,
}

impl From<Memory> for PathFault {
    ghost use Rattle.std.specs.Prelude.{◌≡◌};
    ghost use Rattle.reql_path.specs.declared.pattern.PathFault.TheVariants.{Memory};

    ghost from_gives = { λ _ e. e ≡ Memory };

    fn from(_want: Memory) -> PathFault {
        PathFault::Memory
    }
}

/// Whether a document is a pattern.
#[cycle(is_pattern)]
#[tactic(auto, using(reql_datum::proofs::Walks::walks))]
pub fn is_pattern(d: &Datum) -> bool
    ensures { result ≡ is_pattern (plain d.now) }
{
    match d {
        Datum::Text(_) => true,
        Datum::List(patterns) => are_patterns(patterns),
        Datum::Obj(named) => !named.is_literal() && are_field_patterns(named),
        _ => false,
    }
}

#[cycle(is_pattern)]
#[tactic(auto, using(reql_datum::proofs::Walks::walks))]
fn are_patterns(patterns: &Items) -> bool
    ensures { result ≡ are_patterns (items_of patterns.now) }
{
    let mut place = 0;
    while let Some(pattern) = patterns.at(place) {
        if !is_pattern(pattern) {
            return false;
        }
        place += 1;
    }
    true
}

#[cycle(is_pattern)]
#[tactic(auto, using(reql_datum::proofs::Walks::walks))]
fn are_field_patterns(named: &Fields) -> bool
    ensures { result ≡ are_field_patterns (pairs_of named.now) }
{
    let mut place = 0;
    while let Some((_name, pattern)) = named.at(place) {
        if !is_true(pattern) && !is_pattern(pattern) {
            return false;
        }
        place += 1;
    }
    true
}

impl Pattern {
    /// The pattern that a document is. BadPattern exactly where it is none.
    pub fn of(alloc: Global, d: &Datum) -> Result<Pattern, PathFault>
        ensures pattern { IfOk result (λ p. p ≡ plain d.now) }
        ensures good { IfOk result (λ p. is_pattern p ≡ true) }
        ensures bad { (result ≡ Err BadPattern) ↔ (is_pattern (plain d.now) ≡ false) }
    {
        if !is_pattern(d) {
            return Err(PathFault::BadPattern);
        }
        let pattern = made(alloc, d)?;
        Ok(pattern)
    }
}

fn made(alloc: Global, d: &Datum) -> Result<Pattern, Memory>
    requires { is_pattern (plain d.now) ≡ true }
    ensures { IfOk result (λ p. p ≡ plain d.now) }
{
    let mut patterns = Items::new(alloc);
    let copied = d.copy()?;
    patterns.push(copied)?;
    let parts = compiled(alloc, &patterns)?;
    let document = d.copy()?;
    Ok(Pattern { document, parts })
}

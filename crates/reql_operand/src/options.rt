// Optional arguments.
ghost use Rattle.std.specs.Prelude.{◌≡◌, Some, map, option_map};
ghost use Rattle.reql_datum.specs.Members.{find};
ghost use Rattle.reql_datum.specs.Outcome.{Gives};
ghost use Rattle.reql_rules.specs.Types.{same_text as same_text_of};
ghost use Rattle.reql_value_spec.specs.Wanted.{text_given as text_given_of, text_option as text_option_of, index_text as index_text_of, boundness as boundness_of, is_open as is_open_of, left_is_open as left_is_open_of, right_is_open as right_is_open_of};
ghost use Rattle.reql_value_spec.specs.World.{World as Seen};
ghost use Rattle.reql_operand.specs.Seen.{shown, choice};

use crate::texts::bad_option;
use crate::value::{Arg, Choice};
use crate::wanted::text_in_arg;
use reql_datum::{Fault, Name};
use std::alloc::Global;

/// The optional argument of a name.
pub fn find_choice<'a>(opts: &'a [Choice], name: &str) -> Option<&'a Arg>
    ensures { (w : Seen) → option_map (λ a. shown w a.now) result
        ≡ find name.now (map (choice w) opts.now) }
{
    for option in opts {
        if name.cmp(&option.name.as_str()).is_eq() {
            return Some(&option.arg);
        }
    }
    None
}

/// Whether two texts are the same.
pub fn same_text(a: &str, b: &str) -> bool
    ensures { result ≡ same_text_of a.now b.now }
{
    a.cmp(&b).is_eq()
}

/// The text that an optional argument is.
pub fn text_option<'a>(
    alloc: Global,
    name: &str,
    opts: &'a [Choice],
) -> Result<Option<&'a Name>, Fault>
    ensures { (w : Seen) → Gives (option_map (λ n. n.now)) result
        (text_option_of name.now (map (choice w) opts.now)) }
{
    match find_choice(opts, name) {
        None => Ok(None),
        Some(arg) => text_given(alloc, name, arg),
    }
}

fn text_given<'a>(alloc: Global, name: &str, arg: &'a Arg) -> Result<Option<&'a Name>, Fault>
    ensures { (w : Seen) → Gives (option_map (λ n. n.now)) result
        (text_given_of name.now (Some (shown w arg.now))) }
{
    match text_in_arg(arg) {
        Some(text) => Ok(Some(text)),
        None => Err(Fault::QueryLogic(bad_option(alloc, name)?)),
    }
}

/// The name of the index that is asked for.
pub fn index_text<'a>(alloc: Global, opts: &'a [Choice]) -> Result<Option<&'a Name>, Fault>
    ensures { (w : Seen) → Gives (option_map (λ n. n.now)) result
        (index_text_of (map (choice w) opts.now)) }
{
    text_option(alloc, "index", opts)
}

fn boundness(alloc: Global, name: &str, usual: bool, given: Option<&Name>) -> Result<bool, Fault>
    ensures { Gives (λ b. b) result
        (boundness_of name.now usual (option_map (λ n. n.now) given.entry)) }
{
    match given {
        None => Ok(usual),
        Some(text) => {
            if same_text(text.as_str(), "open") {
                return Ok(true);
            }
            if same_text(text.as_str(), "closed") {
                return Ok(false);
            }
            Err(Fault::QueryLogic(bad_option(alloc, name)?))
        }
    }
}

fn is_open(alloc: Global, name: &str, usual: bool, opts: &[Choice]) -> Result<bool, Fault>
    ensures { (w : Seen) → Gives (λ b. b) result
        (is_open_of name.now usual (map (choice w) opts.now)) }
{
    let given = text_option(alloc, name, opts)?;
    boundness(alloc, name, usual, given)
}

/// Whether the left bound is open, which it isn't unless it is said.
pub fn left_is_open(alloc: Global, opts: &[Choice]) -> Result<bool, Fault>
    ensures { (w : Seen) → Gives (λ b. b) result (left_is_open_of (map (choice w) opts.now)) }
{
    is_open(alloc, "left_bound", false, opts)
}

/// Whether the right bound is open, which it is unless it is said.
pub fn right_is_open(alloc: Global, opts: &[Choice]) -> Result<bool, Fault>
    ensures { (w : Seen) → Gives (λ b. b) result (right_is_open_of (map (choice w) opts.now)) }
{
    is_open(alloc, "right_bound", true, opts)
}

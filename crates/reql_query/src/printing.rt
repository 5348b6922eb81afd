// Results and faults as lines.
ghost use Rattle.std.specs.Prelude.{◌≡◌, [], ◌∷◌, ◌++◌, false, is_some, option_map, string_bytes, IfOk};
ghost use Rattle.serde_json.specs.Data.{item, no_items};
ghost use Rattle.serde_json.specs.Find.{at};
ghost use Rattle.serde_json.specs.View.{view, items_view};
ghost use Rattle.serde_json.specs.Written.{compact_text, has_float};
ghost use Rattle.reql_query.specs.Answers.{telling};
ghost use Rattle.reql_query.specs.Printing.{IsFaultText, Prints, Shows, ShowsFault, ShowsResults};

use crate::answer::{Told, telling_of};
use crate::kind::Kind;
use crate::status::Loss;
use reql_outside::{Put, Sink};
use serde_json::Value;
use std::alloc::{AllocError, Global};

/// How printing an answer ended.
#[derive(Drop)]
pub enum Shown {
    /// All its results are printed, and a CONTINUE brings others.
    More,
    /// All its results are printed, and there are no others.
    Whole,
    /// It is a fault, which this line tells.
    Fault(String),
    Lost(Loss),
}

/// Why values are not printed.
#[derive(Clone, Copy, Debug, PartialEq, Eq)]
pub(crate) enum Unprinted {
    /// The sink failed.
    Sink,
    Memory,
}

// The line of a value.
fn line_of(alloc: Global, value: &Value) -> Result<String, AllocError>
    ensures { IfOk result (λ s. has_float (view value.now) ≡ false
        → string_bytes s ≡ compact_text (view value.now) ++ 10 ∷ []) }
{
    let mut line = value.to_string(alloc)?;
    line.push_str("\n")?;
    Ok(line)
}

// Prints a value as a line of JSON.
fn print_value<K: Sink>(alloc: Global, value: &Value, out: &mut K) -> Result<(), Unprinted>
    ensures { Prints (K.told out.old) (K.told out.new) (item (view value.now) no_items) result }
{
    let Ok(line) = line_of(alloc, value) else {
        return Err(Unprinted::Memory);
    };
    match out.put(line.as_bytes()) {
        Put::Done => Ok(()),
        Put::Failed => Err(Unprinted::Sink),
    }
}

// Prints values, a line each.
fn print_values<K: Sink>(alloc: Global, values: &[Value], out: &mut K) -> Result<(), Unprinted>
    ensures { Prints (K.told out.old) (K.told out.new) (items_view values.now) result }
{
    for value in values {
        match print_value(alloc, value, out) {
            Ok(()) => {}
            Err(why) => return Err(why),
        }
    }
    Ok(())
}

// Whether a path leads to a term inside: it has a step.
fn is_path(path: &Value) -> bool
    ensures { result ≡ is_some (at 0 (view path.now)) }
{
    path.get(0usize).is_some()
}

// The line that tells a fault, without its end.
fn fault_line(
    alloc: Global,
    kind: Kind,
    text: &str,
    path: Option<&Value>,
) -> Result<String, AllocError>
    ensures { IfOk result (λ s. IsFaultText kind text.now (option_map (λ p. view p.now) path.entry)
        (string_bytes s)) }
{
    let name = kind.name();
    let Some(path) = path else {
        return format!(in alloc; "{name}: {text}");
    };
    if !is_path(path) {
        return format!(in alloc; "{name}: {text}");
    }
    let path = path.to_string(alloc)?;
    format!(in alloc; "{name}: {text} (at {path})")
}

// Prints the results of an answer.
fn show_results<K: Sink>(alloc: Global, results: &[Value], more: bool, out: &mut K) -> Shown
    ensures { ShowsResults (K.told out.old) (K.told out.new) (items_view results.now) more result }
{
    match print_values(alloc, results, out) {
        Ok(()) => { if more { Shown::More } else { Shown::Whole } }
        Err(Unprinted::Sink) => Shown::Lost(Loss::Unprinted),
        Err(Unprinted::Memory) => Shown::Lost(Loss::Memory),
    }
}

/// The line of a fault of an answer.
pub fn show_fault(alloc: Global, kind: Kind, text: &str, path: Option<&Value>) -> Shown
    ensures { ShowsFault kind text.now (option_map (λ p. view p.now) path.entry) result }
{
    match fault_line(alloc, kind, text, path) {
        Ok(line) => Shown::Fault(line),
        Err(_) => Shown::Lost(Loss::Memory),
    }
}

/// Prints the results of an answer, a line each, or gives the line of its fault.
#[tactic(auto, unfolding(crate::specs::Printing::Shows))]
pub fn show<K: Sink>(alloc: Global, answer: &Value, out: &mut K) -> Shown
    ensures { Shows (K.told out.old) (K.told out.new) (telling (view answer.now)) result }
{
    match telling_of(answer) {
        Told::Results { results, more } => show_results(alloc, results, more, out),
        Told::Fault { kind, text, path } => show_fault(alloc, kind, text, path),
        Told::Strange => Shown::Lost(Loss::Strange),
    }
}

// What an answer tells.
ghost use Rattle.std.specs.Prelude.{◌≡◌, codes, option_map};
ghost use Rattle.serde_json.specs.Find.{get};
ghost use Rattle.serde_json.specs.View.{view, items_view};
ghost use Rattle.reql_query.specs.Answers.{Tells, fault_by, first_text, kind_of, number_in, telling};

use crate::kind::{Kind, kind_of};
use serde_json::Value;

/// What an answer tells (`ql2.proto`, Response).
#[derive(Clone, Copy)]
pub enum Told<'a> {
    /// These results; with `more`, a CONTINUE brings others.
    Results {
        results: &'a Vec<Value>,
        more: bool,
    },
    /// A fault: its kind, its text, and the path to the term that it is of, where the answer has one.
    Fault {
        kind: Kind,
        text: &'a str,
        path: Option<&'a Value>,
    },
    /// It is none that a server gives.
    Strange,
}

/// The whole number of a member.
pub fn number_in(answer: &Value, name: &str) -> Option<u64>
    ensures { result ≡ number_in name.now (view answer.now) }
{
    answer.get(name).and_then(Value::as_u64)
}

// The first of some results, where it is a text.
fn first_text(results: &[Value]) -> Option<&str>
    ensures { option_map (λ s. s.now) result ≡ first_text (items_view results.now) }
{
    match results.first() {
        Some(first) => first.as_str(),
        None => None,
    }
}

/// What an answer tells.
#[tactic(auto, unfolding(crate::specs::Answers::told_by))]
pub fn telling_of(answer: &Value) -> Told<'_>
    ensures { Tells result (telling (view answer.now)) }
{
    let Some(number) = number_in(answer, "t") else {
        return Told::Strange;
    };
    let Some(results) = answer.get("r").and_then(Value::as_array) else {
        return Told::Strange;
    };
    match number {
        3 => Told::Results {
            results,
            more: true,
        },
        1 | 2 | 4 | 5 => Told::Results {
            results,
            more: false,
        },
        16..=18 => fault_of(answer, number, results),
        _ => Told::Strange,
    }
}

// The fault that an answer of such a type tells.
fn fault_of<'a>(answer: &'a Value, number: u64, results: &'a Vec<Value>) -> Told<'a>
    ensures { Tells result (fault_by (kind_of number (number_in (codes "e") (view answer.now)))
        (get (codes "b") (view answer.now)) (first_text (items_view results.now.items))) }
{
    match first_text(results) {
        Some(text) => Told::Fault {
            kind: kind_of(number, number_in(answer, "e")),
            text,
            path: answer.get("b"),
        },
        None => Told::Strange,
    }
}

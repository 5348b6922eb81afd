// What a server says in a login.
ghost use Rattle.std.specs.Prelude.{◌≡◌, ◌≤◌, length, drop, codes, option_map, vec_items, Some, IfOk, option_and_then};
ghost use Rattle.serde_json.specs.Find.{as_bool, as_str, get};
ghost use Rattle.serde_json.specs.View.{view};
ghost use Rattle.reql_login.specs.Fields.{text_in};
ghost use Rattle.reql_client.specs.Login.{Grants, refused_by, word_in, word_of};
ghost use Rattle.reql_client.specs.Program.{Hears};
ghost use Rattle.reql_client.specs.Reading.{json_of};

use crate::reading::value_of;
use reql_datum::Name;
use reql_login::{Message, message_of};
use reql_memory::Memory;
use serde_json::Value;
use std::alloc::Global;

/// What the server says at the front of some bytes.
#[derive(Drop)]
pub(crate) enum Word {
    /// Too little came.
    Partial,
    /// It goes on, with this text of SCRAM, where there is one. The message takes `used` of the bytes.
    Grants { text: Option<Vec<u8>>, used: usize },
    /// It refuses the login, by this text.
    Refuses(Name),
    /// It is no message of a login.
    Strange,
    /// There was no memory for it.
    Memory,
}

fn text_in(value: &Value) -> Option<&str>
    ensures { option_map (λ t. t.now) result ≡ text_in (view value.now) }
{
    value.get("authentication").and_then(Value::as_str)
}

// The text of SCRAM, for itself.
fn own_text(alloc: Global, value: &Value) -> Result<Option<Vec<u8>>, Memory>
    ensures { IfOk result (λ text. option_map vec_items text ≡ text_in (view value.now)) }
{
    match text_in(value) {
        Some(text) => {
            let text = text.as_bytes().to_vec(alloc)?;
            Ok(Some(text))
        }
        None => Ok(None),
    }
}

fn granted(alloc: Global, value: &Value, held: &[u8], used: usize) -> Word
    requires { used ≤ length held.now }
    ensures { Hears held.now result (Grants (text_in (view value.now)) (drop used held.now)) }
{
    match own_text(alloc, value) {
        Ok(text) => Word::Grants { text, used },
        Err(_) => Word::Memory,
    }
}

fn reason_in(value: &Value) -> Option<&str>
    ensures { option_map (λ t. t.now) result ≡ option_and_then as_str (get (codes "error") (view value.now)) }
{
    value.get("error").and_then(Value::as_str)
}

fn refused(alloc: Global, value: &Value, held: &[u8]) -> Word
    ensures { Hears held.now result (refused_by (option_and_then as_str (get (codes "error") (view value.now)))) }
{
    match reason_in(value) {
        Some(why) => match Name::of(alloc, why) {
            Ok(why) => Word::Refuses(why),
            Err(_) => Word::Memory,
        },
        None => Word::Strange,
    }
}

fn success_in(value: &Value) -> Option<bool>
    ensures { result ≡ option_and_then as_bool (get (codes "success") (view value.now)) }
{
    value.get("success").and_then(Value::as_bool)
}

fn judged(alloc: Global, value: &Value, held: &[u8], used: usize) -> Word
    requires { used ≤ length held.now }
    ensures { Hears held.now result (word_in (drop used held.now) (Some (view value.now))) }
{
    match success_in(value) {
        Some(true) => granted(alloc, value, held, used),
        Some(false) => refused(alloc, value, held),
        None => Word::Strange,
    }
}

fn word_in(alloc: Global, message: &[u8], held: &[u8], used: usize) -> Word
    requires { used ≤ length held.now }
    ensures { Hears held.now result (word_in (drop used held.now) (json_of message.now)) }
{
    match value_of(alloc, message) {
        Ok(Some(value)) => judged(alloc, &value, held, used),
        Ok(None) => Word::Strange,
        Err(_) => Word::Memory,
    }
}

/// What the server says at the front of these bytes.
#[tactic(auto, unfolding(crate::specs::Login::word_of))]
pub(crate) fn word_of(alloc: Global, held: &[u8]) -> Word
    ensures { Hears held.now result (word_of held.now) }
{
    match message_of(held) {
        Message::More => Word::Partial,
        Message::Whole { message, used } => word_in(alloc, message, held, used),
        Message::Oversize => Word::Strange,
    }
}

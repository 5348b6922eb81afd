// Tokens of a body, taken one by one.
ghost use Rattle.std.specs.Prelude.{◌≡◌, ◌∷◌, IfSome, OnSome};
ghost use Rattle.json.specs.Token.{begin_array, begin_object, end_array};
ghost use Rattle.json.specs.Token as token;

use json::{Reader, Token};

/// Takes the start of an array.
pub(crate) fn open_array(reader: &mut Reader<'_>) -> Option<()>
    ensures { OnSome result (reader.old ≡ begin_array ∷ reader.new) }
{
    match reader.next() {
        Some(Token::BeginArray) => Some(()),
        _ => None,
    }
}

/// Takes the start of an object.
pub(crate) fn open_object(reader: &mut Reader<'_>) -> Option<()>
    ensures { OnSome result (reader.old ≡ begin_object ∷ reader.new) }
{
    match reader.next() {
        Some(Token::BeginObject) => Some(()),
        _ => None,
    }
}

/// Takes the end of an array.
pub(crate) fn close_array(reader: &mut Reader<'_>) -> Option<()>
    ensures { OnSome result (reader.old ≡ end_array ∷ reader.new) }
{
    match reader.next() {
        Some(Token::EndArray) => Some(()),
        _ => None,
    }
}

/// Takes a text.
pub(crate) fn text<'a>(reader: &mut Reader<'a>) -> Option<&'a str>
    ensures { IfSome result (λ s. reader.old ≡ token.string s.now ∷ reader.new) }
{
    match reader.next() {
        Some(Token::String(text)) => Some(text),
        _ => None,
    }
}

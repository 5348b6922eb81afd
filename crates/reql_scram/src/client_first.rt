// What is read of a client-first-message (RFC 5802, 7), one field after another.
ghost use Rattle.std.specs.Prelude.{◌≡◌, option_map, is_some, drop};
ghost use Rattle.reql_scram.specs.Scram.{is_gs2_header, nonce_read, client_first_of, user_read};
ghost use Rattle.reql_scram.specs.Reads.{shown};

use crate::texts::{are_attributes, is_nonce, is_saslname, split_at_comma};

/// A client-first-message.
#[derive(Clone, Copy)]
pub(crate) struct First<'a> {
    /// The gs2-header, which says that no channel is bound, and ends behind the second comma.
    pub(crate) header: &'a [u8],
    /// client-first-message-bare, which is what follows.
    pub(crate) bare: &'a [u8],
    /// The user, as a saslname.
    pub(crate) user: &'a [u8],
    pub(crate) nonce: &'a [u8],
}

fn is_gs2_header(bytes: &[u8]) -> bool
    ensures { result ≡ is_gs2_header bytes.now }
{
    bytes == b"n,,".as_slice() || bytes == b"y,,".as_slice()
}

#[tactic(auto, unfolding(crate::specs::Scram::nonce_read))]
fn nonce_read<'a>(
    header: &'a [u8],
    bare: &'a [u8],
    user: &'a [u8],
    rest: &'a [u8],
) -> Option<First<'a>>
    ensures { option_map shown result ≡ nonce_read header.now bare.now user.now rest.now }
{
    if !rest.starts_with(b",r=") {
        return None;
    }
    let (nonce, attributes) = split_at_comma(&rest[3..]);
    if !is_nonce(nonce) || !are_attributes(attributes) {
        return None;
    }
    Some(First {
        header,
        bare,
        user,
        nonce,
    })
}

#[tactic(auto, unfolding(crate::specs::Scram::user_read))]
fn user_read<'a>(header: &'a [u8], bare: &'a [u8]) -> Option<First<'a>>
    ensures { option_map shown result ≡ user_read header.now bare.now }
{
    if !bare.starts_with(b"n=") {
        return None;
    }
    let (field, rest) = split_at_comma(bare);
    let user = behind_name(field);
    if !is_saslname(user) {
        return None;
    }
    nonce_read(header, bare, user, rest)
}

/// What stands behind a letter and an equals sign.
pub(crate) fn behind_name(field: &[u8]) -> &[u8]
    ensures { result.now ≡ drop 2 field.now }
{
    &field[field.len().min(2)..]
}

/// Whether this is a client-first-message of SCRAM (RFC 5802, 7) without channel binding, whatever user it
/// names.
pub fn is_client_first(message: &[u8]) -> bool
    ensures { result ≡ is_some (client_first_of message.now) }
{
    client_first_of(message).is_some()
}

/// What is read of a client-first-message, where it is one.
#[tactic(auto, unfolding(crate::specs::Scram::client_first_of))]
pub(crate) fn client_first_of(message: &[u8]) -> Option<First<'_>>
    ensures { option_map shown result ≡ client_first_of message.now }
{
    let end = message.len().min(3);
    let header = &message[..end];
    if !is_gs2_header(header) {
        return None;
    }
    user_read(header, &message[end..])
}

// What a client says in a login.
ghost use Rattle.std.specs.Prelude.{◌≡◌, ◌++◌, ◌∷◌, [], codes, flat_map, IfOk, OnOk};
ghost use Rattle.reql_login.specs.Messages.{escaped_byte};
ghost use Rattle.reql_client.specs.Login.{call, first_message, last_message};

use crate::greeting::field;
use crate::proof::first_bare;
use reql_memory::Memory;
use std::alloc::Global;

/// The first bytes of V1_0.
const LOGIN_VERSION: u32 = 0x34c2_bdc3;

/// The version, with which a login begins.
pub(crate) fn call(alloc: Global) -> Result<Vec<u8>, Memory>
    ensures { IfOk result (λ bytes. bytes.items ≡ call) }
{
    let bytes = field(LOGIN_VERSION).to_vec(alloc)?;
    Ok(bytes)
}

/// The first message, by a nonce that is printable ASCII without quotes or backslashes.
#[tactic(auto, unfolding(crate::specs::Login::first_message))]
pub(crate) fn first_message(alloc: Global, nonce: &[u8]) -> Result<Vec<u8>, Memory>
    ensures { IfOk result (λ message. message.items ≡ first_message nonce.now) }
{
    let bare = first_bare(alloc, nonce)?;
    let mut message = Vec::new(alloc);
    message.extend_from_slice(
        b"{\"protocol_version\":0,\"authentication_method\":\"SCRAM-SHA-256\",\"authentication\":\"n,,",
    )?;
    message.extend_from_slice(&bare)?;
    message.extend_from_slice(b"\"}\0")?;
    Ok(message)
}

fn put_escaped(out: &mut Vec<u8>, byte: u8) -> Result<(), Memory>
    ensures { OnOk result (out.new.items ≡ out.old.items ++ escaped_byte byte) }
{
    match byte {
        b'"' => out.extend_from_slice(b"\\\"")?,
        b'\\' => out.extend_from_slice(b"\\\\")?,
        _ => out.extend_from_slice(&[byte])?,
    }
    Ok(())
}

fn put_text(out: &mut Vec<u8>, text: &[u8]) -> Result<(), Memory>
    ensures { OnOk result (out.new.items ≡ out.old.items ++ flat_map escaped_byte text.now) }
{
    for byte in text {
        put_escaped(out, *byte)?;
    }
    Ok(())
}

/// The last message, by its text of SCRAM, which is printable ASCII.
#[tactic(auto, unfolding(crate::specs::Login::last_message))]
pub(crate) fn last_message(alloc: Global, text: &[u8]) -> Result<Vec<u8>, Memory>
    ensures { IfOk result (λ message. message.items ≡ last_message text.now) }
{
    let mut message = Vec::new(alloc);
    message.extend_from_slice(b"{\"authentication\":\"")?;
    put_text(&mut message, text)?;
    message.extend_from_slice(b"\"}\0")?;
    Ok(message)
}

// What bytes are as a greeting, one field after another.
ghost use Rattle.std.specs.Prelude.{◌≡◌, ◌+◌, ◌≤◌, length, take, drop};
ghost use Rattle.reql_wire.specs.Greeting.{Begins, Greets, field_at, key_verdict, length_verdict, other_verdict, protocol_verdict};

use crate::greeter::{GreetFault, Greeting};
use byteorder::{ByteOrder, LittleEndian};

/// Version V0_4 of the protocol (ql2.proto, VersionDummy).
const VERSION: u32 = 0x400c_2d20;

/// Version V1_0, with which a login begins (the same).
const LOGIN_VERSION: u32 = 0x34c2_bdc3;

/// Frames whose bodies are JSON (the same).
const PROTOCOL: u32 = 0x7e69_70c7;

/// The longest authorization key, in bytes.
pub const LONGEST_KEY: usize = 1024;

#[tactic(auto, unfolding(crate::specs::Greeting::field_at))]
fn field_at(bytes: &[u8], place: usize) -> u32
    requires { place + 4 ≤ length bytes.now }
    ensures { result ≡ field_at place bytes.now }
{
    LittleEndian::read_u32(&bytes[place..])
}

fn key_in(bytes: &[u8], len: usize) -> &[u8]
    requires { 8 + len ≤ length bytes.now }
    ensures { result.now ≡ take len (drop 8 bytes.now) }
{
    &bytes[8..8 + len]
}

#[tactic(auto, unfolding(crate::specs::Greeting::protocol_verdict))]
fn protocol_verdict(len: u32, bytes: &[u8]) -> Greeting
    ensures { result ≡ protocol_verdict len bytes.now }
{
    let used = 12 + len as usize;
    if bytes.len() < used {
        return Greeting::More;
    }
    let got = field_at(bytes, used - 4);
    if got != PROTOCOL {
        return Greeting::Refused(GreetFault::BadProtocol { got });
    }
    Greeting::Accepted { used }
}

#[tactic(auto, unfolding(crate::specs::Greeting::key_verdict))]
fn key_verdict(key: &[u8], len: u32, bytes: &[u8]) -> Greeting
    ensures { result ≡ key_verdict key.now len bytes.now }
{
    if bytes.len() < 8 + len as usize {
        return Greeting::More;
    }
    if key_in(bytes, len as usize) != key {
        return Greeting::Refused(GreetFault::BadKey);
    }
    protocol_verdict(len, bytes)
}

#[tactic(auto, unfolding(crate::specs::Greeting::length_verdict))]
fn length_verdict(key: &[u8], bytes: &[u8]) -> Greeting
    ensures { result ≡ length_verdict key.now bytes.now }
{
    if bytes.len() < 8 {
        return Greeting::More;
    }
    let len = field_at(bytes, 4);
    if len as usize > LONGEST_KEY {
        return Greeting::Refused(GreetFault::KeyTooLong { len });
    }
    key_verdict(key, len, bytes)
}

#[tactic(auto, unfolding(crate::specs::Greeting::other_verdict))]
fn other_verdict(got: u32) -> Greeting
    ensures { result ≡ other_verdict got }
{
    if got == LOGIN_VERSION {
        Greeting::Login { used: 4 }
    } else {
        Greeting::Refused(GreetFault::BadVersion { got })
    }
}

/// What the bytes are as a greeting by the key. `used` counts all bytes of an accepted one.
#[tactic(auto, unfolding(crate::specs::Greeting::verdict_of))]
pub(crate) fn verdict_of(key: &[u8], bytes: &[u8]) -> Greeting
    ensures verdict { Greets key.now bytes.now result }
    ensures begins { Begins key.now bytes.now result }
{
    if bytes.len() < 4 {
        return Greeting::More;
    }
    let got = field_at(bytes, 0);
    if got != VERSION {
        return other_verdict(got);
    }
    length_verdict(key, bytes)
}

ghost use Rattle.std.specs.Prelude.{◌≡◌, ◌≤◌, length};
ghost use Rattle.reql_wire.specs.Frames.{front, length_of, token_of};
ghost use Rattle.reql_wire.specs.Heads.{Finds, Spells};

use byteorder::{ByteOrder, LittleEndian};

/// The bytes of a frame in front of its body.
pub const HEADER_BYTES: usize = 12;

/// What stands at the front of some bytes: a whole frame of `used` bytes, or why there is none.
pub(crate) enum Head<'a> {
    More,
    Whole {
        token: u64,
        body: &'a [u8],
        used: usize,
    },
    TooLong {
        len: u32,
    },
}

fn read_token(bytes: &[u8]) -> u64
    requires { 12 ≤ length bytes.now }
    ensures { result ≡ token_of bytes.now }
{
    LittleEndian::read_u64(bytes)
}

fn read_length(bytes: &[u8]) -> u32
    requires { 12 ≤ length bytes.now }
    ensures { result ≡ length_of bytes.now }
{
    LittleEndian::read_u32(&bytes[8..])
}

/// Reads the header, and no byte of the body.
#[tactic(auto, unfolding(crate::specs::Frames::front))]
pub(crate) fn head_of(limit: u32, bytes: &[u8]) -> Head<'_>
    ensures exact { Finds bytes.now result (front limit bytes.now) }
    ensures spelled { Spells limit bytes.now result }
{
    if bytes.len() < HEADER_BYTES {
        return Head::More;
    }
    let len = read_length(bytes);
    if len > limit {
        return Head::TooLong { len };
    }
    let used = HEADER_BYTES + len as usize;
    if bytes.len() < used {
        return Head::More;
    }
    Head::Whole {
        token: read_token(bytes),
        body: &bytes[HEADER_BYTES..used],
        used,
    }
}

ghost use Rattle.std.specs.Prelude.{◌≡◌, ◌≢◌, ◌<◌, ◌≤◌, ◌+◌, ◌++◌, ◌^◌, length, take, IsOk, OnOk, OnErr, Err, vec_len, vec_capacity};
ghost use Rattle.reql_wire.specs.Frames.{header, spelling};
ghost use Rattle.reql_wire.specs.Feeding.{PutsFrame};

use crate::reading::HEADER_BYTES;
use byteorder::{ByteOrder, LittleEndian};
use std::alloc::AllocError;

/// Why a frame isn't written.
#[derive(Clone, Copy, Debug, PartialEq, Eq)]
pub enum FrameFault {
    /// The body's length, in bytes, doesn't fit into the 4 bytes that a header has for it.
    TooLong { len: u64 },
    /// There was no memory for the frame.
    Memory,
}

#[tactic(auto, unfolding(crate::specs::Frames::header))]
fn header_of(token: u64, len: u32) -> [u8; HEADER_BYTES]
    ensures { result ≡ header token len }
{
    let mut bytes = [0; HEADER_BYTES];
    LittleEndian::write_u64(&mut bytes, token);
    LittleEndian::write_u32(&mut bytes[8..], len);
    bytes
}

fn put(out: &mut Vec<u8>, token: u64, len: u32, body: &[u8]) -> Result<(), AllocError>
    requires { length body.now ≡ len }
    ensures ok { OnOk result
        (out.new.items ≡ out.old.items ++ spelling (record { token = token; body = body.now })) }
    ensures err { OnErr result (take (length out.old.items) out.new.items ≡ out.old.items) }
    ensures room { vec_len out.old + 12 + length body.now ≤ vec_capacity out.old → IsOk result }
    ensures capacity { vec_capacity out.old ≤ vec_capacity out.new }
{
    let header = header_of(token, len);
    out.extend_from_slice(&header)?;
    out.extend_from_slice(body)?;
    Ok(())
}

/// Appends a frame's spelling. An `Err` leaves what was there as it was.
///
/// Too long: exactly where the body has 2^32 bytes or more. Memory is never wanted where the frame,
/// a header of 12 bytes and the body, fits the room that `out` has; this room is never given back.
pub fn put_frame(out: &mut Vec<u8>, token: u64, body: &[u8]) -> Result<(), FrameFault>
    ensures puts { PutsFrame out.old.items out.new.items token body.now result }
    ensures room { vec_len out.old + 12 + length body.now ≤ vec_capacity out.old →
        result ≢ Err FrameFault.Memory }
    ensures capacity { vec_capacity out.old ≤ vec_capacity out.new }
{
    match u32::try_from(body.len()) {
        Err(_) => Err(FrameFault::TooLong {
            len: body.len() as u64,
        }),
        Ok(len) => {
            let before = out.len();
            match put(out, token, len, body) {
                Ok(()) => Ok(()),
                Err(_) => {
                    out.truncate(before);
                    Err(FrameFault::Memory)
                }
            }
        }
    }
}

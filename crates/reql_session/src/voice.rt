// What a session says.
ghost use Rattle.std.specs.Prelude.{◌≡◌, ◌<◌, ◌≤◌, ◌+◌, ◌^◌, length, IsOk, IfOk, OnErr, vec_capacity};
ghost use Rattle.reql_outside.specs.Tape.{SendsAll};
ghost use Rattle.reql_wire.specs.Frames.{spelling};

use reql_memory::Memory;
use reql_outside::{Link, send_all};
use reql_wire::put_frame;
use std::alloc::Global;
use std::marker::Model;

// The bytes of a frame that always finds room.
const ROOM: usize = 256;

// The bytes of room that are kept for later frames.
const KEPT_ROOM: usize = 65536;

/// What a session says: each answer is one frame, which is written whole before it is sent.
///
/// A frame of at most 256 bytes needs no memory. The room of a long one is given back once it was sent.
#[derive(Drop)]
pub(crate) struct Voice {
    alloc: Global,
    out: Vec<u8>,
}

impl Model for Voice {
    ghost use Rattle.std.specs.Prelude.{◌≤◌, vec_capacity};

    ghost Value = { Unit {0} };

    ghost view = { λ v. tt };

    ghost invariant = { λ v. 256 ≤ vec_capacity v.out };
}

impl Voice {
    /// A voice that has said nothing.
    pub(crate) fn new(alloc: Global) -> Result<Voice, Memory> {
        match Vec::with_capacity(alloc, ROOM) {
            Ok(out) => Ok(Voice { alloc, out }),
            Err(_) => Err(Memory),
        }
    }

    // Gives back the room of a long frame, if there is a shorter one to be had.
    fn give_back(&mut self) {
        if self.out.capacity() <= KEPT_ROOM {
            return;
        }
        if let Ok(out) = Vec::with_capacity(self.alloc, ROOM) {
            self.out = out;
        }
    }

    /// Says an answer: whether it was sent whole. Memory where there is no room for its frame; then nothing was sent.
    pub(crate) fn say<L: Link>(
        &mut self,
        link: &mut L,
        token: u64,
        body: &[u8],
    ) -> Result<bool, Memory>
        ensures said { IfOk result (λ whole. SendsAll (L.tape link.old) (L.tape link.new)
            (spelling (record { token = token; body = body.now })) whole) }
        ensures unsaid { OnErr result (L.tape link.new ≡ L.tape link.old) }
        ensures short { length body.now + 12 ≤ 256 → IsOk result }
    {
        self.out.clear();
        match put_frame(&mut self.out, token, body) {
            Ok(()) => {
                let whole = send_all(link, self.out.as_slice());
                self.give_back();
                Ok(whole)
            }
            Err(_) => Err(Memory),
        }
    }
}

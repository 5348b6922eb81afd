// A script that is being written.
ghost use Rattle.std.specs.Prelude.{◌≡◌, ◌<◌, ◌≤◌, ◌+◌, ◌^◌, ◌++◌, length, IfOk, OnOk, OnErr};
ghost use Rattle.reql_wire.specs.Frames.{spelling};
ghost use Rattle.reql_load.specs.Script.{under, next, frame};
ghost use Rattle.reql_load.specs.Writing.{Written, greeted, with_request};

use reql_memory::Memory;
use reql_wire::{FrameFault, put_frame};
use std::alloc::Global;
use std::marker::Model;

// The greeting of version V0_4 without a key, in JSON (RethinkDB's guide on writing drivers).
const GREETING: &[u8] = b"\x20\x2d\x0c\x40\0\0\0\0\xc7\x70\x69\x7e";

/// The first of the tokens that rise over a script.
const FIRST: u64 = 3;

/// The bytes of a script so far, and the next of the tokens that rise over it.
#[derive(Drop)]
pub(crate) struct Writer {
    bytes: Vec<u8>,
    token: u64,
}

impl Model for Writer {
    ghost use Rattle.std.specs.Prelude.{◌<◌, length};
    ghost use Rattle.reql_load.specs.Writing.{Written};

    ghost Value = { Written };

    ghost view = { λ w. record { bytes = w.bytes.items; token = w.token } };

    ghost invariant = { λ w. w.token < length w.bytes.items };
}

impl Writer {
    /// A greeting and no request yet.
    #[tactic(auto, unfolding(reql_wire::specs::Greeting::greeting_by, reql_wire::specs::Greeting::field))]
    pub(crate) fn new(alloc: Global) -> Result<Writer, Memory>
        ensures { IfOk result (λ w. w ≡ greeted) }
    {
        let mut bytes = Vec::new(alloc);
        bytes.extend_from_slice(GREETING)?;
        Ok(Writer {
            bytes,
            token: FIRST,
        })
    }

    /// Adds a request under a token.
    pub(crate) fn put(&mut self, token: u64, body: &[u8]) -> Result<(), Memory>
        requires { length body.now < 2 ^ 32 }
        ensures { OnOk result (self.new ≡ with_request self.old (under token body.now)) }
    {
        put(&mut self.bytes, token, body)
    }

    /// Adds a request under the next of the tokens that rise.
    pub(crate) fn put_next(&mut self, body: &[u8]) -> Result<(), Memory>
        requires { length body.now < 2 ^ 32 }
        ensures { OnOk result (self.new ≡ with_request self.old (next body.now)) }
    {
        put(&mut self.bytes, self.token, body)?;
        self.token += 1;
        Ok(())
    }

    /// The bytes of all that was added, behind the greeting.
    pub(crate) fn into_bytes(self) -> Vec<u8>
        ensures { result.items ≡ self.bytes }
    {
        self.bytes
    }
}

// Appends a frame.
#[tactic(auto, using(crate::proofs::Writing::longer))]
fn put(bytes: &mut Vec<u8>, token: u64, body: &[u8]) -> Result<(), Memory>
    requires { length body.now < 2 ^ 32 }
    ensures ok { OnOk result (bytes.new.items ≡ bytes.old.items ++ spelling (frame token body.now)) }
    ensures longer { OnOk result (length bytes.old.items + 12 ≤ length bytes.new.items) }
    ensures err { OnErr result (bytes.new.items ≡ bytes.old.items) }
{
    match put_frame(bytes, token, body) {
        Ok(()) => Ok(()),
        Err(FrameFault::Memory) => Err(Memory),
        Err(FrameFault::TooLong { .. }) => unreachable!(),
    }
}

use reql_memory::Seq;
use std::alloc::AllocError;

/// A token, and a body that belongs to it.
#[derive(Drop)]
pub struct Frame {
    /// What the client calls its request by. It is sent back as it came.
    pub token: u64,
    /// The bytes of a request or of an answer.
    pub body: Seq<u8>,
}

/// Why a feeder gives no frame.
#[derive(Clone, Copy, Debug, PartialEq, Eq)]
pub enum WireFault {
    /// The next header announces a body of this length, which is above the limit.
    TooLong { len: u32 },
    /// There was no memory for the body.
    Memory,
}

impl From<AllocError> for WireFault {
    ghost use Rattle.std.specs.Prelude.{◌≡◌};
    ghost use Rattle.reql_wire.specs.declared.frame.WireFault.TheVariants.{Memory};

    ghost from_gives = { λ _ e. e ≡ Memory };

    fn from(_want: AllocError) -> WireFault {
        WireFault::Memory
    }
}

// Bytes, seen as their list.
ghost use Rattle.std.specs.Prelude.{◌≡◌, IfOk};
ghost use Rattle.std.specs.Ordering.{MatchOrdering};
ghost use Rattle.reql_datum.specs.Members.{text_order};
ghost use Rattle.reql_datum.specs.Order.{text_less};

use reql_memory::Memory;
use std::alloc::Global;
use std::cmp::Ordering;
use std::marker::Model;
use std::sync::ArcSlice;

/// Bytes that are shared: the binary of a document. Contracts see their list.
#[derive(Drop)]
pub struct Blob {
    bytes: ArcSlice<u8>,
}

impl Model for Blob {
    ghost use Rattle.std.specs.Prelude.{ℕ, List};
    ghost use Rattle.std.specs.Arc.{arc_slice_items};

    ghost Value = { List ℕ };

    ghost view = { λ a. arc_slice_items a.bytes };
}

impl Blob {
    /// Bytes of its own.
    pub fn of(alloc: Global, bytes: &[u8]) -> Result<Blob, Memory>
        ensures { IfOk result (λ b. b ≡ bytes.now) }
    {
        let bytes = ArcSlice::from_slice(alloc, bytes)?;
        Ok(Blob { bytes })
    }

    /// The bytes.
    pub fn as_bytes(&self) -> &[u8]
        ensures { result.now ≡ self.now }
    {
        self.bytes.as_slice()
    }

    /// By the first byte that differs, a proper prefix first.
    #[tactic(auto, using(crate::proofs::Order::text_says))]
    pub fn order(&self, bytes: &[u8]) -> Ordering
        ensures answer { result ≡ text_order self.now bytes.now }
        ensures meaning { MatchOrdering result (text_less self.now bytes.now) (self.now ≡ bytes.now)
            (text_less bytes.now self.now) }
    {
        self.as_bytes().cmp(bytes)
    }

    /// An equal blob that shares the bytes. Memory where the count of sharers is full.
    pub fn copy(&self) -> Result<Blob, Memory>
        ensures { IfOk result (λ b. b ≡ self.now) }
    {
        let bytes = self.bytes.clone()?;
        Ok(Blob { bytes })
    }
}

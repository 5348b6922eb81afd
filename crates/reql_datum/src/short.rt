// A short text, which lies where it is held.
ghost use Rattle.std.specs.Prelude.{◌≡◌, ◌≤◌, IfSome, length};

use std::marker::Model;
use std::str::from_utf8_unchecked;

// The bytes of the longest one.
const ROOM: usize = 16;

/// A text of at most 16 bytes. Contracts see its bytes.
#[derive(Drop)]
pub(crate) struct Short {
    // Before the bytes, which so lie where a number of 64 bits may, in what holds it too.
    len: u32,
    bytes: [u8; ROOM],
}

impl Model for Short {
    ghost use Rattle.std.specs.Prelude.{◌≡◌, ◌≤◌, ℕ, List, length, take, IsUtf8};

    ghost Value = { List ℕ };

    ghost view = { λ s. take s.len s.bytes };

    ghost invariant = { λ s. (s.len ≤ 16) × (length s.bytes ≡ 16) × ∥ IsUtf8 (take s.len s.bytes) ∥₁ };
}

impl Short {
    /// A text, where it is short.
    pub(crate) fn of(text: &str) -> Option<Short>
        ensures { IfSome result (λ s. s ≡ text.now) }
    {
        let len = text.len();
        if len > ROOM {
            return None;
        }
        let mut bytes = [0; ROOM];
        bytes[..len].copy_from_slice(text.as_bytes());
        Some(Short {
            len: len as u32,
            bytes,
        })
    }

    /// The text.
    pub(crate) fn as_str(&self) -> &str
        ensures { result.now ≡ self.now }
    {
        unsafe { from_utf8_unchecked(&self.bytes[..self.len as usize]) }
    }

    /// An equal one.
    pub(crate) fn copy(&self) -> Short
        ensures { result ≡ self.now }
    {
        Short {
            len: self.len,
            bytes: self.bytes,
        }
    }
}

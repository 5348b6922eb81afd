ghost use Rattle.std.specs.Prelude.{◌≡◌, ◌++◌, [], length, IfOk};
ghost use Rattle.reql_wire.specs.Greeting.{Answers, Greets, accepted, kept, refusal};

use crate::handshake::{LONGEST_KEY, verdict_of};
use reql_memory::Memory;
use reql_scram::LoginFault;
use std::alloc::Global;
use std::marker::Model;

/// The bytes of the greeting with the longest key: its version, the length of the key, the key, and
/// the protocol.
const LONGEST_GREETING: usize = 12 + LONGEST_KEY;

/// What the bytes given so far are as a greeting.
#[derive(Clone, Copy, Debug, PartialEq, Eq)]
pub enum Greeting {
    /// They begin a greeting, and are none yet.
    More,
    /// They begin with the greeting, which ends after so many bytes of the piece given now.
    Accepted { used: usize },
    /// They begin with the version of a login, 0x34c2bdc3 (V1_0), which ends after so many bytes of the piece given
    /// now.
    Login { used: usize },
    /// They begin with something else.
    Refused(GreetFault),
}

/// Why a greeting is refused. Each is told at the last byte of the field that it speaks of, the
/// first such field alone.
#[derive(Clone, Copy, Debug, PartialEq, Eq)]
pub enum GreetFault {
    /// The version is neither V0_4, 0x400c2d20, nor that of a login.
    BadVersion { got: u32 },
    /// The key that is announced has more than 1024 bytes.
    KeyTooLong { len: u32 },
    /// It is another key.
    BadKey,
    /// The protocol isn't JSON, 0x7e6970c7.
    BadProtocol { got: u32 },
    /// It began a login, which is refused. No greeter tells this one.
    Login(LoginFault),
}

impl GreetFault {
    /// What the server sends before it ends the session: a text and a zero byte.
    pub fn answer(self) -> &'static [u8]
        ensures { result.now ≡ refusal self }
    {
        match self {
            GreetFault::BadVersion { .. } => b"ERROR: unsupported protocol version\0",
            GreetFault::KeyTooLong { .. } => b"ERROR: authorization key too long\0",
            GreetFault::BadKey => b"ERROR: incorrect authorization key\0",
            GreetFault::BadProtocol { .. } => b"ERROR: unsupported wire protocol\0",
            GreetFault::Login(fault) => fault.answer(),
        }
    }
}

/// What the server sends where the greeting is accepted: a text and a zero byte.
pub fn accepted_answer() -> &'static [u8]
    ensures { result.now ≡ accepted }
{
    b"SUCCESS\0"
}

/// Takes a session's first bytes in any pieces, and says what they are as a greeting by a key.
///
/// Contracts see of it the key, and the list of the first 1036 bytes that it was given, or of all
/// that are fewer. No greeting has more.
#[derive(Drop)]
pub struct Greeter {
    key: Vec<u8>,
    heard: Vec<u8>,
}

impl Model for Greeter {
    ghost use Rattle.std.specs.Prelude.{◌≤◌, length, vec_capacity};
    ghost use Rattle.reql_wire.specs.Greeting.{Listening, longest_greeting};

    ghost Value = { Listening };

    ghost view = { λ g. record { key = g.key.items; heard = g.heard.items } };

    ghost invariant = { λ g. (length g.heard.items ≤ longest_greeting)
        × (longest_greeting ≤ vec_capacity g.heard) };
}

impl Greeter {
    /// A greeter that was given nothing. A key of more than 1024 bytes is no greeting's: each key
    /// that comes is refused then.
    pub fn new(alloc: Global, key: &[u8]) -> Result<Greeter, Memory>
        ensures { IfOk result (λ g. g ≡ record { key = key.now; heard = [] }) }
    {
        let key = key.to_vec(alloc)?;
        let heard = Vec::with_capacity(alloc, LONGEST_GREETING)?;
        Ok(Greeter { key, heard })
    }

    /// Gives it the next piece. It takes no memory.
    ///
    /// A verdict other than `More` stands from then on: a piece that is given to a greeter that has
    /// accepted is `Accepted` with none of its bytes used, and a refusal is given again.
    pub fn feed(&mut self, piece: &[u8]) -> Greeting
        ensures keeps { self.new ≡ record {
          key = self.old.key;
          heard = kept (self.old.heard ++ piece.now);
        } }
        ensures answers { Answers self.old.key self.old.heard piece.now result }
        ensures waits { result ≡ Greeting.More → self.new.heard ≡ self.old.heard ++ piece.now }
    {
        let before = self.heard.len();
        let taken = piece.len().min(LONGEST_GREETING - before);
        let Ok(()) = self.heard.extend_from_slice(&piece[..taken]) else {
            unreachable!()
        };
        match verdict_of(&self.key, &self.heard) {
            Greeting::Accepted { used } => Greeting::Accepted {
                used: used.saturating_sub(before),
            },
            Greeting::Login { used } => Greeting::Login {
                used: used.saturating_sub(before),
            },
            other => other,
        }
    }

    /// How many bytes it holds of a greeting that isn't whole yet.
    pub fn held(&self) -> usize
        ensures waiting { Greets self.now.key self.now.heard Greeting.More →
            result ≡ length self.now.heard }
        ensures decided { (Greets self.now.key self.now.heard Greeting.More → ⊥) → result ≡ 0 }
    {
        match verdict_of(&self.key, &self.heard) {
            Greeting::More => self.heard.len(),
            _ => 0,
        }
    }
}

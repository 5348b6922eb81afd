ghost use Rattle.std.specs.Prelude.{◌≡◌, ◌++◌, ◌≤◌, [], length, drop, IfOk, OnOk, OnErr};
ghost use Rattle.reql_wire.specs.Feeding.{Holding, Takes};

use crate::reading::{Head, head_of};
use crate::{Frame, WireFault};
use reql_memory::{Memory, Seq};
use std::alloc::{AllocError, Global};
use std::marker::Model;

/// The room, in bytes, that a feeder keeps for later pieces once all it held was taken.
const KEPT_ROOM: usize = 65536;

/// Takes the bytes of a stream in any pieces, and gives its whole frames in order.
///
/// Each byte is moved a bounded number of times, however it comes: `take` looks at the header alone
/// until the frame is whole, and the bytes of frames that were taken are cleared away only where
/// they are at least half of what is there. A long body's room is given back once it is taken.
#[derive(Drop)]
pub struct Feeder {
    alloc: Global,
    limit: u32,
    bytes: Vec<u8>,
    start: usize,
}

impl Model for Feeder {
    ghost use Rattle.std.specs.Prelude.{drop, ◌≤◌, length};
    ghost use Rattle.reql_wire.specs.Feeding.{Holding};

    ghost Value = { Holding };

    ghost view = { λ f. record { limit = f.limit; held = drop f.start f.bytes.items } };

    ghost invariant = { λ f. f.start ≤ length f.bytes.items };
}

impl Feeder {
    /// A feeder that has been given nothing, for bodies of at most `limit` bytes. It takes no
    /// memory.
    pub fn new(alloc: Global, limit: u32) -> Feeder
        ensures { result ≡ record { limit = limit; held = [] } }
    {
        Feeder {
            alloc,
            limit,
            bytes: Vec::new(alloc),
            start: 0,
        }
    }

    /// How many bytes it holds that belong to no frame that was taken.
    pub fn held(&self) -> usize
        ensures { result ≡ length self.now.held }
    {
        self.bytes.len() - self.start
    }

    /// The bytes that it holds.
    pub fn bytes(&self) -> &[u8]
        ensures { result.now ≡ self.now.held }
    {
        &self.bytes[self.start..]
    }

    /// Passes over the first so many bytes that it holds.
    pub fn pass_over(&mut self, count: usize)
        requires { count ≤ length self.old.held }
        ensures { self.new ≡ record { limit = self.old.limit; held = drop count self.old.held } }
    {
        self.start += count;
    }

    /// Gives it the next piece of the stream. An `Err` changes nothing.
    pub fn feed(&mut self, piece: &[u8]) -> Result<(), Memory>
        ensures ok { OnOk result
            (self.new ≡ record { limit = self.old.limit; held = self.old.held ++ piece.now }) }
        ensures err { OnErr result (self.new ≡ self.old) }
    {
        let unread = self.bytes.len() - self.start;
        if unread <= self.start {
            clear_front(&mut self.bytes, self.start);
            self.start = 0;
        }
        self.bytes.extend_from_slice(piece)?;
        Ok(())
    }

    /// Takes the next frame. None: the bytes that are held begin no whole frame, and more are
    /// wanted.
    ///
    /// Too long: the next header announces more than the limit, and each further `take` says so
    /// again. An `Err` and a None change nothing.
    pub fn take(&mut self) -> Result<Option<Frame>, WireFault>
        ensures { Takes self.old self.new result }
    {
        match head_of(self.limit, &self.bytes[self.start..]) {
            Head::More => Ok(None),
            Head::TooLong { len } => Err(WireFault::TooLong { len }),
            Head::Whole { token, body, used } => {
                let body = copied(self.alloc, body)?;
                self.start += used;
                self.give_back_room();
                Ok(Some(Frame { token, body }))
            }
        }
    }

    // Gives back the room of what was taken, where it is much and nothing else is held.
    fn give_back_room(&mut self)
        ensures { self.new ≡ self.old }
    {
        if self.start == self.bytes.len() && self.bytes.capacity() > KEPT_ROOM {
            self.bytes = Vec::new(self.alloc);
            self.start = 0;
        }
    }
}

// Takes the first `start` bytes away, which are at least half of all.
fn clear_front(bytes: &mut Vec<u8>, start: usize)
    requires within { start ≤ length bytes.old.items }
    requires half { length (drop start bytes.old.items) ≤ start }
    ensures { bytes.new.items ≡ drop start bytes.old.items }
{
    let unread = bytes.len() - start;
    let (front, kept) = bytes.as_mut_slice().split_at_mut(start);
    front[..unread].copy_from_slice(kept);
    bytes.truncate(unread);
}

fn copied(alloc: Global, bytes: &[u8]) -> Result<Seq<u8>, AllocError>
    ensures { IfOk result (λ list. list ≡ bytes.now) }
{
    let mut list = Vec::new(alloc);
    list.extend_from_slice(bytes)?;
    Ok(Seq::from_vec(list))
}

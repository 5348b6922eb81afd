ghost use Rattle.std.specs.Prelude.{◌≡◌, ◌≤◌, [], ◌∷◌, ◌++◌, List, ℕ, map, None, option_map, option_to_list, IfOk, OnOk, OnErr, IsSome};
ghost use Rattle.reql_disk.specs.Disk.{Past};
ghost use Rattle.reql_blocks.specs.Held.{Counts};
ghost use Rattle.reql_records.specs.Bodies.{body_of, inside, listed};
ghost use Rattle.reql_records.specs.Books.{Books, Keeps, Flushes};
ghost use Rattle.reql_records.specs.Safe.{Saves};

use reql_blocks::Blocks;
use reql_disk::{Disk, DiskFault};
use std::alloc::{AllocError, Global};
use std::marker::Model;

/// What a journal keeps, as text.
pub trait Record {
    /// The text.
    ghost text: { Self → List ℕ };

    /// Appends the text.
    fn write(&self, out: &mut Vec<u8>) -> Result<(), AllocError>
        ensures { OnOk result (out.new.items ≡ out.old.items ++ text self.now) };
}

/// A journal of blocks, and the records that wait for the next flush.
#[derive(Drop)]
pub struct Journal<D: Disk, R: Record + Drop> {
    alloc: Global,
    blocks: Blocks<D>,
    waiting: Vec<R>,
}

impl<D: Disk, R: Record + Drop> Model for Journal<D, R> {
    ghost use Rattle.std.specs.Prelude.{◌-◌, map, vec_capacity, length};
    ghost use Rattle.reql_records.specs.Books.{Journal};

    ghost Value = { Journal };

    ghost view = { λ j. record {
      held = j.blocks;
      waiting = map R.text j.waiting.items;
      room = vec_capacity j.waiting - length j.waiting.items;
    } };
}

impl<D: Disk, R: Record + Drop> Journal<D, R> {
    /// A journal in which no record waits.
    pub fn new(alloc: Global, blocks: Blocks<D>) -> Journal<D, R>
        ensures held { result.held ≡ blocks }
        ensures none { result.waiting ≡ [] }
    {
        Journal {
            alloc,
            blocks,
            waiting: Vec::new(alloc),
        }
    }

    /// The disk.
    pub fn disk(&self) -> &D {
        self.blocks.disk()
    }

    /// Where it takes its memory.
    pub fn allocator(&self) -> Global {
        self.alloc
    }

    /// Takes room for one more record.
    pub fn take_room(&mut self) -> Result<(), AllocError>
        ensures held { self.new.held ≡ self.old.held }
        ensures waiting { self.new.waiting ≡ self.old.waiting }
        ensures room { OnOk result (1 ≤ self.new.room) }
    {
        self.waiting.reserve(1)
    }

    /// Lets a record wait. It takes no memory.
    pub fn append(&mut self, entry: R)
        requires { 1 ≤ self.old.room }
        ensures held { self.new.held ≡ self.old.held }
        ensures waiting { self.new.waiting ≡ self.old.waiting ++ R.text entry ∷ [] }
    {
        let Ok(()) = self.waiting.push(entry) else {
            unreachable!()
        };
    }

    /// Lets a record wait, where there is one, and flushes where the call waits for the disk. It takes memory only for the flush.
    ///
    /// Whatever moment a crash comes at, it leaves the records that were sure and the first of the others, this one the last of
    /// them. No record is lost by a failure.
    pub fn keep(&mut self, entry: Option<R>, waits: bool) -> Result<(), DiskFault>
        requires { IsSome entry → 1 ≤ self.old.room }
        ensures counts { Counts self.old.held.told self.new.held.told result }
        ensures saves { Saves (option_to_list (option_map R.text entry)) waits self.old self.new result }
    {
        self.append_if(entry);
        if !waits {
            return Ok(());
        }
        self.flush()
    }

    fn append_if(&mut self, entry: Option<R>)
        requires { IsSome entry → 1 ≤ self.old.room }
        ensures held { self.new.held ≡ self.old.held }
        ensures waiting { self.new.waiting ≡ self.old.waiting ++ option_to_list (option_map R.text entry) }
    {
        match entry {
            Some(entry) => self.append(entry),
            None => {}
        }
    }

    /// Writes the records that wait, and makes all that were written so far safe.
    pub fn flush(&mut self) -> Result<(), DiskFault>
        ensures counts { Counts self.old.held.told self.new.held.told result }
        ensures flushes { (b : Books) (past : Past) → Keeps b past self.old → Flushes b past self.new result }
    {
        match self.blocks.open_gate() {
            Ok(()) => self.flush_waiting(),
            Err(why) => Err(why),
        }
    }

    fn flush_waiting(&mut self) -> Result<(), DiskFault>
        requires { self.old.held.next ≡ None }
        ensures counts { Counts self.old.held.told self.new.held.told result }
        ensures flushes { (b : Books) (past : Past) → Keeps b past self.old → b.staged ≡ None → Flushes b past self.new result }
    {
        if self.waiting.as_slice().is_empty() {
            return Ok(());
        }
        match body_of(self.alloc, &self.waiting) {
            Ok(body) => self.write(&body),
            Err(_) => Err(DiskFault::Memory),
        }
    }

    fn write(&mut self, body: &[u8]) -> Result<(), DiskFault>
        requires next { self.old.held.next ≡ None }
        requires body { body.now ≡ body_of self.old.waiting }
        ensures counts { Counts self.old.held.told self.new.held.told result }
        ensures flushes { (b : Books) (past : Past) → Keeps b past self.old → b.staged ≡ None → Flushes b past self.new result }
    {
        match self.blocks.stage(body) {
            Ok(()) => {
                self.waiting.clear();
                self.blocks.open_gate()
            }
            Err(why) => Err(why),
        }
    }
}

// The JSON array of some records.
#[tactic(auto, unfolding(crate::specs::Bodies::body_of))]
fn body_of<R: Record>(alloc: Global, records: &[R]) -> Result<Vec<u8>, AllocError>
    ensures { IfOk result (λ body. body.items ≡ body_of (map R.text records.now)) }
{
    let mut body = Vec::new(alloc);
    body.push(b'[')?;
    write_inside(&mut body, records)?;
    body.push(b']')?;
    Ok(body)
}

// Appends some records, with a comma between two.
fn write_inside<R: Record>(body: &mut Vec<u8>, records: &[R]) -> Result<(), AllocError>
    ensures { OnOk result (body.new.items ≡ body.old.items ++ inside (map R.text records.now)) }
{
    let [first, rest @ ..] = records else {
        return Ok(());
    };
    first.write(body)?;
    write_rest(body, rest)?;
    Ok(())
}

// Appends some records, each with a comma before it.
fn write_rest<R: Record>(body: &mut Vec<u8>, rest: &[R]) -> Result<(), AllocError>
    ensures { OnOk result (body.new.items ≡ body.old.items ++ listed (map R.text rest.now)) }
{
    let mut place = 0;
    while place < rest.len() {
        body.push(b',')?;
        rest[place].write(body)?;
        place += 1;
    }
    Ok(())
}

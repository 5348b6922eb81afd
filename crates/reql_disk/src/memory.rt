ghost use Rattle.std.specs.Prelude.{◌≡◌, ◌≤◌, [], length, take, true, false, IfOk, OnOk, OnErr};
ghost use Rattle.reql_outside.specs.Source.{is_sound};
ghost use Rattle.reql_disk.specs.Disk.{over, seen, Left, IsMade, Wrote, Synced};
ghost use Rattle.reql_disk.specs.Memory.{opening, step_of, steps_of};
ghost use Rattle.reql_disk.specs.Calls.{grown};

use crate::{Disk, DiskFault};
use std::alloc::{AllocError, Global};
use std::marker::Model;
use std::snapshot::Snapshot;

/// What was done to a disk in memory.
#[derive(Debug, Drop)]
pub enum MemStep {
    /// A write of so many bytes at a place, where a read then gave these.
    Wrote { at: u64, count: u64, left: Vec<u8> },
    /// A sync that was answered Ok.
    Synced,
}

/// A disk in memory, which keeps what was done to it.
#[derive(Drop)]
pub struct MemDisk {
    alloc: Global,
    bytes: Vec<u8>,
    first: Snapshot<Vec<u8>>,
    steps: Vec<MemStep>,
    fails: Vec<u64>,
    calls: u64,
    faults: u64,
}

impl Model for MemDisk {
    ghost use Rattle.std.specs.Prelude.{◌≡◌};
    ghost use Rattle.reql_disk.specs.Memory.{Memory, Remembers, steps_of};

    ghost Value = { Memory };

    ghost view = { λ m. record {
      past = record { first = m.first.value.items; steps = steps_of m.steps.items };
      calls = m.calls;
      fails = m.fails.items;
      faults = m.faults;
    } };

    ghost invariant = { λ m. Remembers m.bytes.items m.first.value.items (steps_of m.steps.items) };
}

impl MemDisk {
    /// A disk that holds these bytes, safe from a crash; its k-th call, from 0, fails where k is in the list. It is sound
    /// where that is empty. It takes no memory.
    pub fn new(alloc: Global, bytes: Vec<u8>, fails: Vec<u64>) -> MemDisk
        ensures { result ≡ opening bytes.items fails.items }
    {
        let first = Snapshot::of(&bytes);
        MemDisk {
            alloc,
            bytes,
            first,
            steps: Vec::new(alloc),
            fails,
            calls: 0,
            faults: 0,
        }
    }

    /// What a read gives, which a crash may leave too.
    #[tactic(auto, using(crate::proofs::Crashes::seen_left))]
    pub fn bytes(&self) -> &[u8]
        ensures seen { result.now ≡ seen self.now.past }
        ensures left { Left self.now.past result.now }
    {
        &self.bytes
    }

    /// What was done to it, in order.
    pub fn steps(&self) -> &[MemStep]
        ensures { steps_of result.now ≡ self.now.past.steps }
    {
        &self.steps
    }

    /// Whether no call of it fails.
    pub fn is_sound(&self) -> bool
        ensures { result ≡ is_sound self.now.fails }
    {
        self.fails.is_empty()
    }

    // Whether this call is told to fail.
    fn fails_now(&mut self) -> bool
        ensures past { self.new.past ≡ self.old.past }
        ensures fails { self.new.fails ≡ self.old.fails }
        ensures faults { self.new.faults ≡ self.old.faults }
        ensures sound { result ≡ true → is_sound self.old.fails ≡ false }
    {
        let fails = self.fails.contains(&self.calls);
        self.calls = self.calls.saturating_add(1);
        fails
    }

    // Leaves the front of a piece at a place.
    #[tactic(auto, using(crate::proofs::Pushes::steps_push))]
    fn write(&mut self, at: u64, piece: &[u8], left: usize) -> Result<(), AllocError>
        requires at { at ≤ length (seen self.old.past) }
        requires left { left ≤ length piece.now }
        ensures ok { OnOk result (self.new ≡ record self.old { past = grown (Wrote at (length piece.now) (take left piece.now)) self.old.past }) }
        ensures err { OnErr result (self.new ≡ self.old) }
    {
        let count = piece.len() as u64;
        let piece = front(self.alloc, piece, left)?;
        let bytes = overlaid(self.alloc, &self.bytes, at, &piece)?;
        self.steps.push(MemStep::Wrote {
            at,
            count,
            left: piece,
        })?;
        self.bytes = bytes;
        Ok(())
    }

    // Notes that all was made safe.
    #[tactic(auto, using(crate::proofs::Pushes::steps_push))]
    fn note_sync(&mut self) -> Result<(), AllocError>
        ensures ok { OnOk result (self.new ≡ record self.old { past = grown Synced self.old.past }) }
        ensures err { OnErr result (self.new ≡ self.old) }
    {
        self.steps.push(MemStep::Synced)?;
        Ok(())
    }
}

fn front(alloc: Global, piece: &[u8], left: usize) -> Result<Vec<u8>, AllocError>
    requires { left ≤ length piece.now }
    ensures { IfOk result (λ front. front.items ≡ take left piece.now) }
{
    let front = piece[..left].to_vec(alloc)?;
    Ok(front)
}

fn overlaid(alloc: Global, old: &[u8], at: u64, bytes: &[u8]) -> Result<Vec<u8>, AllocError>
    requires { at ≤ length old.now }
    ensures { IfOk result (λ new. new.items ≡ over old.now at bytes.now) }
{
    let at = at as usize;
    let mut new = old[..at].to_vec(alloc)?;
    new.extend_from_slice(bytes)?;
    if bytes.len() < old.len() - at {
        new.extend_from_slice(&old[at + bytes.len()..])?;
    }
    Ok(new)
}

impl Disk for MemDisk {
    ghost use Rattle.reql_disk.specs.Memory.{told_of};

    ghost told = { told_of };

    fn size(&mut self) -> Result<u64, DiskFault> {
        if self.fails_now() {
            self.faults = self.faults.saturating_add(1);
            return Err(DiskFault::Failed);
        }
        Ok(self.bytes.len() as u64)
    }

    fn read(&mut self, at: u64, buf: &mut [u8]) -> Result<(), DiskFault> {
        if self.fails_now() {
            self.faults = self.faults.saturating_add(1);
            return Err(DiskFault::Failed);
        }
        let at = at as usize;
        buf.copy_from_slice(&self.bytes[at..at + buf.len()]);
        Ok(())
    }

    fn write_at(&mut self, at: u64, piece: &[u8]) -> Result<(), DiskFault> {
        let fails = self.fails_now();
        if at.checked_add(piece.len() as u64).is_none() {
            return Err(DiskFault::Memory);
        }
        // Where it fails it leaves half of the piece.
        let left = if fails { piece.len() / 2 } else { piece.len() };
        if self.write(at, piece, left).is_err() {
            return Err(DiskFault::Memory);
        }
        if fails {
            self.faults = self.faults.saturating_add(1);
            return Err(DiskFault::Failed);
        }
        Ok(())
    }

    fn sync(&mut self) -> Result<(), DiskFault> {
        if self.fails_now() {
            self.faults = self.faults.saturating_add(1);
            return Err(DiskFault::Failed);
        }
        match self.note_sync() {
            Ok(()) => Ok(()),
            Err(_) => Err(DiskFault::Memory),
        }
    }
}

ghost use Rattle.std.specs.Prelude.{◌≡◌, ◌≤◌, ◌+◌, ◌^◌, length};
ghost use Rattle.reql_disk.specs.Calls.{Told, OfSeen, Measures, Reads, Writes, IsRefused, Syncs};

/// Why a call of a disk, or of its folder, did not what was asked.
#[derive(Clone, Copy, Debug, PartialEq, Eq)]
pub enum DiskFault {
    /// An error came, and `faults` rose by one, as with no other answer. The disk isn't sound.
    Failed,
    /// There was no memory, or no room for what was to be written, and nothing was changed.
    Memory,
}

/// A disk that holds one file.
///
/// A count of faults that stands at 2^64 - 1 counts as risen: it stays there.
pub trait Disk {
    /// What the disk tells of itself: what it held and what was done to it, where it tells that, how often it failed, and
    /// whether it is sound. A sound disk never answers Failed, and a disk is sound from its making on, or never.
    ghost told: { Self → Told };

    /// How many bytes the file has.
    fn size(&mut self) -> Result<u64, DiskFault>
        ensures { Measures (told self.old) (told self.new) result };

    /// Fills the buffer with the bytes from a place on, all of which are there.
    fn read(&mut self, at: u64, buf: &mut [u8]) -> Result<(), DiskFault>
        requires { OfSeen (λ bytes. at + length buf.old ≤ length bytes) (told self.old).past }
        ensures { Reads (told self.old) (told self.new) at buf.new result };

    /// Writes the piece over what is there from a place on, and past the end. The place is at most the size.
    ///
    /// A write that would end above 2^64 - 1 finds no room: it is refused, and changes nothing.
    fn write_at(&mut self, at: u64, piece: &[u8]) -> Result<(), DiskFault>
        requires { OfSeen (λ bytes. at ≤ length bytes) (told self.old).past }
        ensures writes { Writes (told self.old) (told self.new) at piece.now result }
        ensures refused { 2 ^ 64 ≤ at + length piece.now → IsRefused (told self.old) (told self.new) result };

    /// Makes what was written safe: where it answers Ok, a crash leaves what a read gives.
    fn sync(&mut self) -> Result<(), DiskFault>
        ensures { Syncs (told self.old) (told self.new) result };
}

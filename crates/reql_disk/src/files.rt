// Folders, from which disks come.
ghost use Rattle.std.specs.Prelude.{◌≡◌};
ghost use Rattle.std.specs.Result.{result_map_both};
ghost use Rattle.reql_disk.specs.Files.{FilesTold, OpensFile};

use crate::disk::{Disk, DiskFault};

/// The files of a folder, by their names.
///
/// A count of faults that stands at 2^64 - 1 counts as risen: it stays there.
pub trait Files {
    type Disk: Disk;

    /// What the folder tells of itself: the bytes of each name's file, where it tells them, how often opening one failed,
    /// and whether it is sound. A sound folder never answers Failed, and the disks that it gives are sound; it is so from
    /// its making on, or never.
    ghost told: { Self → FilesTold };

    /// Opens the file of a name, and makes an empty one where there is none.
    fn open(&mut self, name: &str) -> Result<Self::Disk, DiskFault>
        ensures { OpensFile (told self.old) (told self.new) name.now (result_map_both Self.Disk.told (λ why. why) result) };
}

// Files of the system as disks.
ghost use Rattle.std.specs.Prelude.{◌≡◌, IfOk};
ghost use Rattle.reql_outside.specs.Tape.{counted};
ghost use Rattle.reql_disk.specs.declared.disk.DiskFault.TheVariants as fault;

use reql_disk::{Disk, DiskFault};
use std::fs::{File, OpenOptions};
use std::io;
use std::marker::Model;
use std::os::fd::AsRawFd;
use std::os::unix::fs::FileExt;

/// A file of the system, which tells nothing of its bytes, and isn't sound.
#[derive(Drop)]
pub struct FileDisk {
    file: File,
    faults: u64,
}

impl Model for FileDisk {
    ghost use Rattle.std.specs.Prelude.{ℕ};

    // how often it failed
    ghost Value = { ℕ };

    ghost view = { λ d. d.faults };
}

impl FileDisk {
    /// Opens a file of a folder, and makes an empty one where there is none. No other process may have it open as a disk, nor
    /// this one: else the error is of kind `WouldBlock`.
    ///
    /// A crash may leave a folder without a file that was made in it, so the folder is synced. Of a sync that failed, in a
    /// process before this one, the system may still hold bytes that aren't on the disk; so the file is synced, and what the
    /// system holds of it is given up, so that it is read from the disk again.
    pub fn open(rt: &HostRuntime, folder: &str, path: &str) -> io::Result<FileDisk>
        ensures { IfOk result (λ disk. disk ≡ 0) }
    {
        let file = OpenOptions::new()
            .read(true)
            .write(true)
            .create(true)
            .open(rt, path)?;
        file.try_lock()?;
        file.sync_all()?;
        File::open(rt, folder)?.sync_all()?;
        let given_up = libc::posix_fadvise(file.as_raw_fd(), 0, 0, libc::POSIX_FADV_DONTNEED);
        if given_up != 0 {
            return Err(io::Error::from_raw_os_error(given_up));
        }
        Ok(FileDisk { file, faults: 0 })
    }

    // A call of the system failed.
    fn failed(&mut self) -> DiskFault
        ensures counted { self.new ≡ counted self.old 1 }
        ensures is { result ≡ fault.Failed }
    {
        self.faults = self.faults.saturating_add(1);
        DiskFault::Failed
    }
}

impl Disk for FileDisk {
    ghost use Rattle.std.specs.Prelude.{None, false};

    ghost told = { λ faults. record { past = None; faults = faults; sound = false } };

    fn size(&mut self) -> Result<u64, DiskFault> {
        match self.file.metadata() {
            Ok(found) => Ok(found.len()),
            Err(_) => Err(self.failed()),
        }
    }

    fn read(&mut self, at: u64, buf: &mut [u8]) -> Result<(), DiskFault> {
        match self.file.read_exact_at(buf, at) {
            Ok(()) => Ok(()),
            Err(_) => Err(self.failed()),
        }
    }

    fn write_at(&mut self, at: u64, piece: &[u8]) -> Result<(), DiskFault> {
        if at.checked_add(piece.len() as u64).is_none() {
            return Err(DiskFault::Memory);
        }
        match self.file.write_all_at(piece, at) {
            Ok(()) => Ok(()),
            Err(_) => Err(self.failed()),
        }
    }

    fn sync(&mut self) -> Result<(), DiskFault> {
        match self.file.sync_data() {
            Ok(()) => Ok(()),
            Err(_) => Err(self.failed()),
        }
    }
}

// Folders of the system.
ghost use Rattle.std.specs.Prelude.{◌≡◌};

use crate::disk::FileDisk;
use reql_disk::{DiskFault, Files};
use std::io;
use std::marker::Model;

/// The files of a folder of the system, of which no bytes are told. It isn't sound.
#[derive(Drop)]
pub struct HostFiles {
    rt: HostRuntime,
    folder: String,
    faults: u64,
}

impl Model for HostFiles {
    ghost use Rattle.std.specs.Prelude.{ℕ};

    // how often opening one failed
    ghost Value = { ℕ };

    ghost view = { λ f. f.faults };
}

impl HostFiles {
    /// The files of this folder, which is there.
    pub fn new(rt: HostRuntime, folder: String) -> HostFiles
        ensures { result ≡ 0 }
    {
        HostFiles {
            rt,
            folder,
            faults: 0,
        }
    }
}

impl Files for HostFiles {
    ghost use Rattle.std.specs.Prelude.{None, false};

    type Disk = FileDisk;

    ghost told = { λ faults. record { bytes = λ name. None; faults = faults; sound = false } };

    fn open(&mut self, name: &str) -> Result<FileDisk, DiskFault> {
        let alloc = self.rt.alloc();
        let Ok(path) = format!(in alloc; "{}/{}", self.folder, name) else {
            return Err(DiskFault::Memory);
        };
        match FileDisk::open(&self.rt, &self.folder, &path) {
            Ok(disk) => Ok(disk),
            Err(_) => {
                self.faults = self.faults.saturating_add(1);
                Err(DiskFault::Failed)
            }
        }
    }
}

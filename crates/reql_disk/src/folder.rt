// A folder in memory.
ghost use Rattle.std.specs.Prelude.{◌≡◌, ◌&&◌, ◌<◌, [], length, map, position, string_bytes, bytes_eq, true, false, IfSome};
ghost use Rattle.reql_outside.specs.Source.{is_sound};
ghost use Rattle.reql_disk.specs.Memory.{opening};
ghost use Rattle.reql_disk.specs.Folder.{disk_of, without, all_sound};

use crate::disk::DiskFault;
use crate::files::Files;
use crate::memory::MemDisk;
use std::alloc::Global;
use std::marker::Model;

/// Files in memory, each of which is handed out once; any other name is given an empty disk that never fails.
#[derive(Drop)]
pub struct MemFiles {
    alloc: Global,
    files: Vec<(String, MemDisk)>,
    fails: Vec<u64>,
    sound: bool,
    calls: u64,
    faults: u64,
}

impl Model for MemFiles {
    ghost use Rattle.std.specs.Prelude.{map, string_bytes};
    ghost use Rattle.reql_disk.specs.Folder.{Folder, SoundHolds};

    ghost Value = { Folder };

    ghost view = { λ m. record {
      files = map (λ f. (string_bytes f.0, f.1)) m.files.items;
      calls = m.calls;
      fails = m.fails.items;
      faults = m.faults;
      sound = m.sound;
    } };

    ghost invariant = { λ m. SoundHolds (record {
      files = map (λ f. (string_bytes f.0, f.1)) m.files.items;
      calls = m.calls;
      fails = m.fails.items;
      faults = m.faults;
      sound = m.sound;
    }) };
}

impl MemFiles {
    /// A folder with these files; its k-th call, from 0, fails where k is in the list. It is sound where that is empty and
    /// each disk is sound. It takes no memory.
    pub fn new(alloc: Global, files: Vec<(String, MemDisk)>, fails: Vec<u64>) -> MemFiles
        ensures { let named = map (λ f. (string_bytes f.0, f.1)) files.items in
            result ≡ record { files = named; calls = 0; fails = fails.items; faults = 0; sound = is_sound fails.items && all_sound named } }
    {
        let sound = fails.is_empty() && are_sound(&files);
        MemFiles {
            alloc,
            files,
            fails,
            sound,
            calls: 0,
            faults: 0,
        }
    }

    // Whether this call is told to fail.
    fn fails_now(&mut self) -> bool
        ensures files { self.new.files ≡ self.old.files }
        ensures fails { self.new.fails ≡ self.old.fails }
        ensures faults { self.new.faults ≡ self.old.faults }
        ensures stays { self.new.sound ≡ self.old.sound }
        ensures sound { result ≡ true → self.old.sound ≡ false }
    {
        let fails = self.fails.contains(&self.calls);
        self.calls = self.calls.saturating_add(1);
        fails
    }

    // Takes out the first file of a name.
    fn take(&mut self, name: &str) -> Option<MemDisk>
        ensures disk { result ≡ disk_of name.now self.old.files }
        ensures never_fails { IfSome result (λ disk. self.old.sound ≡ true → is_sound disk.fails ≡ true) }
        ensures left { self.new.files ≡ without name.now self.old.files }
        ensures calls { self.new.calls ≡ self.old.calls }
        ensures fails { self.new.fails ≡ self.old.fails }
        ensures faults { self.new.faults ≡ self.old.faults }
        ensures sound { self.new.sound ≡ self.old.sound }
    {
        match place_of(&self.files, name) {
            Some(place) => {
                let (_, disk) = self.files.remove(place);
                Some(disk)
            }
            None => None,
        }
    }
}

fn are_sound(files: &[(String, MemDisk)]) -> bool
    ensures { result ≡ all_sound (map (λ f. (string_bytes f.0, f.1)) files.now) }
{
    let mut place = 0;
    while place < files.len() {
        if !files[place].1.is_sound() {
            return false;
        }
        place += 1;
    }
    true
}

// The place of the first file of a name.
fn place_of(files: &[(String, MemDisk)], name: &str) -> Option<usize>
    ensures first { result ≡ position (λ f. bytes_eq (string_bytes f.0) name.now) files.now }
    ensures within { IfSome result (λ place. place < length files.now) }
{
    files.iter().position(|file| file.0.as_str() == name)
}

fn empty(alloc: Global) -> MemDisk
    ensures { result ≡ opening [] [] }
{
    MemDisk::new(alloc, Vec::new(alloc), Vec::new(alloc))
}

impl Files for MemFiles {
    type Disk = MemDisk;

    ghost use Rattle.reql_disk.specs.Folder.{told_of_files};

    ghost told = { told_of_files };

    fn open(&mut self, name: &str) -> Result<MemDisk, DiskFault> {
        if self.fails_now() {
            self.faults = self.faults.saturating_add(1);
            return Err(DiskFault::Failed);
        }
        if let Some(disk) = self.take(name) {
            return Ok(disk);
        }
        Ok(empty(self.alloc))
    }
}

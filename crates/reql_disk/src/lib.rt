//! A disk as a journal sees it: what a read gives, and what a crash may leave of it at any moment; and
//! the files of a folder, each a disk.
//!
//! What a disk tells of itself is one record (`specs/Calls.antt`), and each call is one relation on it.
//! What a crash may leave is a function of what was done (`specs/Disk.antt`). The lemmas of
//! `proofs/Crashes.antt` carry what is known over a call, and the crates above use them.
#![tactic(auto)]

mod disk;
mod files;
mod folder;
mod memory;

pub use disk::{Disk, DiskFault};
pub use files::Files;
pub use folder::MemFiles;
pub use memory::{MemDisk, MemStep};

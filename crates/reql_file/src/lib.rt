//! A disk that is a file of the system, and the files of a folder.
//!
//! Here journals meet the system, which is trusted to do what its calls answer; so these tell nothing of their bytes.
#![tactic(auto)]

mod disk;
mod files;
#[cfg(test)]
mod tests;

pub use disk::FileDisk;
pub use files::HostFiles;

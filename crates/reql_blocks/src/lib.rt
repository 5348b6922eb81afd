//! A journal of blocks on a disk: bodies of any bytes, one after another, each of which is there whole or not at all, whatever
//! moment a crash comes at.
//!
//! The format stands in `specs/Format.antt`. `Reader` opens a disk and reads its bodies (`specs/Beginning.antt` and
//! `specs/Recovery.antt`); `Blocks` then writes one behind them in two halves, each of which a sync ends (`specs/Held.antt`).
#![tactic(auto)]

mod beginning;
mod blocks;
mod laws;
mod recovery;

pub use blocks::Blocks;
pub use laws::bytes_are_read_one_way;
pub use recovery::{OpenFault, Reader};

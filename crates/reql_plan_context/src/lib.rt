//! What a request goes on with once its tables are looked at; and what its terms give there, as a value,
//! as arguments of a command, and as the answer.
#![tactic(auto)]

mod arguments;
mod evaluated;
mod holding;
mod keeping;
mod options;
mod placed;
mod settling;
mod showing;
mod targets;

pub use arguments::{first, first_at, option_at, second, second_at, third_at};
pub use evaluated::{datum_of, meant_of, sequence_of, there};
pub use holding::{Held, Read, hold, nothing_read, with_view};
pub use options::{options_given, truth_option};
pub use placed::argument;
pub use settling::{NoTest, Test, settled};
pub use showing::{Shown, show};
pub use targets::{slot_in, target};

//! What a session does at its desk: commands and looks, and the arms of its feeds.
//!
//! A command or a look is one act of the desk's pass there (`specs/Acting.antt`). What is made of several says from
//! which point of a task to which other one it leads, whatever else the session holds (`specs/Steps.antt`).
#![tactic(auto)]

mod arms;
mod names;
mod slots;
mod taking;

pub use arms::{close_arms, end_arms, leave_arms, stop_arms};
pub use names::{change_names_at, look_names_at};
pub use slots::{look_at, run_at};
pub use taking::{Visited, visit_arms};

//! The bytes of a session: a greeting, and then frames, in whatever pieces they come.
//!
//! A frame is a token of 8 bytes, a body's length of 4, and the body, numbers little endian
//! (RethinkDB's guide on writing drivers). `specs/Frames.antt` says it of whole byte lists, and the
//! laws of `frame_laws` tie what is read one frame at a time to that.
#![tactic(auto)]

mod feeder;
mod frame;
mod frame_laws;
mod greeter;
mod greeting_laws;
mod handshake;
mod reading;
mod writing;

pub use feeder::Feeder;
pub use frame::{Frame, WireFault};
pub use frame_laws::{
    frames_are_once, frames_begin_with, front_decides, front_of_spelling, one_reading, over_stands,
    spelled,
};
pub use greeter::{GreetFault, Greeter, Greeting, accepted_answer};
pub use greeting_laws::{
    greeting_is_cut, greeting_is_its_own, one_greeting_by_a_key, one_login, one_verdict,
    verdict_stands,
};
pub use handshake::LONGEST_KEY;
pub use reading::HEADER_BYTES;
pub use writing::{FrameFault, put_frame};

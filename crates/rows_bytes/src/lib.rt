//! Tests of frames and greetings, of the words of the command line and of generated loads, by the public calls of their
//! crates.
#![tactic(auto)]

#[cfg(test)]
mod load;
#[cfg(test)]
mod wire;
#[cfg(test)]
mod words;

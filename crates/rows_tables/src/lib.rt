//! The engine of a table at work, by itself: what it keeps of its history, and what it hands over.
#![tactic(auto)]

#[cfg(test)]
mod tests;

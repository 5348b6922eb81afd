//! Whole sessions over links, dice, clocks and nets in memory, as tests: what no session over standard input and output shows.
#![tactic(auto)]

#[cfg(test)]
mod gate_link;
#[cfg(test)]
mod gate_net;
#[cfg(test)]
mod gates;
#[cfg(test)]
mod pieces;
#[cfg(test)]
mod tests;

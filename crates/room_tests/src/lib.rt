//! Worked rows of the relay's surroundings: the room in memory, with short pieces, calls that fail and outputs that are
//! full, and real files. This crate holds tests alone.
#![tactic(auto)]

#[cfg(test)]
mod tests;

//! A gateway between streams of header-compressed packets and streams of plain IPv6 packets (ARIB
//! STD-B32 Part 3): one packet at a time, in both directions.
#![tactic(auto)]

mod expander;
mod flow;
mod laws;
mod shrinker;
mod writing;

pub use expander::{ExpandEnd, Expander};
pub use laws::{expanding_keeps_datagrams, squeezing_keeps_datagrams};
pub use shrinker::{ShrinkEnd, Shrinker};

#[cfg(test)]
mod tests;

//! A channel that somebody wrote down: which packets of a cast come through, in their order.
#![tactic(auto)]

mod deliveries;

pub use deliveries::{ListEnd, read_deliveries};

#[cfg(test)]
mod tests;

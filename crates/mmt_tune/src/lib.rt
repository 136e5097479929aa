//! Tuning: the packet with which a receiver begins, and the packets from it on.
#![tactic(auto)]

mod config;
mod tuning;

pub use config::Config;
pub use tuning::tuning_values;

#[cfg(test)]
mod tests;

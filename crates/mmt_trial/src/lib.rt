//! A channel tried on the desk: the cast of a programme is sent into memory, a receiver gets those of its packets that a list
//! of deliveries names, and the numbers of what came out are told.
#![tactic(auto)]

mod listening;
mod recording;
mod sink;
mod trying;

pub use trying::{TrialEnd, Tried, trial};

#[cfg(test)]
mod tests;

//! The commands `mux` and `pace`: from the name of a plan to the stream of its programme.
#![tactic(auto)]

mod ends;
mod laws;
mod muxing;

pub use ends::{MuxEnd, PaceEnd};
pub use laws::pace_is_complete;
pub use muxing::{mux, pace};

#[cfg(test)]
mod tests;

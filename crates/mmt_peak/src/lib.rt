//! The command `peak`: what a receiver's buffer of a given size would have held of a stream.
#![tactic(auto)]

mod buffer;
mod command;
mod tally;

pub use command::PeakCommand;

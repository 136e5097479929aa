//! The command `take`: the media units that a receiver hands out of a stream.
#![tactic(auto)]

mod command;

pub use command::TakeCommand;

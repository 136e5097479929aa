//! What a receiver puts out: its notes on the channel for notes, and the records of media units.
#![tactic(auto)]

mod handed;
mod handing;
mod headers;
mod notes;
mod telling;
mod texts;
mod writing;

pub use handed::Handed;
pub use handing::hand_out;
pub use notes::Note;
pub use telling::{Untold, tell};
pub use writing::write_unit;

#[cfg(test)]
mod tests;
#[cfg(test)]
mod tests_of_units;

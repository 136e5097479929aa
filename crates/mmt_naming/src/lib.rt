//! What the messages of a stored signalling packet say to a receiver: the MPUs that their MPTs name
//! are learned, and what is refused or left out of them is noted (ARIB STD-B60, the MPT in a PA
//! message).
#![tactic(auto)]

mod by;
mod entries;
mod messages;
mod remarks;
mod spot;
mod tables;

pub use by::By;
pub use messages::{take_message, take_messages};

#[cfg(test)]
mod tests;

//! The bytes of the signalling messages that are sent of a programme: buffer messages, and PA messages with one
//! MMT Package Table each.
#![tactic(auto)]

mod assets;
mod descriptors;
mod messages;
mod named;

pub use messages::put_message;

#[cfg(test)]
mod tests;

//! The stream of an admitted cast, written packet by packet.
#![tactic(auto)]

mod addressing;
mod ends;
mod files;
mod laws;
mod made;
mod messages;
mod packets;
mod payloads;
mod sending;
mod sources;
mod units;

pub use ends::SendEnd;
pub use laws::{checked_files_are_whole, what_is_written};
pub use sending::send;

#[cfg(test)]
mod tests;

//! The receiver: the media units of a stream, each with its presentation time.
#![tactic(auto)]

mod advancing;
mod joining;
mod keeping;
mod receiver;
mod saying;
mod summary;
mod taking;
mod untuned;

pub use mmt_tune::Config;
pub use receiver::Receiver;
pub use summary::{Ended, Failed, Summary};

#[cfg(test)]
mod tests;

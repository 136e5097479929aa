//! The whole media units and messages of the kept packets, found part by part in the pool.
#![tactic(auto)]

mod choosing;
mod compare;
mod finding;
mod following;
mod index;
mod links;
#[cfg(test)]
mod message_tests;
mod messages;
mod order;
mod parts;
mod runs;
mod seeking;
mod starting;
mod stretch;
#[cfg(test)]
mod tests;

pub use messages::MessageParts;
pub use order::UnitOrder;
pub use parts::UnitParts;
pub use runs::Runs;

//! The cast of a programme, and why there is none.
#![tactic(auto)]

mod alone;
mod casting;
mod copies;
mod counting;
mod due;
#[cfg(test)]
mod end_tests;
mod ends;
mod groups;
mod media;
mod messages;
mod mpus;
mod naming;
mod places;
mod ranges;
mod refusing;
#[cfg(test)]
mod samples;
mod sending;
mod signalling;
mod sorting;
mod tables;
#[cfg(test)]
mod tests;
mod units;
mod walking;

pub use casting::cast_of;
pub use ends::CastEnd;
pub use naming::named_from;

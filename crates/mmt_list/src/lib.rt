//! The lines of a stream's packets: a line tells all of a packet that a person who examines a
//! capture needs, down to each data unit, or the first thing that is wrong with it and where.
#![tactic(auto)]

mod left;
mod lister;
mod names;
mod sections;
mod services;
mod signalling;
mod texts;

pub use lister::Lister;

#[cfg(test)]
mod tests;

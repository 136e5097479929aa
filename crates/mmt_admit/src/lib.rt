//! Admission: the first fault of a cast, found in a bounded number of walks over its packets, units and
//! MPUs, without memory.
#![tactic(auto)]

mod admitting;
mod answers;
mod copies;
mod gaps;
#[cfg(test)]
mod large_tests;
mod live;
mod loads;
mod numbers;
mod params;
mod readable;
mod reads;
mod rising;
#[cfg(test)]
mod samples;
mod starts;
#[cfg(test)]
mod tests;
mod timely;
mod units;

pub use admitting::{Admitted, admit};
pub use answers::{NotAdmitted, Rule};
pub use readable::is_readable;

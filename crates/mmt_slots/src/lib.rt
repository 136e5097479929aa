//! A slot for each job of a transmitter that sends at a fixed rate: earliest deadline first, or an
//! interval that has more jobs than slots.
#![tactic(auto)]

mod laws;
mod line;
mod overfull;
mod row;
mod scheduling;
#[cfg(test)]
mod tests;

pub use laws::{overfull_forbids, schedules_are_one};
pub use row::{Job, NoSchedule, Slots};
pub use scheduling::schedule;

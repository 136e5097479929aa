//! The plan of a programme: a JSON text, the programme that it is or the first reason why it is none,
//! and whether its files are there.
#![tactic(auto)]

mod assets;
mod aus;
#[cfg(test)]
mod bound_tests;
mod checks;
#[cfg(test)]
mod desk;
mod ends;
mod flows;
mod loads;
mod members;
mod mpus;
mod names;
mod parts;
mod plans;
#[cfg(test)]
mod reason_tests;
mod signals;
mod spots;
#[cfg(test)]
mod tests;
mod tops;
mod twice;
mod units;
mod wholes;

pub use checks::check_files;
pub use ends::{FilesEnd, PlanEnd, PlanPart, PlanPlace, Reason};
pub use plans::read_plan;

//! What every crate of the project stands on: ticks and NTP times, a refusal with its place, and
//! want of memory.
#![tactic(auto)]

mod memory;
mod refused;
mod ticks;

pub use memory::OutOfMemory;
pub use refused::Refused;
pub use ticks::{LongTick, Ntp, Tick, advance, due_of, long_due_of};

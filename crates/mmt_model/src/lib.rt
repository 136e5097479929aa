//! The plain values that a sender and a receiver share, and the definitions of what each of them
//! does, in `specs`.
#![tactic(auto)]

mod casts;
mod keys;
mod lists;
mod programmes;
#[cfg(test)]
mod tests;
mod texts;

pub use casts::{Carries, Cast, Sent, SentMpu, SentUnit, TableCopy};
pub use keys::{Part, UnitKey};
pub use lists::List;
pub use programmes::{Asset, Au, Flow, FlowChoice, Mpu, Params, Programme, Signal, Unit};
pub use texts::Text;

//! A programme of a minute, its files and a delivery of its cast, all made from a number of 16 bits.
#![tactic(auto)]

mod announcing;
mod dropping;
mod filling;
mod goods;
mod making;
mod programmes;
mod tracks;

pub use goods::Made;
pub use making::{cast_of_made, made};
pub use programmes::programme;

#[cfg(test)]
mod tests;

//! How many media units are expected of a delivery of a cast, counted from the list of deliveries alone: no packet is
//! made, and no receiver runs.
#![tactic(auto)]

mod counting;
mod naming;
mod raising;
mod reaching;
mod tuning;

pub use counting::expected_units;

#[cfg(test)]
mod tests;

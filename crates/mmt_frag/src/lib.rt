//! Cutting units and messages into parts, and gathering short units.
#![tactic(auto)]

mod cutting;
#[cfg(test)]
mod tests;
mod writing;

pub use cutting::{
    PartOf, cutting_is_gapless, gathered, gathering_is_greatest, part_of, parts, parts_are_one_unit,
};
pub use writing::write_part;

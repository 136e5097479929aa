//! The commands `expand` and `squeeze`: a gateway between streams of header-compressed packets and
//! streams of plain IPv6 packets (ARIB STD-B32 Part 3).
#![tactic(auto)]

mod expand;
mod gathered;
mod noting;
mod squeeze;

pub use expand::ExpandCommand;
pub use squeeze::SqueezeCommand;

#[cfg(test)]
mod tests;

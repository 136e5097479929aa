//! Header-compressed IP packets (ARIB STD-B32 Part 3): read with the headers that earlier packets
//! carried, and written with a full header now and then.
#![tactic(auto)]

mod contexts;
mod packet;
mod reading;
mod squeezer;
mod writing;

pub use contexts::Contexts;
pub use packet::{CtxWhy, Opened};
pub use squeezer::{Squeezer, squeezed_is_read};

#[cfg(test)]
mod tests;

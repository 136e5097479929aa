//! MMTP packets: reading and writing the header, whose payload is lent and never copied.
#![tactic(auto)]

mod packet;
mod reading;
#[cfg(test)]
mod tests;
mod writing;

pub use packet::{Extension, Kind, Packet, PacketWhy};
pub use reading::read_packet;
pub use writing::{header_length, write_packet};

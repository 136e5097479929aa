//! IPv6 packets that carry a UDP datagram: reading and writing both headers and the checksum. The
//! payload is lent and never copied.
#![tactic(auto)]

mod packet;
mod reading;
mod sum;
#[cfg(test)]
mod tests;
mod writing;

pub use packet::{Ip6Header, Ip6Udp, IpWhy};
pub use reading::read_ip6udp;
pub use sum::udp_sum;
pub use writing::write_ip6udp;

//! Spans, and why a packet is not stored.

use mmt_base::Tick;

/// The packet id and the packet sequence number of a packet, which name it in a pool.
#[derive(Clone, Copy, Debug, PartialEq, Eq, PartialOrd, Ord)]
pub struct Span {
    pub packet_id: u16,
    pub number: u32,
}

/// Why a packet is not stored: the first of these that holds.
#[derive(Clone, Copy, Debug, PartialEq, Eq)]
pub enum NotStored {
    /// The clock is after the packet's timestamp plus the delay.
    Late { clock: Tick },
    /// A packet with this packet id and number is kept.
    Repeat,
    /// The payload bytes held and the packet's own are together more than the bound.
    Full { held: u32, length: u32 },
    /// There was no memory for the packet.
    OutOfMemory,
}

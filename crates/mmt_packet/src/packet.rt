//! An MMTP packet, and why bytes are none (ISO/IEC 23008-1, the MMTP packet header).

use mmt_base::Tick;

/// What the payload of a packet is: the type field of the header.
#[derive(Clone, Copy, Debug, PartialEq, Eq)]
pub enum Kind {
    /// Type 0: a part of a media processing unit, or several.
    Mpu,
    /// Type 1: a generic object.
    Generic,
    /// Type 2: one or more signalling messages, or a part of one.
    Signalling,
}

/// The extension of the header: its type, and at most 65,535 bytes that are lent from the packet.
#[derive(Clone, Copy, Debug)]
pub struct Extension<'a> {
    pub kind: u16,
    pub bytes: &'a [u8],
}

/// A packet of version 0 without FEC. The extension's bytes and the payload are lent from the bytes
/// that it was read from.
#[derive(Clone, Copy, Debug)]
pub struct Packet<'a> {
    /// The packet counter, where the header has one.
    pub counter: Option<u32>,
    /// Whether the packet is a random access point: the flag R.
    pub rap: bool,
    /// The three reserved bits: the one of the first byte, then the two of the second.
    pub reserved: u8,
    pub kind: Kind,
    pub packet_id: u16,
    /// When the packet was sent, in ticks of 1/65536 second: the middle 32 bits of a 64-bit NTP time.
    pub time: Tick,
    /// The packet's number within its packet id, modulo 2^32.
    pub number: u32,
    pub extension: Option<Extension<'a>>,
    /// The bytes after the header.
    pub payload: &'a [u8],
}

/// Why bytes are no packet.
#[derive(Clone, Copy, Debug, PartialEq, Eq)]
pub enum PacketWhy {
    /// The bytes end before the field at this place does.
    Short,
    /// The version is not 0.
    Version(u8),
    /// The FEC type is not 0.
    Fec(u8),
    /// The type is none of the three kinds.
    Kind(u8),
    /// The extension, whose bytes begin at this place, says that the payload is scrambled.
    Scrambled,
}

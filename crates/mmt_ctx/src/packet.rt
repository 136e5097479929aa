//! A header-compressed packet with its header, and why bytes are none.

use mmt_ip::Ip6Header;

/// A header-compressed IP packet (ARIB STD-B32 Part 3, header-compressed IP packet) with the header
/// that it has, over the bytes that it was read from.
#[derive(Clone, Copy, Debug)]
pub struct Opened<'a> {
    /// The context, below 4,096.
    pub context: u16,
    /// The sequence number, below 16.
    pub number: u8,
    /// Whether the packet carries the header itself.
    pub full: bool,
    /// The header: the packet's own, or the one last carried for its context.
    pub header: Ip6Header,
    /// The UDP payload.
    pub payload: &'a [u8],
}

/// Why bytes are no header-compressed packet, or one that cannot be opened.
#[derive(Clone, Copy, Debug, PartialEq, Eq)]
pub enum CtxWhy {
    /// The three first bytes, or the 42 bytes of a header, pass the end.
    Short,
    /// A header type other than 0x60 and 0x61.
    OtherKind(u8),
    /// A version other than 6.
    Version(u8),
    /// A next header other than 17, UDP.
    NextHeader(u8),
    /// No header, and none was carried for this context before.
    NoContext(u16),
}

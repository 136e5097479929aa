//! An IPv6 packet that carries a UDP datagram, and why bytes are none (RFC 8200, section 3; RFC 768).

/// The fields of the IPv6 header and the UDP header that no other value determines.
#[derive(Clone, Copy, Debug, PartialEq, Eq)]
pub struct Ip6Header {
    pub traffic_class: u8,
    /// Below 2^20.
    pub flow_label: u32,
    pub hop_limit: u8,
    /// The address of the source, its first byte the highest.
    pub source: u128,
    /// The address of the destination, its first byte the highest.
    pub destination: u128,
    pub source_port: u16,
    pub destination_port: u16,
}

/// A packet, whose payload is lent from the bytes that it was read from.
#[derive(Clone, Copy, Debug)]
pub struct Ip6Udp<'a> {
    pub header: Ip6Header,
    /// Whether there is a checksum: false exactly where its field is 0.
    pub summed: bool,
    /// The bytes after the two headers, at most 65,527.
    pub payload: &'a [u8],
}

/// Why bytes are no packet.
#[derive(Clone, Copy, Debug, PartialEq, Eq)]
pub enum IpWhy {
    /// The bytes end before the header at this place does: 0 for IPv6, 40 for UDP.
    Short,
    /// The version is not 6.
    Version(u8),
    /// The next header is not 17, UDP.
    NextHeader(u8),
    /// The length at this place is not that of what follows: at 4 the payload length, and at 44 the
    /// UDP length.
    Length,
    /// The checksum is neither 0 nor the right one.
    Checksum,
}

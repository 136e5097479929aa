//! Where an asset is found, and why bytes are no location.

/// Where an asset or a package is found (ARIB STD-B60, MMT_general_location_info). Packet ids, PIDs
/// and reserved bits are as they stand.
#[derive(Clone, Copy, Debug, PartialEq, Eq)]
pub enum Location<'a> {
    /// Type 0: in the same flow.
    Here {
        packet_id: u16,
    },
    /// Type 1: in an IPv4 flow.
    Ip4 {
        source: u32,
        destination: u32,
        port: u16,
        packet_id: u16,
    },
    /// Type 2: in an IPv6 flow.
    Ip6 {
        source: u128,
        destination: u128,
        port: u16,
        packet_id: u16,
    },
    /// Type 3: in a transport stream of a network. `reserved` has 3 bits and `pid` 13.
    Stream {
        network: u16,
        stream: u16,
        reserved: u8,
        pid: u16,
    },
    /// Type 4: in a transport stream of an IPv6 flow. `reserved` has 3 bits and `pid` 13.
    Ip6Stream {
        source: u128,
        destination: u128,
        port: u16,
        reserved: u8,
        pid: u16,
    },
    /// Type 5: at a URL of at most 255 bytes.
    Url {
        text: &'a [u8],
    },
}

/// Why bytes begin with no location.
#[derive(Clone, Copy, Debug, PartialEq, Eq)]
pub enum LocationWhy {
    /// A field ends after the bytes do.
    Short,
    /// The type is above 5.
    Kind(u8),
}

//! An MPT in lists of its own.

use mmt_model::List;

/// Where an asset is found, as in `Location`, with its own text.
#[derive(Debug, Drop)]
pub enum OwnedLocation {
    /// Type 0: in the same flow.
    Here {
        packet_id: u16,
    },
    /// Type 1: in an IPv4 flow.
    Ip4 {
        source: u32,
        destination: u32,
        port: u16,
        packet_id: u16,
    },
    /// Type 2: in an IPv6 flow.
    Ip6 {
        source: u128,
        destination: u128,
        port: u16,
        packet_id: u16,
    },
    /// Type 3: in a transport stream of a network.
    Stream {
        network: u16,
        stream: u16,
        reserved: u8,
        pid: u16,
    },
    /// Type 4: in a transport stream of an IPv6 flow.
    Ip6Stream {
        source: u128,
        destination: u128,
        port: u16,
        reserved: u8,
        pid: u16,
    },
    /// Type 5: at a URL.
    Url {
        text: List<u8>,
    },
}

/// A descriptor's tag and content.
#[derive(Debug, Drop)]
pub struct OwnedDescriptor {
    pub tag: u16,
    pub bytes: List<u8>,
}

/// An asset of an MPT (ARIB STD-B60, MMT Package Table).
#[derive(Debug, Drop)]
pub struct OwnedAsset {
    pub identifier_type: u8,
    pub scheme: u32,
    pub id: List<u8>,
    pub kind: u32,
    /// Seven bits.
    pub reserved: u8,
    pub locations: List<OwnedLocation>,
    pub descriptors: List<OwnedDescriptor>,
}

/// An MMT Package Table (ARIB STD-B60).
#[derive(Debug, Drop)]
pub struct OwnedMpt {
    pub version: u8,
    /// Two bits.
    pub mode: u8,
    /// Six bits.
    pub reserved: u8,
    pub package: List<u8>,
    pub descriptors: List<OwnedDescriptor>,
    pub assets: List<OwnedAsset>,
}

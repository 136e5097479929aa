//! Why a packet is not heard.

/// Why a TLV packet that might be ours is not heard: the refusal of the outermost layer that refuses.
#[derive(Clone, Copy, Debug, PartialEq, Eq)]
pub enum Why {
    /// An IPv4 packet, which is not opened.
    Ip4,
    /// A TLV packet type other than 0x01, 0x02, 0x03, 0xFE and 0xFF.
    TlvKind(u8),
    /// An IPv6 or UDP header passes the end.
    IpShort,
    /// An IP version other than 6.
    IpVersion(u8),
    /// A next header other than 17, UDP.
    IpNext(u8),
    /// An IPv6 or UDP length that is not that of what follows.
    IpLength,
    /// A UDP checksum that is neither 0 nor right.
    IpChecksum,
    /// A header-compressed packet that passes the end.
    CtxShort,
    /// A compressed header type other than 0x60 and 0x61.
    CtxKind(u8),
    /// A compressed packet whose context has no header yet.
    CtxNone(u16),
    /// An MMTP header that passes the end.
    MmtpShort,
    /// An MMTP version other than 0.
    MmtpVersion(u8),
    /// A FEC type other than 0.
    MmtpFec(u8),
    /// An MMTP payload type other than MPU, generic object and signalling.
    MmtpKind(u8),
    /// A scrambled payload.
    Scrambled,
}

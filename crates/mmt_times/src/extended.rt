//! The content of an MPU extended timestamp descriptor.

/// An MPU's entry: its sequence number, the leap indicator with six reserved bits, its decoding
/// offset, how many access units it has, and the bytes that their offsets begin.
#[derive(Clone, Copy, Debug)]
pub(crate) struct MpuOffsets<'a> {
    pub mpu: u32,
    pub flags: u8,
    pub offset: u16,
    pub count: u8,
    pub aus: &'a [u8],
}

/// A content: the first byte, with the type of pts_offset, the timescale in units a second and the
/// default pts_offset where they are there, and the bytes of the MPUs' entries.
#[derive(Clone, Copy, Debug)]
pub(crate) struct Extended<'a> {
    pub flags: u8,
    pub timescale: Option<u32>,
    pub default: Option<u16>,
    pub mpus: &'a [u8],
}

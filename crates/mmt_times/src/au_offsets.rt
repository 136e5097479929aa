//! The offsets of an access unit.

/// The offsets of an access unit, in units of the timescale (the MPU extended timestamp
/// descriptor).
#[derive(Clone, Copy)]
pub(crate) struct AuOffsets {
    /// Of its presentation time after its decoding time.
    pub dts_pts: u16,
    /// Of the next access unit's presentation time after its own, where it has one.
    pub pts: Option<u16>,
}

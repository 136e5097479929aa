//! Why a timestamp descriptor counts as absent.

/// Why a timestamp descriptor, or an MPU's entry in one, counts as absent.
#[derive(Clone, Copy, Debug, PartialEq, Eq)]
pub enum TimesWhy {
    /// The content ends before a field does, or is no multiple of 12 bytes in an MPU timestamp
    /// descriptor.
    Length,
    /// The type of pts_offset is 3.
    OffsetType,
    /// The timescale is 0.
    TimescaleZero,
    /// A time of an access unit lies outside 0 to 2^64 - 1.
    Range,
}

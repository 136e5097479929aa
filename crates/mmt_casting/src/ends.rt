//! Why there is no cast.

/// Why a programme has no cast: the first access unit whose time is out of range, the first table that
/// is too long, too many packets, or out of memory.
#[derive(Clone, Copy, Debug, PartialEq, Eq)]
pub enum CastEnd {
    /// An access unit's time is outside 0 to 2^64 - 1.
    TimeRange { asset: u32, mpu: u32, au: u32 },
    /// A table has more than 65,535 bytes.
    TableLong { signal: u32 },
    /// There are more than 16,777,216 packets.
    CastLong { packets: u64 },
    /// A call needed memory, and there was none.
    OutOfMemory,
}

//! The header of an MPU payload, its data units, and why bytes are no payload (ISO/IEC 23008-1, the
//! payload header for MPU mode).

use mmt_model::{Part, UnitKey};

/// A data unit, whose bytes are lent from the payload that it was read from (ISO/IEC 23008-1, the
/// data unit header).
#[derive(Clone, Copy, Debug)]
pub struct DataUnit<'a> {
    /// Which unit of its MPU it is.
    pub key: UnitKey,
    /// The priority. 0 for an item, whose header has none.
    pub priority: u8,
    /// The dependency counter. 0 for an item, whose header has none.
    pub dependency: u8,
    /// The place of `bytes` in the payload, in bytes from its start. A writer makes no use of it.
    pub from: u32,
    /// The bytes after the unit's header.
    pub bytes: &'a [u8],
}

/// What a payload says of all its units. The fragment type is 2, data units.
#[derive(Clone, Copy, Debug, PartialEq, Eq)]
pub struct MpuHead {
    /// The timed flag T: whether the units are of timed media, and else items.
    pub timed: bool,
    /// The fragmentation indicator f_i.
    pub part: Part,
    /// The aggregation flag A: whether any number of units stand one after the other, each after its
    /// length, and else one unit takes all the bytes.
    pub aggregated: bool,
    /// The fragment counter.
    pub counter: u8,
    /// The sequence number of the MPU.
    pub mpu: u32,
}

/// Why bytes are no payload.
#[derive(Clone, Copy, Debug, PartialEq, Eq)]
pub enum MpuWhy {
    /// The bytes end before the field or the unit's header at this place does.
    Short,
    /// The payload length is not the count of the bytes after it.
    Length,
    /// The fragment type is 0 or 1: MPU metadata or movie fragment metadata.
    Metadata(u8),
    /// The fragment type is above 2.
    FragmentType(u8),
    /// The aggregation flag is set in a payload that carries a part of a unit.
    AggregatedPart,
    /// The length of the unit at this place is less than that of its header, or more than the count
    /// of the bytes after it.
    Overrun,
}

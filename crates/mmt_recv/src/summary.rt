//! What a receiver counts, and how it is tuned.

use mmt_base::Tick;
use mmt_model::Params;

/// What a receiver counted over a stream.
#[derive(Clone, Copy, Debug, PartialEq, Eq)]
pub struct Summary {
    /// How many media units were handed out.
    pub units: u64,
    /// How many bytes they have together, without the headers of their records.
    pub bytes: u64,
    /// The most payload bytes that were kept at once.
    pub peak: u32,
    /// How many packets came too late.
    pub late: u64,
    /// How many packets were kept already.
    pub repeat: u64,
    /// For how many packets there was no room.
    pub full: u64,
}

/// How a receiver is tuned: the values of the buffer message that it took, and its clock.
#[derive(Clone, Copy, Debug, PartialEq, Eq)]
pub struct Tuned {
    /// The buffer's size in bytes, and the window and the delay in ticks.
    pub params: Params,
    /// The clock, in ticks of 1/65536 second.
    pub clock: Tick,
}

/// Why a receiver ended at a packet.
#[derive(Clone, Copy, Debug, PartialEq, Eq)]
pub enum Ended {
    /// The port failed.
    WriteFault,
    /// There was no memory.
    OutOfMemory,
}

/// The port failed at the end of a stream.
#[derive(Clone, Copy, Debug, PartialEq, Eq)]
pub struct Failed;

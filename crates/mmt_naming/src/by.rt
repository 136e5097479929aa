//! What the messages of a packet are read by.

ghost use Rattle.std.specs.Prelude.{◌≤◌};

use mmt_base::Tick;
use mmt_model::Params;
use std::alloc::Global;

/// What the messages of a packet are read by.
#[derive(Clone, Copy)]
pub struct By {
    /// Gives the memory for the lines of notes.
    pub alloc: Global,
    /// The place of the packet's payload, in bytes from the start of the stream.
    pub place: u64,
    /// The timescale of extended timestamp descriptors without one, in units a second, at least 1.
    pub timescale: u32,
    /// The values of the buffer message that was taken.
    pub tuned: Params,
    /// The clock, in ticks.
    pub clock: Tick,
    ghost some_timescale: { 1 ≤ timescale },
}

//! What a line still lacks once its sections are written in the room that each of them needs at most.

use mmt_mpu::MpuPayload;
use mmt_sig::SigPayload;

/// What is still to be written of a line, which may be long.
#[derive(Clone, Copy)]
pub enum Left<'a> {
    /// Nothing but the line feed.
    Nothing,
    /// The units of a payload.
    Units(MpuPayload<'a>),
    /// The messages of a payload.
    Messages(SigPayload<'a>),
}

//! An MPU's entry in an extended descriptor, with what holds for the descriptor.

ghost use Rattle.std.specs.Prelude.{◌≤◌};

use crate::extended::MpuOffsets;

/// What holds for all entries of an extended descriptor: the place of its content in the table, the
/// timescale, the pts_offset of each access unit that has none of its own, and whether each has one.
/// And the bytes of the entries that are left.
#[derive(Clone, Copy, Debug)]
pub(crate) struct Content<'a> {
    pub at: u32,
    pub timescale: u32,
    pub default: u16,
    pub each: bool,
    pub rest: &'a [u8],
    ghost some_timescale: { 1 ≤ timescale },
}

/// An MPU's entry, with the place of its descriptor's content in the table and what holds there.
#[derive(Clone, Copy, Debug)]
pub(crate) struct Candidate<'a> {
    pub at: u32,
    pub timescale: u32,
    pub default: u16,
    pub each: bool,
    pub mpu: MpuOffsets<'a>,
    ghost some_timescale: { 1 ≤ timescale },
}

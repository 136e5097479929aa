//! Going over the times of access units.

ghost use Rattle.std.specs.Prelude.{◌+◌, ◌*◌, ◌<◌, ◌≤◌, ◌^◌};

use crate::first_time::first_time;
use mmt_base::Ntp;

/// The times of an MPU's access units from first to last, up to the first that is out of range. It
/// takes no memory.
#[derive(Clone, Copy, Debug)]
pub struct Times<'a> {
    /// The MPU's presentation time.
    pub(crate) time: Ntp,
    /// Its decoding offset, in units of the timescale.
    pub(crate) offset: u16,
    /// Units of time a second.
    pub(crate) timescale: u32,
    /// The pts_offset of each access unit that has none of its own.
    pub(crate) default: u16,
    /// Whether each access unit has a pts_offset of its own.
    pub(crate) each: bool,
    /// The sum of the pts_offsets before the access units that are left.
    pub(crate) before: u32,
    /// How many access units are left.
    pub(crate) left: u8,
    /// Their offsets.
    pub(crate) rest: &'a [u8],
    ghost some_timescale: { 1 ≤ timescale },
    ghost sums_fit: { before + left * 65535 < 2 ^ 32 },
}

impl<'a> Iterator for Times<'a> {
    ghost use Rattle.std.specs.Iterator.{YieldsFirstBy, item_count};
    ghost use Rattle.mmt_times.specs.TimesLeft.{view_time, times_left};

    type Item = Ntp;

    ghost next_gives = { YieldsFirstBy view_time times_left };

    ghost remaining = { item_count times_left };

    fn next(&mut self) -> Option<Ntp> {
        let (time, rest) = first_time(self)?;
        *self = rest;
        Some(time)
    }
}

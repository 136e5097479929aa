//! Going over the units of a payload.

ghost use Rattle.std.specs.Prelude.{◌+◌, ◌<◌, ◌^◌, length};

use crate::head::first_unit;
use crate::types::DataUnit;

/// An iterator over the units of a payload, from first to last. It takes no memory: the bytes of each
/// unit are lent from the payload.
#[derive(Clone, Copy, Debug)]
pub struct Units<'a> {
    pub(crate) lone: bool,
    pub(crate) timed: bool,
    pub(crate) at: u32,
    pub(crate) rest: &'a [u8],
    ghost fits: { at + length rest.now < 2 ^ 31 },
}

impl<'a> Iterator for Units<'a> {
    ghost use Rattle.std.specs.Iterator.{YieldsFirstBy, item_count};
    ghost use Rattle.mmt_mpu.specs.Head.{view_unit};
    ghost use Rattle.mmt_mpu.specs.View.{units_left};

    type Item = DataUnit<'a>;

    ghost next_gives = { YieldsFirstBy view_unit units_left };

    ghost remaining = { item_count units_left };

    fn next(&mut self) -> Option<DataUnit<'a>> {
        let (unit, rest) = first_unit(self.lone, self.timed, self.at, self.rest)?;
        self.lone = false;
        self.at = unit.from + unit.bytes.len() as u32;
        self.rest = rest;
        Some(unit)
    }
}

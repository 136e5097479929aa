//! Going over locations.

ghost use Rattle.std.specs.Prelude.{◌+◌, ◌<◌, ◌^◌, length};

use crate::location::Location;
use crate::reading_assets::first_place;

/// Locations from first to last. It takes no memory.
#[derive(Clone, Copy, Debug)]
pub struct Locations<'a> {
    pub(crate) left: u8,
    pub(crate) at: u32,
    pub(crate) rest: &'a [u8],
    ghost fits: { at + length rest.now < 2 ^ 31 },
}

impl<'a> Iterator for Locations<'a> {
    ghost use Rattle.std.specs.Iterator.{YieldsFirstBy, item_count};
    ghost use Rattle.mmt_mpt.specs.LocationView.{view_location};
    ghost use Rattle.mmt_mpt.specs.LocationsLeft.{locations_left};

    type Item = Location<'a>;

    ghost next_gives = { YieldsFirstBy view_location locations_left };

    ghost remaining = { item_count locations_left };

    fn next(&mut self) -> Option<Location<'a>> {
        if self.left == 0 {
            return None;
        }
        let (location, rest) = first_place(self.left, self.at, self.rest)?;
        self.left -= 1;
        self.at += (self.rest.len() - rest.len()) as u32;
        self.rest = rest;
        Some(location)
    }
}

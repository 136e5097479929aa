//! Going over descriptors.

ghost use Rattle.std.specs.Prelude.{◌+◌, ◌<◌, ◌^◌, length};

use crate::descriptor::Descriptor;
use crate::reading_descriptors::first_descriptor;

/// Descriptors from first to last. It takes no memory.
#[derive(Clone, Copy, Debug)]
pub struct Descriptors<'a> {
    pub(crate) at: u32,
    pub(crate) rest: &'a [u8],
    ghost fits: { at + length rest.now < 2 ^ 31 },
}

impl<'a> Iterator for Descriptors<'a> {
    ghost use Rattle.std.specs.Iterator.{YieldsFirstBy, item_count};
    ghost use Rattle.mmt_mpt.specs.DescriptorView.{view_descriptor};
    ghost use Rattle.mmt_mpt.specs.DescriptorsLeft.{descriptors_left};

    type Item = Descriptor<'a>;

    ghost next_gives = { YieldsFirstBy view_descriptor descriptors_left };

    ghost remaining = { item_count descriptors_left };

    fn next(&mut self) -> Option<Descriptor<'a>> {
        let (descriptor, rest) = first_descriptor(self.at, self.rest)?;
        self.at += (self.rest.len() - rest.len()) as u32;
        self.rest = rest;
        Some(descriptor)
    }
}

//! Going over packages.

ghost use Rattle.std.specs.Prelude.{◌+◌, ◌<◌, ◌^◌, length};

use crate::package::Package;
use crate::reading_packages::first_package;

/// The packages of a table from first to last. It takes no memory.
#[derive(Clone, Copy, Debug)]
pub struct Packages<'a> {
    pub(crate) left: u8,
    pub(crate) at: u32,
    pub(crate) rest: &'a [u8],
    ghost fits: { at + length rest.now < 2 ^ 31 },
}

impl<'a> Iterator for Packages<'a> {
    ghost use Rattle.std.specs.Iterator.{YieldsFirstBy, item_count};
    ghost use Rattle.mmt_services.specs.PackageView.{view_package};
    ghost use Rattle.mmt_services.specs.PackagesLeft.{packages_left};

    type Item = Package<'a>;

    ghost next_gives = { YieldsFirstBy view_package packages_left };

    ghost remaining = { item_count packages_left };

    fn next(&mut self) -> Option<Package<'a>> {
        if self.left == 0 {
            return None;
        }
        let (package, rest) = first_package(self.left, self.at, self.rest)?;
        self.left -= 1;
        self.at += (self.rest.len() - rest.len()) as u32;
        self.rest = rest;
        Some(package)
    }
}

//! A PLT, over the table that it was read from.

ghost use Rattle.std.specs.Prelude.{◌≡◌, ◌+◌, ◌<◌, ◌^◌, length, None};
ghost use Rattle.mmt_lists.specs.Counted.{counted};
ghost use Rattle.mmt_services.specs.PackageReading.{package_at};

use crate::packages::Packages;

/// A table that lists services by their packages (after ARIB STD-B60, Package List Table).
#[derive(Clone, Copy, Debug)]
pub struct Plt<'a> {
    pub(crate) version: u8,
    pub(crate) count: u8,
    pub(crate) packages: &'a [u8],
    pub(crate) rest: &'a [u8],
    ghost fits: { 1 + length packages.now < 2 ^ 16 },
    ghost whole: { (counted count package_at 5 packages.now).stop ≡ None },
    ghost after: { rest.now ≡ (counted count package_at 5 packages.now).rest },
}

impl<'a> Plt<'a> {
    ghost use Rattle.std.specs.Prelude.{◌≡◌};
    ghost use Rattle.mmt_services.specs.PackagesLeft.{packages_left};
    ghost use Rattle.mmt_services.specs.TableView.{view};

    /// The table's version.
    pub fn version(&self) -> u8
        ensures { result ≡ (view self.now).version }
    {
        self.version
    }

    /// The packages from first to last: at most 255.
    pub fn packages(&self) -> Packages<'a>
        ensures { packages_left result ≡ (view self.now).packages }
    {
        Packages {
            left: self.count,
            at: 5,
            rest: self.packages,
        }
    }

    /// The bytes after the last package, as they stand.
    pub fn rest(&self) -> &'a [u8]
        ensures { result.now ≡ (view self.now).rest }
    {
        self.rest
    }
}

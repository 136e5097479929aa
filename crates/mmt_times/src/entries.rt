//! The names of an MPT.

ghost use Rattle.std.specs.Prelude.{◌≤◌};

use crate::asset_names::asset_names;
use crate::name_iterators::AssetNames;
use crate::named::Named;
use mmt_mpt::Assets;

/// The names of an MPT, from first to last. It takes no memory.
#[derive(Clone, Copy, Debug)]
pub struct Entries<'a> {
    pub(crate) configured: u32,
    /// The names that are left of one asset.
    pub(crate) names: Option<AssetNames<'a>>,
    pub(crate) assets: Assets<'a>,
    ghost some_timescale: { 1 ≤ configured },
}

impl<'a> Iterator for Entries<'a> {
    ghost use Rattle.std.specs.Iterator.{YieldsFirstBy, item_count};
    ghost use Rattle.mmt_times.specs.NamedView.{view_named};
    ghost use Rattle.mmt_times.specs.NamedLeft.{named_left};

    type Item = Named<'a>;

    ghost next_gives = { YieldsFirstBy view_named named_left };

    ghost remaining = { item_count named_left };

    fn next(&mut self) -> Option<Named<'a>> {
        loop {
            if let Some(names) = &mut self.names {
                if let Some(named) = names.next() {
                    return Some(named);
                }
            }
            let asset = self.assets.next()?;
            self.names = asset_names(self.configured, &asset);
        }
    }
}

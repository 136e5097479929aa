//! Going over assets.

ghost use Rattle.std.specs.Prelude.{◌+◌, ◌<◌, ◌^◌, length};

use crate::asset_view::AssetView;
use crate::reading_assets::first_asset;

/// The assets of a table from first to last. It takes no memory.
#[derive(Clone, Copy, Debug)]
pub struct Assets<'a> {
    pub(crate) left: u8,
    pub(crate) at: u32,
    pub(crate) rest: &'a [u8],
    ghost fits: { at + length rest.now < 2 ^ 31 },
}

impl<'a> Iterator for Assets<'a> {
    ghost use Rattle.std.specs.Iterator.{YieldsFirstBy, item_count};
    ghost use Rattle.mmt_mpt.specs.AssetView.{view_placed};
    ghost use Rattle.mmt_mpt.specs.AssetsLeft.{assets_left};

    type Item = AssetView<'a>;

    ghost next_gives = { YieldsFirstBy view_placed assets_left };

    ghost remaining = { item_count assets_left };

    fn next(&mut self) -> Option<AssetView<'a>> {
        if self.left == 0 {
            return None;
        }
        let (asset, rest) = first_asset(self.left, self.at, self.rest)?;
        self.left -= 1;
        self.at += (self.rest.len() - rest.len()) as u32;
        self.rest = rest;
        Some(asset)
    }
}

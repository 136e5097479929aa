//! An MPT, over the table that it was read from.

ghost use Rattle.std.specs.Prelude.{◌≡◌, ◌+◌, ◌<◌, ◌^◌, length};
ghost use Rattle.mmt_fields.specs.Items.{all_items};
ghost use Rattle.mmt_mpt.specs.DescriptorReading.{descriptor_at};
ghost use Rattle.mmt_mpt.specs.Table.{table_descriptors_place, assets_place};

use crate::assets::Assets;
use crate::descriptors::Descriptors;

/// An MMT Package Table (ARIB STD-B60).
#[derive(Clone, Copy, Debug)]
pub struct Mpt<'a> {
    pub(crate) version: u8,
    pub(crate) mode: u8,
    pub(crate) reserved: u8,
    pub(crate) package_id: &'a [u8],
    pub(crate) descriptors_at: u32,
    pub(crate) descriptors: &'a [u8],
    pub(crate) count: u8,
    pub(crate) assets_at: u32,
    pub(crate) assets: &'a [u8],
    ghost descriptors_fit: { descriptors_at + length descriptors.now < 2 ^ 31 },
    ghost assets_fit: { assets_at + length assets.now < 2 ^ 31 },
    ghost descriptors_placed: { descriptors_at ≡ table_descriptors_place package_id.now },
    ghost assets_placed: { assets_at ≡ assets_place package_id.now (all_items descriptor_at descriptors_at descriptors.now).items },
}

impl<'a> Mpt<'a> {
    ghost use Rattle.std.specs.Prelude.{◌≡◌};
    ghost use Rattle.mmt_mpt.specs.Descriptor.{with_places};
    ghost use Rattle.mmt_mpt.specs.DescriptorsLeft.{descriptors_left};
    ghost use Rattle.mmt_mpt.specs.Asset.{placed_assets};
    ghost use Rattle.mmt_mpt.specs.AssetsLeft.{assets_left};
    ghost use Rattle.mmt_mpt.specs.Table.{table_descriptors_place, assets_place};
    ghost use Rattle.mmt_mpt.specs.TableView.{view};

    /// The table's version.
    pub fn version(&self) -> u8
        ensures { result ≡ (view self.now).version }
    {
        self.version
    }

    /// The mode, of two bits.
    pub fn mode(&self) -> u8
        ensures { result ≡ (view self.now).mode }
    {
        self.mode
    }

    /// The six reserved bits before the mode.
    pub fn reserved(&self) -> u8
        ensures { result ≡ (view self.now).reserved }
    {
        self.reserved
    }

    /// The package id, of at most 255 bytes.
    pub fn package(&self) -> &'a [u8]
        ensures { result.now ≡ (view self.now).package_id }
    {
        self.package_id
    }

    /// The table's descriptors from first to last, each with the place of its content in the table.
    pub fn descriptors(&self) -> Descriptors<'a>
        ensures { descriptors_left result ≡ with_places (table_descriptors_place (view self.now).package_id) (view self.now).descriptors }
    {
        Descriptors {
            at: self.descriptors_at,
            rest: self.descriptors,
        }
    }

    /// The assets from first to last, each with its place in the table.
    pub fn assets(&self) -> Assets<'a>
        ensures { assets_left result ≡ placed_assets (assets_place (view self.now).package_id (view self.now).descriptors) (view self.now).assets }
    {
        Assets {
            left: self.count,
            at: self.assets_at,
            rest: self.assets,
        }
    }
}

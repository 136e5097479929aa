//! An asset, over the table that it was read from.

ghost use Rattle.std.specs.Prelude.{◌≡◌, ◌+◌, ◌<◌, ◌^◌, length};
ghost use Rattle.mmt_lists.specs.Counted.{counted};
ghost use Rattle.mmt_mpt.specs.Asset.{descriptors_place};
ghost use Rattle.mmt_mpt.specs.AssetReading.{place_at};

use crate::descriptors::Descriptors;
use crate::locations::Locations;

/// An asset of an MPT (ARIB STD-B60, MMT Package Table).
#[derive(Clone, Copy, Debug)]
pub struct AssetView<'a> {
    pub(crate) identifier_type: u8,
    pub(crate) scheme: u32,
    pub(crate) id: &'a [u8],
    pub(crate) kind: u32,
    pub(crate) reserved: u8,
    pub(crate) at: u32,
    pub(crate) count: u8,
    pub(crate) locations_at: u32,
    pub(crate) locations: &'a [u8],
    pub(crate) descriptors_at: u32,
    pub(crate) descriptors: &'a [u8],
    ghost locations_fit: { locations_at + length locations.now < 2 ^ 31 },
    ghost descriptors_fit: { descriptors_at + length descriptors.now < 2 ^ 31 },
    ghost placed: { descriptors_at ≡ descriptors_place at id.now (counted count place_at locations_at locations.now).items },
}

impl<'a> AssetView<'a> {
    ghost use Rattle.std.specs.Prelude.{◌≡◌};
    ghost use Rattle.mmt_mpt.specs.Asset.{descriptors_place};
    ghost use Rattle.mmt_mpt.specs.Descriptor.{with_places};
    ghost use Rattle.mmt_mpt.specs.DescriptorsLeft.{descriptors_left};
    ghost use Rattle.mmt_mpt.specs.LocationsLeft.{locations_left};
    ghost use Rattle.mmt_mpt.specs.AssetView.{view_asset, view_placed};

    /// How the asset is identified.
    pub fn identifier_type(&self) -> u8
        ensures { result ≡ (view_asset self.now).identifier_type }
    {
        self.identifier_type
    }

    /// The scheme of the asset's id.
    pub fn scheme(&self) -> u32
        ensures { result ≡ (view_asset self.now).scheme }
    {
        self.scheme
    }

    /// The asset's id, of at most 255 bytes.
    pub fn id(&self) -> &'a [u8]
        ensures { result.now ≡ (view_asset self.now).id }
    {
        self.id
    }

    /// The asset's type, four characters as a number.
    pub fn kind(&self) -> u32
        ensures { result ≡ (view_asset self.now).kind }
    {
        self.kind
    }

    /// The seven reserved bits before the clock relation flag.
    pub fn reserved(&self) -> u8
        ensures { result ≡ (view_asset self.now).reserved }
    {
        self.reserved
    }

    /// The locations, from first to last.
    pub fn locations(&self) -> Locations<'a>
        ensures { locations_left result ≡ (view_asset self.now).locations }
    {
        Locations {
            left: self.count,
            at: self.locations_at,
            rest: self.locations,
        }
    }

    /// The descriptors from first to last, each with the place of its content in the table.
    pub fn descriptors(&self) -> Descriptors<'a>
        ensures { descriptors_left result ≡ with_places (descriptors_place (view_placed self.now).at (view_asset self.now).id (view_asset self.now).locations) (view_asset self.now).descriptors }
    {
        Descriptors {
            at: self.descriptors_at,
            rest: self.descriptors,
        }
    }
}

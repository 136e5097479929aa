//! The names of an asset.

ghost use Rattle.std.specs.Prelude.{◌≡◌, ◌≤◌};
ghost use Rattle.mmt_mpt.specs.AssetView.{view_placed};
ghost use Rattle.mmt_mpt.specs.DescriptorsLeft.{descriptors_left};
ghost use Rattle.mmt_times.specs.NamesOf.{names_at, names_of_asset};
ghost use Rattle.mmt_times.specs.AssetNamesLeft.{location_left, asset_or_nothing};

use crate::contents::{no_content, no_pairs};
use crate::name_iterators::{AssetNames, HereNames, LocationNames};
use crate::parts_left::{Candidates, Ids, Pairs, Refusals};
use crate::search::search_of;
use mmt_mpt::{AssetView, Descriptors};

/// The names at a packet id of an asset with these descriptors.
pub(crate) fn names_by<'a>(
    configured: u32,
    descriptors: Descriptors<'a>,
    packet_id: u16,
) -> LocationNames<'a>
    requires { 1 ≤ configured }
    ensures { location_left result ≡ names_at configured (descriptors_left descriptors.entry) packet_id }
{
    let entries = Candidates {
        configured,
        content: no_content(configured),
        descriptors,
    };
    LocationNames {
        packet_id,
        search: search_of(entries),
        trying: None,
        pairs: Pairs {
            rest: no_pairs(),
            descriptors,
        },
    }
}

/// The names of an asset: nothing without a location of type 0.
pub(crate) fn asset_names<'a>(configured: u32, asset: &AssetView<'a>) -> Option<AssetNames<'a>>
    requires { 1 ≤ configured }
    ensures { asset_or_nothing result ≡ names_of_asset configured (view_placed asset.now) }
{
    let descriptors = asset.descriptors();
    let mut ids = Ids {
        locations: asset.locations(),
    };
    let packet_id = ids.next()?;
    let refusals = Refusals { descriptors };
    let names = HereNames {
        configured,
        descriptors,
        names: names_by(configured, descriptors, packet_id),
        ids,
    };
    Some(AssetNames { refusals, names })
}

//! Copying an MPT that was read into lists of its own.

ghost use Rattle.std.specs.Prelude.{◌≡◌, List as Items, map, IfOk};
ghost use Rattle.mmt_mpt.specs.LocationView.{view_location};
ghost use Rattle.mmt_mpt.specs.LocationsLeft.{locations_left};
ghost use Rattle.mmt_mpt.specs.DescriptorsLeft.{descriptors_left};
ghost use Rattle.mmt_mpt.specs.AssetView.{view_asset};
ghost use Rattle.mmt_mpt.specs.AssetsLeft.{assets_left};
ghost use Rattle.mmt_mpt.specs.TableView.{view};
ghost use Rattle.mmt_mpt.specs.Owned.{owned_location, owned_descriptor, owned_asset, owned_mpt, unplaced, placeless};

use crate::asset_view::AssetView;
use crate::assets::Assets;
use crate::descriptors::Descriptors;
use crate::location::Location;
use crate::locations::Locations;
use crate::mpt::Mpt;
use crate::owned::{OwnedAsset, OwnedDescriptor, OwnedLocation, OwnedMpt};
use mmt_base::OutOfMemory;
use mmt_model::List;
use std::alloc::Global;

fn own_bytes(alloc: Global, bytes: &[u8]) -> Result<List<u8>, OutOfMemory>
    ensures { IfOk result (λ l. l ≡ bytes.now) }
{
    let copy = bytes.to_vec(alloc)?;
    Ok(List::from_vec(copy))
}

fn own_location(alloc: Global, location: &Location<'_>) -> Result<OwnedLocation, OutOfMemory>
    ensures { IfOk result (λ l. owned_location l ≡ view_location location.now) }
{
    match *location {
        Location::Here { packet_id } => Ok(OwnedLocation::Here { packet_id }),
        Location::Ip4 {
            source,
            destination,
            port,
            packet_id,
        } => Ok(OwnedLocation::Ip4 {
            source,
            destination,
            port,
            packet_id,
        }),
        Location::Ip6 {
            source,
            destination,
            port,
            packet_id,
        } => Ok(OwnedLocation::Ip6 {
            source,
            destination,
            port,
            packet_id,
        }),
        Location::Stream {
            network,
            stream,
            reserved,
            pid,
        } => Ok(OwnedLocation::Stream {
            network,
            stream,
            reserved,
            pid,
        }),
        Location::Ip6Stream {
            source,
            destination,
            port,
            reserved,
            pid,
        } => Ok(OwnedLocation::Ip6Stream {
            source,
            destination,
            port,
            reserved,
            pid,
        }),
        Location::Url { text } => {
            let text = own_bytes(alloc, text)?;
            Ok(OwnedLocation::Url { text })
        }
    }
}

#[tactic(auto, using(crate::proofs::Moved::finished))]
fn own_locations(
    alloc: Global,
    locations: Locations<'_>,
) -> Result<List<OwnedLocation>, OutOfMemory>
    ensures { IfOk result (λ l. map owned_location l ≡ locations_left locations.entry) }
{
    let mut owned = List::new(alloc);
    for location in locations {
        let copy = own_location(alloc, &location)?;
        owned.push(copy)?;
    }
    Ok(owned)
}

#[tactic(auto, using(crate::proofs::Moved::finished))]
fn own_descriptors(
    alloc: Global,
    descriptors: Descriptors<'_>,
) -> Result<List<OwnedDescriptor>, OutOfMemory>
    ensures { IfOk result (λ l. map owned_descriptor l ≡ map unplaced (descriptors_left descriptors.entry)) }
{
    let mut owned = List::new(alloc);
    for descriptor in descriptors {
        let bytes = own_bytes(alloc, descriptor.bytes)?;
        owned.push(OwnedDescriptor {
            tag: descriptor.tag,
            bytes,
        })?;
    }
    Ok(owned)
}

#[tactic(auto, using(crate::proofs::Moved::descriptors_again))]
fn own_asset(alloc: Global, asset: &AssetView<'_>) -> Result<OwnedAsset, OutOfMemory>
    ensures { IfOk result (λ a. owned_asset a ≡ view_asset asset.now) }
{
    let id = own_bytes(alloc, asset.id())?;
    let locations = own_locations(alloc, asset.locations())?;
    let descriptors = own_descriptors(alloc, asset.descriptors())?;
    Ok(OwnedAsset {
        identifier_type: asset.identifier_type(),
        scheme: asset.scheme(),
        id,
        kind: asset.kind(),
        reserved: asset.reserved(),
        locations,
        descriptors,
    })
}

#[tactic(auto, using(crate::proofs::Moved::finished))]
fn own_assets(alloc: Global, assets: Assets<'_>) -> Result<List<OwnedAsset>, OutOfMemory>
    ensures { IfOk result (λ l. map owned_asset l ≡ map placeless (assets_left assets.entry)) }
{
    let mut owned = List::new(alloc);
    for asset in assets {
        let copy = own_asset(alloc, &asset)?;
        owned.push(copy)?;
    }
    Ok(owned)
}

/// Copies an MPT that was read into lists of its own: the same value, in which the places of
/// descriptors are no part. `OutOfMemory` comes for want of memory alone.
#[tactic(auto, using(crate::proofs::Moved::descriptors_again, crate::proofs::Moved::assets_again))]
pub fn own_mpt(alloc: Global, mpt: &Mpt<'_>) -> Result<OwnedMpt, OutOfMemory>
    ensures { IfOk result (λ o. owned_mpt o ≡ view mpt.now) }
{
    let package = own_bytes(alloc, mpt.package())?;
    let descriptors = own_descriptors(alloc, mpt.descriptors())?;
    let assets = own_assets(alloc, mpt.assets())?;
    Ok(OwnedMpt {
        version: mpt.version(),
        mode: mpt.mode(),
        reserved: mpt.reserved(),
        package,
        descriptors,
        assets,
    })
}

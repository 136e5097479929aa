//! Writing assets.

ghost use Rattle.std.specs.Prelude.{◌≡◌, ◌+◌, ◌^◌, ◌<◌, ◌≤◌, ◌++◌, length, map, vec_len, vec_capacity};
ghost use Rattle.std.specs.List.{flat_map, All};
ghost use Rattle.mmt_mpt.specs.Asset.{AssetFits, HeadFits, head_of, head_bytes, asset_bytes};
ghost use Rattle.mmt_mpt.specs.Owned.{owned_asset};

use crate::owned::OwnedAsset;
use crate::writing_descriptors::{descriptors_size, put_descriptors};
use crate::writing_owned_locations::{locations_size, put_locations};
use mmt_fields::{put_bytes, put_u8, put_u32};

/// How many bytes an asset takes.
#[tactic(auto, using(crate::proofs::Sizes::asset_long, crate::proofs::Sizes::locations_most))]
fn asset_size(asset: &OwnedAsset) -> u64
    requires { AssetFits (owned_asset asset.now) }
    ensures { result ≡ length (asset_bytes (owned_asset asset.now)) }
{
    let locations = locations_size(asset.locations.as_slice());
    let descriptors = descriptors_size(asset.descriptors.as_slice());
    14 + asset.id.len() as u64 + locations + descriptors
}

/// Appends what stands before an asset's locations, the clock relation flag being 0, where there is
/// room for it.
#[tactic(auto, using(std::proofs::Common::append_assoc, std::proofs::lemmas::Grind::common_steps), unfolding(crate::specs::Asset::head_bytes))]
fn put_head(out: &mut Vec<u8>, asset: &OwnedAsset)
    requires fits { HeadFits (head_of (owned_asset asset.now)) }
    requires room { vec_len out.old + 12 + length asset.now.id ≤ vec_capacity out.old }
    ensures items { out.new.items ≡ out.old.items ++ head_bytes (head_of (owned_asset asset.now)) }
    ensures len { vec_len out.new ≡ vec_len out.old + 12 + length asset.now.id }
    ensures capacity { vec_capacity out.old ≤ vec_capacity out.new }
{
    put_u8(out, asset.identifier_type);
    put_u32(out, asset.scheme);
    put_u8(out, asset.id.len() as u8);
    put_bytes(out, asset.id.as_slice());
    put_u32(out, asset.kind);
    put_u8(out, 2 * asset.reserved);
    put_u8(out, asset.locations.len() as u8);
}

/// Appends an asset where there is room for it.
#[tactic(auto, using(std::proofs::Common::append_assoc, crate::proofs::Sizes::asset_long), unfolding(crate::specs::Asset::asset_bytes))]
fn put_asset(out: &mut Vec<u8>, asset: &OwnedAsset)
    requires fits { AssetFits (owned_asset asset.now) }
    requires room { vec_len out.old + length (asset_bytes (owned_asset asset.now)) ≤ vec_capacity out.old }
    ensures items { out.new.items ≡ out.old.items ++ asset_bytes (owned_asset asset.now) }
    ensures len { vec_len out.new ≡ vec_len out.old + length (asset_bytes (owned_asset asset.now)) }
    ensures capacity { vec_capacity out.old ≤ vec_capacity out.new }
{
    put_head(out, asset);
    put_locations(out, asset.locations.as_slice());
    put_descriptors(out, asset.descriptors.as_slice());
}

/// How many bytes assets take.
#[tactic(auto, using(crate::proofs::Sizes::left_long, crate::proofs::Sizes::assets_most))]
pub(crate) fn assets_size(assets: &[OwnedAsset]) -> u64
    requires count { length assets.now < 2 ^ 8 }
    requires fit { All AssetFits (map owned_asset assets.now) }
    ensures { result ≡ length (flat_map asset_bytes (map owned_asset assets.now)) }
{
    let mut size = 0;
    for asset in assets {
        size += asset_size(asset);
    }
    size
}

/// Appends assets where there is room for them.
#[tactic(auto, using(crate::proofs::Sizes::left_long))]
pub(crate) fn put_assets(out: &mut Vec<u8>, assets: &[OwnedAsset])
    requires fit { All AssetFits (map owned_asset assets.now) }
    requires room { vec_len out.old + length (flat_map asset_bytes (map owned_asset assets.now)) ≤ vec_capacity out.old }
    ensures items { out.new.items ≡ out.old.items ++ flat_map asset_bytes (map owned_asset assets.now) }
    ensures len { vec_len out.new ≡ vec_len out.old + length (flat_map asset_bytes (map owned_asset assets.now)) }
    ensures capacity { vec_capacity out.old ≤ vec_capacity out.new }
{
    for asset in assets {
        put_asset(out, asset);
    }
}

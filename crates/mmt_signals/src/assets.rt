//! Writing the assets of a table.

ghost use Rattle.std.specs.Prelude.{◌≡◌, ◌+◌, ◌*◌, ◌<◌, ◌≤◌, ◌++◌, List, [], ◌∷◌, length, map, take, drop, vec_len, vec_capacity};
ghost use Rattle.std.specs.List.{All, AllByRecursion, flat_map, prefix_len, sum_by};
ghost use Rattle.mmt_cast.specs.Placing.{map_from};
ghost use Rattle.mmt_cast.specs.SentTables.{sent_asset};
ghost use Rattle.mmt_cast.specs.Tables.{asset_length, descriptors_length};
ghost use Rattle.mmt_model.specs.Right.{AreRising, IsKnown};
ghost use Rattle.mmt_mpt.specs.Asset.{asset_bytes, head_bytes};
ghost use Rattle.mmt_mpt.specs.Location.{IsHere, location_bytes};
ghost use Rattle.mmt_signals.specs.Named.{FitsIn, HasAll, is_of, listed_asset, named, start_bytes};

use crate::named::{descriptors_size, put_all_extended, put_all_stamps};
use mmt_fields::{put_bytes, put_u8, put_u16, put_u32};
use mmt_model::Asset;

/// How many of the first names are those of MPUs of an asset.
fn run_length(names: &[(u32, u32)], asset: u32) -> usize
    ensures value { result ≡ prefix_len (is_of asset) names.now }
    ensures most { result ≤ length names.now }
{
    let mut count = 0;
    for name in names {
        if name.0 != asset {
            return count;
        }
        count += 1;
    }
    count
}

/// Appends what stands before an asset's descriptors: how it is identified, its id, its type, reserved bits 1,
/// no clock relation, and one location with its packet id in the same flow (ARIB STD-B60, MMT Package Table).
#[tactic(auto, using(std::proofs::Common::append_assoc), unfolding(mmt_mpt::specs::Asset::head_bytes, mmt_mpt::specs::Location::location_bytes))]
fn put_head(out: &mut Vec<u8>, asset: &Asset)
    requires id { length asset.now.id ≤ 255 }
    requires room { vec_len out.old + 15 + length asset.now.id ≤ vec_capacity out.old }
    ensures items { out.new.items ≡ out.old.items ++ start_bytes asset.now }
    ensures len { vec_len out.new ≡ vec_len out.old + 15 + length asset.now.id }
    ensures capacity { vec_capacity out.old ≤ vec_capacity out.new }
{
    put_u8(out, 0);
    put_u32(out, 0);
    put_u8(out, asset.id.len() as u8);
    put_bytes(out, asset.id.as_slice());
    put_u32(out, asset.kind);
    put_u8(out, 0b1111_1110);
    put_u8(out, 1);
    put_u8(out, 0);
    put_u16(out, asset.packet_id);
}

/// Appends an asset in which these MPUs are named.
#[tactic(auto, using(std::proofs::Common::append_assoc, crate::proofs::Bytes::asset_are, crate::proofs::Bytes::asset_size_is, crate::proofs::Bytes::descriptors_parts))]
fn put_asset(out: &mut Vec<u8>, asset: &Asset, names: &[(u32, u32)])
    requires known { HasAll asset.now names.now }
    requires fits { FitsIn asset.now }
    requires short { descriptors_length (named asset.now names.now) ≤ 65535 }
    requires room { vec_len out.old + length (asset_bytes (listed_asset asset.now (named asset.now names.now))) ≤ vec_capacity out.old }
    ensures items { out.new.items ≡ out.old.items ++ asset_bytes (listed_asset asset.now (named asset.now names.now)) }
    ensures len { vec_len out.new ≡ vec_len out.old + length (asset_bytes (listed_asset asset.now (named asset.now names.now))) }
    ensures capacity { vec_capacity out.old ≤ vec_capacity out.new }
{
    put_head(out, asset);
    put_u16(out, descriptors_size(asset, names) as u16);
    put_all_stamps(out, asset, names);
    put_all_extended(out, asset, names);
}

/// How many bytes assets take in a table with these names.
pub(crate) fn assets_size(assets: &[Asset], names: &[(u32, u32)]) -> usize
    requires few { length assets.now ≤ 255 }
    requires each { All FitsIn assets.now }
    requires known { AllByRecursion (IsKnown assets.now) names.now }
    requires rising { AreRising names.now }
    requires short { sum_by (λ n. n) (map_from (asset_length names.now) 0 assets.now) ≤ 65535 }
    ensures { result ≡ sum_by (λ n. n) (map_from (asset_length names.now) 0 assets.now) }
{
    let mut size = 0;
    let mut rest = names;
    for place in 0..assets.len() {
        let asset = &assets[place];
        let (run, later) = rest.split_at(run_length(rest, place as u32));
        size += 17 + asset.id.len() + descriptors_size(asset, run);
        rest = later;
    }
    size
}

/// Appends the assets of a table with these names, where there is room for them.
pub(crate) fn put_assets(out: &mut Vec<u8>, assets: &[Asset], names: &[(u32, u32)])
    requires few { length assets.now ≤ 255 }
    requires each { All FitsIn assets.now }
    requires known { AllByRecursion (IsKnown assets.now) names.now }
    requires rising { AreRising names.now }
    requires short { sum_by (λ n. n) (map_from (asset_length names.now) 0 assets.now) ≤ 65535 }
    requires room { vec_len out.old + length (flat_map asset_bytes (map_from (sent_asset names.now) 0 assets.now))
        ≤ vec_capacity out.old }
    ensures { out.new.items ≡ out.old.items ++ flat_map asset_bytes (map_from (sent_asset names.now) 0 assets.now) }
{
    let mut rest = names;
    for place in 0..assets.len() {
        let (run, later) = rest.split_at(run_length(rest, place as u32));
        put_asset(out, &assets[place], run);
        rest = later;
    }
}

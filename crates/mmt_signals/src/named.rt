//! Writing the descriptors of an asset.

ghost use Rattle.std.specs.Prelude.{◌≡◌, ◌+◌, ◌*◌, ◌<◌, ◌≤◌, ◌++◌, length, map, take, drop, vec_len, vec_capacity};
ghost use Rattle.std.specs.List.{flat_map};
ghost use Rattle.mmt_cast.specs.SentTables.{extended_of_mpu};
ghost use Rattle.mmt_cast.specs.Tables.{descriptors_length, extended_length};
ghost use Rattle.mmt_mpt.specs.Descriptor.{descriptor_bytes};
ghost use Rattle.mmt_signals.specs.Named.{HasAll, FitsIn, all_stamps, named, named_mpu as mpu_of};

use crate::descriptors::{named_mpu, put_extended, put_stamps};
use mmt_model::Asset;

/// How many MPUs a timestamp descriptor has at most.
const MOST: usize = 21;

/// The names in the timestamp descriptor at a place.
fn names_at(names: &[(u32, u32)], place: usize) -> &[(u32, u32)]
    requires { place * 21 ≤ length names.now }
    ensures names { result.now ≡ take 21 (drop (place * 21) names.now) }
    ensures few { length result.now ≤ 21 }
{
    let (_, rest) = names.split_at(place * MOST);
    let (some, _) = rest.split_at(rest.len().min(MOST));
    some
}

/// Appends the timestamp descriptors of the MPUs that are named.
#[tactic(auto, using(crate::proofs::Bytes::stamps_left))]
pub(crate) fn put_all_stamps(out: &mut Vec<u8>, asset: &Asset, names: &[(u32, u32)])
    requires known { HasAll asset.now names.now }
    requires room { vec_len out.old + length (flat_map descriptor_bytes (all_stamps (named asset.now names.now))) ≤ vec_capacity out.old }
    ensures items { out.new.items ≡ out.old.items ++ flat_map descriptor_bytes (all_stamps (named asset.now names.now)) }
    ensures len { vec_len out.new ≡ vec_len out.old + length (flat_map descriptor_bytes (all_stamps (named asset.now names.now))) }
    ensures capacity { vec_capacity out.old ≤ vec_capacity out.new }
{
    for place in 0..names.len().div_ceil(MOST) {
        put_stamps(out, asset, names_at(names, place));
    }
}

/// Appends the extended descriptor of an MPU where it has access units.
#[tactic(auto, using(crate::proofs::Bytes::extended_some, crate::proofs::Bytes::extended_none))]
fn put_extended_of(out: &mut Vec<u8>, asset: &Asset, name: (u32, u32))
    requires known { name.1 < length asset.now.mpus }
    requires fits { FitsIn asset.now }
    requires room { vec_len out.old + length (flat_map descriptor_bytes (extended_of_mpu (mpu_of asset.now name))) ≤ vec_capacity out.old }
    ensures items { out.new.items ≡ out.old.items ++ flat_map descriptor_bytes (extended_of_mpu (mpu_of asset.now name)) }
    ensures len { vec_len out.new ≡ vec_len out.old + length (flat_map descriptor_bytes (extended_of_mpu (mpu_of asset.now name))) }
    ensures capacity { vec_capacity out.old ≤ vec_capacity out.new }
{
    let mpu = named_mpu(asset, name);
    if mpu.aus.len() > 0 {
        put_extended(out, asset.timescale, mpu);
    }
}

/// Appends the extended descriptors of the MPUs that are named.
pub(crate) fn put_all_extended(out: &mut Vec<u8>, asset: &Asset, names: &[(u32, u32)])
    requires known { HasAll asset.now names.now }
    requires fits { FitsIn asset.now }
    requires room { vec_len out.old + length (flat_map descriptor_bytes (flat_map extended_of_mpu (named asset.now names.now)))
        ≤ vec_capacity out.old }
    ensures items { out.new.items ≡ out.old.items ++ flat_map descriptor_bytes (flat_map extended_of_mpu (named asset.now names.now)) }
    ensures len { vec_len out.new ≡ vec_len out.old
        + length (flat_map descriptor_bytes (flat_map extended_of_mpu (named asset.now names.now))) }
    ensures capacity { vec_capacity out.old ≤ vec_capacity out.new }
{
    for name in names {
        put_extended_of(out, asset, *name);
    }
}

/// How many bytes the extended descriptor of an MPU takes; none where it has no access units.
#[tactic(auto, using(crate::proofs::Bytes::extended_size_some, crate::proofs::Bytes::extended_size_none))]
fn extended_size(asset: &Asset, name: (u32, u32)) -> usize
    requires known { name.1 < length asset.now.mpus }
    requires fits { FitsIn asset.now }
    ensures { result ≡ extended_length (mpu_of asset.now name) }
{
    let mpu = named_mpu(asset, name);
    if mpu.aus.len() > 0 {
        16 + 4 * mpu.aus.len()
    } else {
        0
    }
}

/// How many bytes the descriptors of an asset take in which these MPUs are named.
pub(crate) fn descriptors_size(asset: &Asset, names: &[(u32, u32)]) -> usize
    requires known { HasAll asset.now names.now }
    requires fits { FitsIn asset.now }
    requires short { descriptors_length (named asset.now names.now) ≤ 65535 }
    ensures { result ≡ descriptors_length (named asset.now names.now) }
{
    let mut size = 3 * names.len().div_ceil(MOST) + 12 * names.len();
    for name in names {
        size += extended_size(asset, *name);
    }
    size
}

//! Writing the descriptors of an asset's MPUs.

ghost use Rattle.std.specs.Prelude.{◌≡◌, ◌+◌, ◌*◌, ◌<◌, ◌≤◌, ◌++◌, length, map, get_or, take, drop, vec_len, vec_capacity};
ghost use Rattle.std.specs.List.{flat_map};
ghost use Rattle.mmt_cast.specs.Right.{no_mpu};
ghost use Rattle.mmt_cast.specs.SentTables.{pair_of};
ghost use Rattle.mmt_mpt.specs.Descriptor.{descriptor_bytes};
ghost use Rattle.mmt_signals.specs.Named.{FitsIn, HasAll, extended_for, named, named_mpu as mpu_of, stamps_for};
ghost use Rattle.mmt_times.specs.Extended.{au_bytes, mpu_bytes, extended_bytes, extended_tag};
ghost use Rattle.mmt_times.specs.Stamps.{pair_bytes, stamps_bytes, stamps_tag};
ghost use Rattle.mmt_times.specs.Writing.{au_value, written_mpu, written_extended};

use mmt_fields::{put_u8, put_u16, put_u32, put_u64};
use mmt_model::{Asset, Au, Mpu};

/// The tag of an MPU timestamp descriptor (ARIB STD-B60).
const STAMPS_TAG: u16 = 0x0001;

/// The tag of an MPU extended timestamp descriptor.
const EXTENDED_TAG: u16 = 0x8026;

/// The MPU of an asset that a name stands for.
pub(crate) fn named_mpu(asset: &Asset, name: (u32, u32)) -> &Mpu
    requires { name.1 < length asset.now.mpus }
    ensures { result.now ≡ (mpu_of asset.now name).value }
{
    &asset.mpus.as_slice()[name.1 as usize]
}

/// Appends an MPU's number and its presentation time.
#[tactic(auto, using(std::proofs::Common::append_assoc), unfolding(mmt_times::specs::Stamps::pair_bytes))]
fn put_pair(out: &mut Vec<u8>, mpu: &Mpu)
    requires { vec_len out.old + 12 ≤ vec_capacity out.old }
    ensures items { out.new.items ≡ out.old.items ++ pair_bytes (record { mpu = mpu.now.number; time = mpu.now.time.0 }) }
    ensures len { vec_len out.new ≡ vec_len out.old + 12 }
    ensures capacity { vec_capacity out.old ≤ vec_capacity out.new }
{
    put_u32(out, mpu.number);
    put_u64(out, mpu.time.0);
}

/// Appends the numbers and presentation times of the MPUs that are named.
#[tactic(auto, using(std::proofs::Common::append_assoc), unfolding(mmt_times::specs::Stamps::stamps_bytes))]
fn put_pairs(out: &mut Vec<u8>, asset: &Asset, names: &[(u32, u32)])
    requires known { HasAll asset.now names.now }
    requires room { vec_len out.old + 12 * length names.now ≤ vec_capacity out.old }
    ensures items { out.new.items ≡ out.old.items ++ stamps_bytes (map pair_of (named asset.now names.now)) }
    ensures len { vec_len out.new ≡ vec_len out.old + 12 * length names.now }
    ensures capacity { vec_capacity out.old ≤ vec_capacity out.new }
{
    for name in names {
        put_pair(out, named_mpu(asset, *name));
    }
}

/// Appends a timestamp descriptor of at most 21 MPUs (ARIB STD-B60, MPU timestamp descriptor).
#[tactic(auto, using(std::proofs::Common::append_assoc, crate::proofs::Bytes::stamps_are))]
pub(crate) fn put_stamps(out: &mut Vec<u8>, asset: &Asset, names: &[(u32, u32)])
    requires few { length names.now ≤ 21 }
    requires known { HasAll asset.now names.now }
    requires room { vec_len out.old + 3 + 12 * length names.now ≤ vec_capacity out.old }
    ensures items { out.new.items ≡ out.old.items ++ descriptor_bytes (stamps_for asset.now names.now) }
    ensures len { vec_len out.new ≡ vec_len out.old + 3 + 12 * length names.now }
    ensures capacity { vec_capacity out.old ≤ vec_capacity out.new }
{
    put_u16(out, STAMPS_TAG);
    put_u8(out, 12 * names.len() as u8);
    put_pairs(out, asset, names);
}

/// Appends the offsets of an access unit.
#[tactic(auto, using(std::proofs::Common::append_assoc), unfolding(mmt_times::specs::Extended::au_bytes))]
fn put_au(out: &mut Vec<u8>, au: Au)
    requires { vec_len out.old + 4 ≤ vec_capacity out.old }
    ensures items { out.new.items ≡ out.old.items ++ au_bytes (au_value au) }
    ensures len { vec_len out.new ≡ vec_len out.old + 4 }
    ensures capacity { vec_capacity out.old ≤ vec_capacity out.new }
{
    put_u16(out, au.dts_pts);
    put_u16(out, au.pts);
}

/// Appends the offsets of access units.
fn put_aus(out: &mut Vec<u8>, aus: &[Au])
    requires room { vec_len out.old + 4 * length aus.now ≤ vec_capacity out.old }
    ensures items { out.new.items ≡ out.old.items ++ flat_map au_bytes (map au_value aus.now) }
    ensures len { vec_len out.new ≡ vec_len out.old + 4 * length aus.now }
    ensures capacity { vec_capacity out.old ≤ vec_capacity out.new }
{
    for au in aus {
        put_au(out, *au);
    }
}

/// Appends the entry of an MPU, with leap indicator 0 and reserved bits 1.
#[tactic(auto, using(std::proofs::Common::append_assoc), unfolding(mmt_times::specs::Extended::mpu_bytes))]
fn put_entry(out: &mut Vec<u8>, mpu: &Mpu)
    requires few { length mpu.now.aus ≤ 60 }
    requires room { vec_len out.old + 8 + 4 * length mpu.now.aus ≤ vec_capacity out.old }
    ensures items { out.new.items ≡ out.old.items ++ mpu_bytes (written_mpu mpu.now) }
    ensures len { vec_len out.new ≡ vec_len out.old + 8 + 4 * length mpu.now.aus }
    ensures capacity { vec_capacity out.old ≤ vec_capacity out.new }
{
    put_u32(out, mpu.number);
    put_u8(out, 0b11_1111);
    put_u16(out, mpu.decoding_offset);
    put_u8(out, mpu.aus.len() as u8);
    put_aus(out, mpu.aus.as_slice());
}

/// Appends the extended timestamp descriptor of an MPU, of type 2, with the timescale in units a second.
#[tactic(auto, using(std::proofs::Common::append_assoc, crate::proofs::Bytes::extended_are))]
pub(crate) fn put_extended(out: &mut Vec<u8>, timescale: u32, mpu: &Mpu)
    requires few { length mpu.now.aus ≤ 60 }
    requires room { vec_len out.old + 16 + 4 * length mpu.now.aus ≤ vec_capacity out.old }
    ensures items { out.new.items ≡ out.old.items ++ descriptor_bytes (extended_for timescale mpu.now) }
    ensures len { vec_len out.new ≡ vec_len out.old + 16 + 4 * length mpu.now.aus }
    ensures capacity { vec_capacity out.old ≤ vec_capacity out.new }
{
    put_u16(out, EXTENDED_TAG);
    put_u8(out, 13 + 4 * mpu.aus.len() as u8);
    put_u8(out, 0b1111_1101);
    put_u32(out, timescale);
    put_entry(out, mpu);
}

//! Writing the contents of timestamp descriptors.

ghost use Rattle.std.specs.Prelude.{◌≡◌, ◌+◌, ◌*◌, ◌<◌, ◌≤◌, ◌++◌, length, map, vec_len, vec_capacity, OnOk, OnErr, Ok, true};
ghost use Rattle.std.specs.List.{flat_map, All};
ghost use Rattle.mmt_times.specs.Stamps.{PairFits, pair_bytes, StampsFit, stamps_bytes, stamps_of};
ghost use Rattle.mmt_times.specs.Extended.{AuFits, au_bytes, MpuFits, mpu_bytes, ExtendedFits, extended_bytes};
ghost use Rattle.mmt_times.specs.ExtendedReading.{extended_of};
ghost use Rattle.mmt_times.specs.Writing.{pair_value, au_value, written_mpu, written_extended};

use mmt_base::{Ntp, OutOfMemory};
use mmt_fields::{put_u8, put_u16, put_u32, put_u64};
use mmt_model::{Au, Mpu};

/// Appends a pair.
#[tactic(auto, using(std::proofs::Common::append_assoc), unfolding(crate::specs::Stamps::pair_bytes))]
fn put_pair(out: &mut Vec<u8>, pair: (u32, Ntp))
    requires { vec_len out.old + 12 ≤ vec_capacity out.old }
    ensures items { out.new.items ≡ out.old.items ++ pair_bytes (pair_value pair) }
    ensures fits { PairFits (pair_value pair) }
    ensures len { vec_len out.new ≡ vec_len out.old + 12 }
    ensures capacity { vec_capacity out.old ≤ vec_capacity out.new }
{
    put_u32(out, pair.0);
    put_u64(out, pair.1.0);
}

/// Appends pairs one after the other.
fn put_pairs(out: &mut Vec<u8>, pairs: &[(u32, Ntp)])
    requires few { length pairs.now ≤ 21 }
    requires room { vec_len out.old + 12 * length pairs.now ≤ vec_capacity out.old }
    ensures items { out.new.items ≡ out.old.items ++ flat_map pair_bytes (map pair_value pairs.now) }
    ensures fits { All PairFits (map pair_value pairs.now) }
{
    for pair in pairs {
        put_pair(out, *pair);
    }
}

/// Appends the content of an MPU timestamp descriptor (ARIB STD-B60), without tag and length: at most
/// 21 pairs of an MPU's sequence number and its presentation time.
///
/// # Errors
///
/// `OutOfMemory`, which leaves `out` as it was.
#[tactic(auto, using(crate::proofs::Laws::stamps_again), unfolding(crate::specs::Stamps::stamps_bytes))]
pub fn write_stamps(out: &mut Vec<u8>, pairs: &[(u32, Ntp)]) -> Result<(), OutOfMemory>
    requires { length pairs.now ≤ 21 }
    // What is appended.
    ensures ok { OnOk result (out.new.items ≡ out.old.items ++ stamps_bytes (map pair_value pairs.now)) }
    // The numbers have room in their fields.
    ensures fits { OnOk result (StampsFit (map pair_value pairs.now)) }
    // What is appended is read back.
    ensures read { OnOk result (stamps_of (stamps_bytes (map pair_value pairs.now)) ≡ Ok (map pair_value pairs.now)) }
    // What a refusal leaves.
    ensures err { OnErr result (out.new.items ≡ out.old.items) }
{
    out.reserve(12 * pairs.len())?;
    put_pairs(out, pairs);
    Ok(())
}

/// Appends the offsets of an access unit.
#[tactic(auto, using(std::proofs::Common::append_assoc), unfolding(crate::specs::Extended::au_bytes))]
fn put_au(out: &mut Vec<u8>, au: Au)
    requires { vec_len out.old + 4 ≤ vec_capacity out.old }
    ensures items { out.new.items ≡ out.old.items ++ au_bytes (au_value au) }
    ensures fits { AuFits true (au_value au) }
    ensures len { vec_len out.new ≡ vec_len out.old + 4 }
    ensures capacity { vec_capacity out.old ≤ vec_capacity out.new }
{
    put_u16(out, au.dts_pts);
    put_u16(out, au.pts);
}

/// Appends the offsets of access units one after the other.
fn put_aus(out: &mut Vec<u8>, aus: &[Au])
    requires few { length aus.now ≤ 60 }
    requires room { vec_len out.old + 4 * length aus.now ≤ vec_capacity out.old }
    ensures items { out.new.items ≡ out.old.items ++ flat_map au_bytes (map au_value aus.now) }
    ensures fits { All (AuFits true) (map au_value aus.now) }
{
    for au in aus {
        put_au(out, *au);
    }
}

/// Appends an MPU's entry.
#[tactic(auto, using(std::proofs::Common::append_assoc), unfolding(crate::specs::Extended::mpu_bytes))]
fn put_mpu(out: &mut Vec<u8>, mpu: &Mpu)
    requires few { length mpu.now.aus ≤ 60 }
    requires room { vec_len out.old + 8 + 4 * length mpu.now.aus ≤ vec_capacity out.old }
    ensures items { out.new.items ≡ out.old.items ++ mpu_bytes (written_mpu mpu.now) }
    ensures fits { MpuFits true (written_mpu mpu.now) }
{
    put_u32(out, mpu.number);
    put_u8(out, 0b11_1111);
    put_u16(out, mpu.decoding_offset);
    put_u8(out, mpu.aus.len() as u8);
    put_aus(out, mpu.aus.as_slice());
}

/// Appends the content of an MPU extended timestamp descriptor, without tag and length: one of type
/// 2, with this timescale in units a second, for one MPU of at most 60 access units. The timescale is
/// at least 1. The leap indicator is 0, and reserved bits are 1.
///
/// # Errors
///
/// `OutOfMemory`, which leaves `out` as it was.
#[tactic(auto, using(std::proofs::Common::append_assoc), unfolding(crate::specs::Extended::extended_bytes))]
pub fn write_extended(out: &mut Vec<u8>, timescale: u32, mpu: &Mpu) -> Result<(), OutOfMemory>
    requires few { length mpu.now.aus ≤ 60 }
    requires some { 1 ≤ timescale }
    // What is appended.
    ensures ok { OnOk result (out.new.items ≡ out.old.items ++ extended_bytes (written_extended timescale mpu.now)) }
    // The numbers have room in their fields.
    ensures fits { OnOk result (ExtendedFits (written_extended timescale mpu.now)) }
    // What is appended is read back.
    ensures read { OnOk result (extended_of (extended_bytes (written_extended timescale mpu.now)) ≡ Ok (written_extended timescale mpu.now)) }
    // What a refusal leaves.
    ensures err { OnErr result (out.new.items ≡ out.old.items) }
{
    out.reserve(13 + 4 * mpu.aus.len())?;
    put_u8(out, 0b1111_1101);
    put_u32(out, timescale);
    put_mpu(out, mpu);
    Ok(())
}

//! Readers of one field at the front of a slice.
//!
//! Each gives the field and the bytes after it, or refuses with `short` at the field's first byte
//! where the slice ends before the field does. `at` is the place of that byte in what is read as a
//! whole. Numbers are big-endian. No reader takes memory.

ghost use Rattle.std.specs.Prelude.{◌≡◌, ◌+◌, length, IfOk, IfErr};
ghost use Rattle.std.specs.Int.{w8, w16, w32, w64, w128};
ghost use Rattle.mmt_fields.specs.Reading.{Gives, number_at};
ghost use Rattle.mmt_fields.specs.Reading.{bytes_at as front_bytes, check as check_of};

use mmt_base::Refused;

/// The byte at the front, and the bytes after it.
#[tactic(auto, unfolding(crate::specs::Reading::number_at))]
pub fn u8_at<W: Drop>(bytes: &[u8], at: u32, short: W) -> Result<(u8, &[u8]), Refused<W>>
    ensures gives { Gives (λ x. (x.0, x.1.now)) result (number_at w8 bytes.now at short) }
    ensures len { IfOk result (λ x. length x.1.now + 1 ≡ length bytes.now) }
    ensures place { IfErr result (λ e. e.at ≡ at) }
{
    match bytes.split_first_chunk::<1>() {
        Some((front, rest)) => Ok((u8::from_be_bytes(*front), rest)),
        None => Err(Refused { at, why: short }),
    }
}

/// The big-endian number in the two bytes at the front, and the bytes after it.
#[tactic(auto, unfolding(crate::specs::Reading::number_at))]
pub fn u16_at<W: Drop>(bytes: &[u8], at: u32, short: W) -> Result<(u16, &[u8]), Refused<W>>
    ensures gives { Gives (λ x. (x.0, x.1.now)) result (number_at w16 bytes.now at short) }
    ensures len { IfOk result (λ x. length x.1.now + 2 ≡ length bytes.now) }
    ensures place { IfErr result (λ e. e.at ≡ at) }
{
    match bytes.split_first_chunk::<2>() {
        Some((front, rest)) => Ok((u16::from_be_bytes(*front), rest)),
        None => Err(Refused { at, why: short }),
    }
}

/// The big-endian number in the four bytes at the front, and the bytes after it.
#[tactic(auto, unfolding(crate::specs::Reading::number_at))]
pub fn u32_at<W: Drop>(bytes: &[u8], at: u32, short: W) -> Result<(u32, &[u8]), Refused<W>>
    ensures gives { Gives (λ x. (x.0, x.1.now)) result (number_at w32 bytes.now at short) }
    ensures len { IfOk result (λ x. length x.1.now + 4 ≡ length bytes.now) }
    ensures place { IfErr result (λ e. e.at ≡ at) }
{
    match bytes.split_first_chunk::<4>() {
        Some((front, rest)) => Ok((u32::from_be_bytes(*front), rest)),
        None => Err(Refused { at, why: short }),
    }
}

/// The big-endian number in the eight bytes at the front, and the bytes after it.
#[tactic(auto, unfolding(crate::specs::Reading::number_at))]
pub fn u64_at<W: Drop>(bytes: &[u8], at: u32, short: W) -> Result<(u64, &[u8]), Refused<W>>
    ensures gives { Gives (λ x. (x.0, x.1.now)) result (number_at w64 bytes.now at short) }
    ensures len { IfOk result (λ x. length x.1.now + 8 ≡ length bytes.now) }
    ensures place { IfErr result (λ e. e.at ≡ at) }
{
    match bytes.split_first_chunk::<8>() {
        Some((front, rest)) => Ok((u64::from_be_bytes(*front), rest)),
        None => Err(Refused { at, why: short }),
    }
}

/// The big-endian number in the sixteen bytes at the front, and the bytes after it.
#[tactic(auto, unfolding(crate::specs::Reading::number_at))]
pub fn u128_at<W: Drop>(bytes: &[u8], at: u32, short: W) -> Result<(u128, &[u8]), Refused<W>>
    ensures gives { Gives (λ x. (x.0, x.1.now)) result (number_at w128 bytes.now at short) }
    ensures len { IfOk result (λ x. length x.1.now + 16 ≡ length bytes.now) }
    ensures place { IfErr result (λ e. e.at ≡ at) }
{
    match bytes.split_first_chunk::<16>() {
        Some((front, rest)) => Ok((u128::from_be_bytes(*front), rest)),
        None => Err(Refused { at, why: short }),
    }
}

/// The first `count` bytes, and the bytes after them.
#[tactic(auto, unfolding(crate::specs::Reading::bytes_at))]
pub fn bytes_at<W: Drop>(
    bytes: &[u8],
    count: usize,
    at: u32,
    short: W,
) -> Result<(&[u8], &[u8]), Refused<W>>
    ensures gives { Gives (λ x. (x.0.now, x.1.now)) result (front_bytes count bytes.now at short) }
    ensures len { IfOk result (λ x. (length x.0.now ≡ count) × (length x.1.now + count ≡ length bytes.now)) }
    ensures place { IfErr result (λ e. e.at ≡ at) }
{
    match bytes.split_at_checked(count) {
        Some((front, rest)) => Ok((front, rest)),
        None => Err(Refused { at, why: short }),
    }
}

/// A test that has to hold, or the refusal `why` at a place.
pub fn check<W: Drop>(holds: bool, at: u32, why: W) -> Result<(), Refused<W>>
    ensures gives { Gives (λ _. tt) result (check_of holds at why) }
    ensures place { IfErr result (λ e. e.at ≡ at) }
{
    if holds {
        Ok(())
    } else {
        Err(Refused { at, why })
    }
}

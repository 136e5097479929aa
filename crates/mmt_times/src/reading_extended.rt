//! Reading the content of an MPU extended timestamp descriptor.

ghost use Rattle.std.specs.Prelude.{◌≡◌, ◌*◌, ◌<◌, ◌≤◌, [], ◌∷◌, length, IfOk, IfSome, Ok, MatchOption, MatchResult, Some, None};
ghost use Rattle.mmt_fields.specs.Reading.{Gives, optional_at};
ghost use Rattle.mmt_fields.specs.Items.{all_items};
ghost use Rattle.mmt_lists.specs.Counted.{counted};
ghost use Rattle.mmt_times.specs.AuReading.{au_at, au_size as size_of, offset_at as offset_by};
ghost use Rattle.mmt_times.specs.Extended.{ExtendedValue, ExtendedFits, extended_bytes};
ghost use Rattle.mmt_times.specs.ExtendedReading.{mpu_at as mpu_by, timescale_at as timescale_by, extended_of as extended_by, mpus_from};
ghost use Rattle.mmt_times.specs.ContentView.{view_mpu, view_extended};

use crate::extended::{Extended, MpuOffsets};
use crate::reading_aus::offset_at;
use crate::times_why::TimesWhy;
use mmt_base::Refused;
use mmt_fields::{u8_at, u32_at};

/// How many bytes the offsets of an access unit take.
fn au_size(each: bool) -> usize
    ensures exact { result ≡ size_of each }
    ensures most { result ≤ 4 }
{
    if each { 4 } else { 2 }
}

/// What follows the offsets of so many access units.
#[tactic(auto, using(crate::proofs::Readers::aus_stop, crate::proofs::Readers::aus_rest, crate::proofs::Readers::aus_short))]
fn after_aus(each: bool, count: u8, bytes: &[u8]) -> Result<&[u8], Refused<TimesWhy>>
    ensures { MatchResult result
        (λ rest. ((counted count (au_at each) 0 bytes.now).stop ≡ None) × (rest.now ≡ (counted count (au_at each) 0 bytes.now).rest) × (length rest.now ≤ length bytes.now))
        (λ e. (counted count (au_at each) 0 bytes.now).stop ≡ Some e) }
{
    let total = count as usize * au_size(each);
    match bytes.split_at_checked(total) {
        Some((_, rest)) => Ok(rest),
        None => Err(Refused {
            at: 0,
            why: TimesWhy::Length,
        }),
    }
}

/// An MPU's entry, and what follows it.
#[tactic(auto, unfolding(crate::specs::ExtendedReading::mpu_at, mmt_lists::specs::Counted::counted_of))]
fn mpu_at(each: bool, bytes: &[u8]) -> Result<(MpuOffsets<'_>, &[u8]), Refused<TimesWhy>>
    ensures gives { Gives (λ x. (view_mpu each x.0, x.1.now)) result (mpu_by each 0 bytes.now) }
    ensures shorter { IfOk result (λ x. length x.1.now < length bytes.now) }
{
    let (mpu, rest) = u32_at(bytes, 0, TimesWhy::Length)?;
    let (flags, rest) = u8_at(rest, 0, TimesWhy::Length)?;
    let (offset, rest) = offset_at(rest)?;
    let (count, aus) = u8_at(rest, 0, TimesWhy::Length)?;
    let rest = after_aus(each, count, aus)?;
    let entry = MpuOffsets {
        mpu,
        flags,
        offset,
        count,
        aus,
    };
    Ok((entry, rest))
}

/// Goes over MPUs' entries up to the end of the bytes.
#[tactic(auto, using(crate::proofs::Readers::mpus_stop_err, crate::proofs::Readers::mpus_stop_none))]
fn check_mpus(each: bool, bytes: &[u8]) -> Result<(), Refused<TimesWhy>>
    ensures { MatchResult result (λ _. (all_items (mpu_by each) 0 bytes.now).stop ≡ None) (λ e. (all_items (mpu_by each) 0 bytes.now).stop ≡ Some e) }
{
    let mut rest = bytes;
    while !rest.is_empty() {
        let (_, after) = mpu_at(each, rest)?;
        rest = after;
    }
    Ok(())
}

/// The first of the MPUs' entries that are left, and the bytes after it.
pub(crate) fn first_mpu(each: bool, bytes: &[u8]) -> Option<(MpuOffsets<'_>, &[u8])>
    ensures { MatchOption result (mpus_from each bytes.now ≡ [])
        (λ x. mpus_from each bytes.now ≡ view_mpu each x.0 ∷ mpus_from each x.1.now) }
{
    match mpu_at(each, bytes) {
        Ok(found) => Some(found),
        Err(_) => None,
    }
}

/// A timescale, and what follows it.
#[tactic(auto, unfolding(crate::specs::ExtendedReading::timescale_at))]
fn timescale_at(bytes: &[u8]) -> Result<(u32, &[u8]), Refused<TimesWhy>>
    ensures gives { Gives (λ x. (x.0, x.1.now)) result (timescale_by bytes.now) }
    ensures some { IfOk result (λ x. 1 ≤ x.0) }
{
    let (timescale, rest) = u32_at(bytes, 0, TimesWhy::Length)?;
    if timescale == 0 {
        return Err(Refused {
            at: 0,
            why: TimesWhy::TimescaleZero,
        });
    }
    Ok((timescale, rest))
}

/// A timescale where the flag is set, and what follows it.
fn timescale_if(flag: bool, bytes: &[u8]) -> Result<(Option<u32>, &[u8]), Refused<TimesWhy>>
    ensures gives { Gives (λ x. (x.0, x.1.now)) result (optional_at flag timescale_by bytes.now) }
    ensures some { IfOk result (λ x. IfSome x.0 (λ n. 1 ≤ n)) }
{
    if !flag {
        return Ok((None, bytes));
    }
    let (timescale, rest) = timescale_at(bytes)?;
    Ok((Some(timescale), rest))
}

/// A default pts_offset where the type has one, and what follows it.
fn default_if(flag: bool, bytes: &[u8]) -> Result<(Option<u16>, &[u8]), Refused<TimesWhy>>
    ensures { Gives (λ x. (x.0, x.1.now)) result (optional_at flag offset_by bytes.now) }
{
    if !flag {
        return Ok((None, bytes));
    }
    let (default, rest) = offset_at(bytes)?;
    Ok((Some(default), rest))
}

#[tactic(auto, unfolding(crate::specs::ExtendedReading::extended_of, mmt_fields::specs::Items::items_of))]
fn extended_from(bytes: &[u8]) -> Result<Extended<'_>, Refused<TimesWhy>>
    ensures gives { Gives view_extended result (extended_by bytes.now) }
    ensures some { IfOk result (λ x. IfSome x.timescale (λ n. 1 ≤ n)) }
{
    let (flags, rest) = u8_at(bytes, 0, TimesWhy::Length)?;
    let kind = flags >> 1 & 0b11;
    if kind > 2 {
        return Err(Refused {
            at: 0,
            why: TimesWhy::OffsetType,
        });
    }
    let (timescale, rest) = timescale_if(flags & 1 == 1, rest)?;
    let (default, mpus) = default_if(kind == 1, rest)?;
    check_mpus(kind == 2, mpus)?;
    Ok(Extended {
        flags,
        timescale,
        default,
        mpus,
    })
}

/// The content that the bytes are, or the first check that they fail.
pub(crate) fn extended_of(bytes: &[u8]) -> Result<Extended<'_>, Refused<TimesWhy>>
    // What is read is spelled so.
    ensures found { IfOk result (λ x. ExtendedFits (view_extended x) × (bytes.now ≡ extended_bytes (view_extended x))) }
    // What is spelled so is read.
    ensures only { (v : ExtendedValue) → ExtendedFits v → bytes.now ≡ extended_bytes v → Gives view_extended result (Ok v) }
    // Which refusal it is.
    ensures exact { Gives view_extended result (extended_by bytes.now) }
    // A timescale is at least 1.
    ensures some { IfOk result (λ x. IfSome x.timescale (λ n. 1 ≤ n)) }
{
    extended_from(bytes)
}

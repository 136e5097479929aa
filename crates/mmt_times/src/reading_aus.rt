//! Reading the offsets of access units.

ghost use Rattle.std.specs.Prelude.{◌≡◌, ◌+◌, ◌-◌, ◌≤◌, [], ◌∷◌, length, IfOk, IfSome, MatchOption};
ghost use Rattle.mmt_fields.specs.Reading.{Gives};
ghost use Rattle.mmt_times.specs.AuReading.{au_at as au_by, offset_at as offset_by, aus_from};
ghost use Rattle.mmt_times.specs.AuView.{view_au};

use crate::au_offsets::AuOffsets;
use crate::times_why::TimesWhy;
use mmt_base::Refused;
use mmt_fields::u16_at;

/// A number of 16 bits, and what follows it.
#[tactic(auto, unfolding(crate::specs::AuReading::offset_at))]
pub(crate) fn offset_at(bytes: &[u8]) -> Result<(u16, &[u8]), Refused<TimesWhy>>
    ensures gives { Gives (λ x. (x.0, x.1.now)) result (offset_by bytes.now) }
    ensures len { IfOk result (λ x. length x.1.now + 2 ≡ length bytes.now) }
{
    u16_at(bytes, 0, TimesWhy::Length)
}

/// The offsets of an access unit, the second where each has its own, and what follows them.
#[tactic(auto, unfolding(crate::specs::AuReading::au_at))]
fn au_at(each: bool, bytes: &[u8]) -> Result<(AuOffsets, &[u8]), Refused<TimesWhy>>
    ensures gives { Gives (λ x. (view_au x.0, x.1.now)) result (au_by each 0 bytes.now) }
{
    let (dts_pts, rest) = offset_at(bytes)?;
    if !each {
        return Ok((AuOffsets { dts_pts, pts: None }, rest));
    }
    let (pts, rest) = offset_at(rest)?;
    Ok((
        AuOffsets {
            dts_pts,
            pts: Some(pts),
        },
        rest,
    ))
}

/// The first of so many access units' offsets that the bytes have left, and what follows it.
pub(crate) fn first_au(each: bool, left: u8, bytes: &[u8]) -> Option<(AuOffsets, &[u8])>
    ensures first { MatchOption result (aus_from each left bytes.now ≡ [])
        (λ x. aus_from each left bytes.now ≡ view_au x.0 ∷ aus_from each (left - 1) x.1.now) }
    ensures some { IfSome result (λ _. 1 ≤ left) }
{
    if left == 0 {
        return None;
    }
    match au_at(each, bytes) {
        Ok(found) => Some(found),
        Err(_) => None,
    }
}

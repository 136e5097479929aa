//! Reading the content of an MPU timestamp descriptor.

ghost use Rattle.std.specs.Prelude.{◌≡◌, List, [], ◌∷◌, IfOk, Ok, MatchOption};
ghost use Rattle.mmt_fields.specs.Reading.{Gives};
ghost use Rattle.mmt_times.specs.Stamps.{PairValue, StampsFit, stamps_bytes, pair_at as pair_by, stamps_of as stamps_by, pairs_from};
ghost use Rattle.mmt_times.specs.ContentView.{view_pair};

use crate::pair::Pair;
use crate::times_why::TimesWhy;
use mmt_base::{Ntp, Refused};
use mmt_fields::{u32_at, u64_at};

/// A pair, and what follows it.
#[tactic(auto, unfolding(crate::specs::Stamps::pair_at))]
fn pair_at(bytes: &[u8]) -> Result<(Pair, &[u8]), Refused<TimesWhy>>
    ensures { Gives (λ x. (view_pair x.0, x.1.now)) result (pair_by 0 bytes.now) }
{
    let (mpu, rest) = u32_at(bytes, 0, TimesWhy::Length)?;
    let (time, rest) = u64_at(rest, 0, TimesWhy::Length)?;
    let time = Ntp(time);
    Ok((Pair { mpu, time }, rest))
}

/// The first of the pairs that are left, and the bytes after it.
pub(crate) fn first_pair(bytes: &[u8]) -> Option<(Pair, &[u8])>
    ensures { MatchOption result (pairs_from bytes.now ≡ [])
        (λ x. pairs_from bytes.now ≡ view_pair x.0 ∷ pairs_from x.1.now) }
{
    match pair_at(bytes) {
        Ok(found) => Some(found),
        Err(_) => None,
    }
}

#[tactic(auto, using(crate::proofs::Readers::pairs_whole), unfolding(crate::specs::Stamps::stamps_of, mmt_fields::specs::Items::items_of))]
fn stamps_from(bytes: &[u8]) -> Result<&[u8], Refused<TimesWhy>>
    ensures { Gives (λ pairs. pairs_from pairs.now) result (stamps_by bytes.now) }
{
    if bytes.len() % 12 != 0 {
        return Err(Refused {
            at: 0,
            why: TimesWhy::Length,
        });
    }
    Ok(bytes)
}

/// The bytes of the pairs that a content is, or the refusal where they are none.
pub(crate) fn stamps_of(bytes: &[u8]) -> Result<&[u8], Refused<TimesWhy>>
    // What is read is spelled so.
    ensures found { IfOk result (λ pairs. StampsFit (pairs_from pairs.now) × (bytes.now ≡ stamps_bytes (pairs_from pairs.now))) }
    // What is spelled so is read.
    ensures only { (v : List PairValue) → StampsFit v → bytes.now ≡ stamps_bytes v → Gives (λ pairs. pairs_from pairs.now) result (Ok v) }
    // Which refusal it is.
    ensures exact { Gives (λ pairs. pairs_from pairs.now) result (stamps_by bytes.now) }
{
    stamps_from(bytes)
}

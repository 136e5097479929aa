//! The contents of timestamp descriptors that are not refused, and the refusals of the others.

ghost use Rattle.std.specs.Prelude.{◌≡◌, ◌≤◌, [], ◌∷◌, MatchOption};
ghost use Rattle.mmt_mpt.specs.DescriptorView.{view_descriptor};
ghost use Rattle.mmt_times.specs.Times.{pts_or as pts_by};
ghost use Rattle.mmt_times.specs.Stamps.{pairs_from};
ghost use Rattle.mmt_times.specs.NamesOf.{refusal_of as refusal_by, pairs_of as pairs_by, timescale_or as timescale_by, extended_entries};
ghost use Rattle.mmt_times.specs.CandidateView.{view_candidate, content_left};
ghost use Rattle.mmt_times.specs.RefusedName.{refused_name};

use crate::candidate::{Candidate, Content};
use crate::reading_extended::{extended_of, first_mpu};
use crate::reading_stamps::stamps_of;
use crate::times_why::TimesWhy;
use mmt_base::Refused;
use mmt_mpt::Descriptor;

/// The tag of an MPU timestamp descriptor (ARIB STD-B60).
const STAMPS: u16 = 0x0001;

/// The tag of an MPU extended timestamp descriptor, which is this project's own.
const EXTENDED: u16 = 0x8026;

/// The refusal of a timestamp descriptor of either kind.
pub(crate) fn refusal_of(descriptor: &Descriptor<'_>) -> Option<Refused<TimesWhy>>
    ensures { MatchOption result (refusal_by (view_descriptor descriptor.now) ≡ []) (λ r. refusal_by (view_descriptor descriptor.now) ≡ refused_name r ∷ []) }
{
    let refused = if descriptor.tag == STAMPS {
        stamps_of(descriptor.bytes).err()?
    } else if descriptor.tag == EXTENDED {
        extended_of(descriptor.bytes).err()?
    } else {
        return None;
    };
    Some(Refused {
        at: descriptor.from,
        why: refused.why,
    })
}

/// The bytes of no pairs.
#[tactic(auto, unfolding(mmt_fields::specs::Items::walk))]
pub(crate) fn no_pairs() -> &'static [u8]
    ensures { pairs_from result.now ≡ [] }
{
    &[]
}

/// The bytes of a descriptor's pairs: none where it is refused, or no MPU timestamp descriptor.
pub(crate) fn pairs_of<'a>(descriptor: &Descriptor<'a>) -> &'a [u8]
    ensures { pairs_from result.now ≡ pairs_by (view_descriptor descriptor.now) }
{
    if descriptor.tag != STAMPS {
        return no_pairs();
    }
    match stamps_of(descriptor.bytes) {
        Ok(pairs) => pairs,
        Err(_) => no_pairs(),
    }
}

/// The timescale of a content, or else the configured one.
fn timescale_or(configured: u32, timescale: Option<u32>) -> u32
    ensures { result ≡ timescale_by configured timescale }
{
    match timescale {
        Some(timescale) => timescale,
        None => configured,
    }
}

/// A default pts_offset, or else 0.
fn default_or_zero(default: Option<u16>) -> u16
    ensures { result ≡ pts_by 0 default }
{
    match default {
        Some(default) => default,
        None => 0,
    }
}

/// A content without entries.
#[tactic(auto, unfolding(mmt_fields::specs::Items::walk))]
pub(crate) fn no_content<'a>(configured: u32) -> Content<'a>
    requires { 1 ≤ configured }
    ensures { content_left result ≡ [] }
{
    Content {
        at: 0,
        timescale: configured,
        default: 0,
        each: false,
        rest: &[],
    }
}

/// A descriptor's content: one without entries where it is refused, or no extended timestamp
/// descriptor.
pub(crate) fn content_of<'a>(configured: u32, descriptor: &Descriptor<'a>) -> Content<'a>
    requires { 1 ≤ configured }
    ensures { content_left result ≡ extended_entries configured (view_descriptor descriptor.now) }
{
    if descriptor.tag != EXTENDED {
        return no_content(configured);
    }
    match extended_of(descriptor.bytes) {
        Ok(content) => Content {
            at: descriptor.from,
            timescale: timescale_or(configured, content.timescale),
            default: default_or_zero(content.default),
            each: content.flags >> 1 & 0b11 == 2,
            rest: content.mpus,
        },
        Err(_) => no_content(configured),
    }
}

/// The first entry that a content has left, and the content after it.
pub(crate) fn first_candidate<'a>(content: &Content<'a>) -> Option<(Candidate<'a>, Content<'a>)>
    ensures { MatchOption result (content_left content.now ≡ [])
        (λ x. content_left content.now ≡ view_candidate x.0 ∷ content_left x.1) }
{
    let (mpu, rest) = first_mpu(content.each, content.rest)?;
    let candidate = Candidate {
        at: content.at,
        timescale: content.timescale,
        default: content.default,
        each: content.each,
        mpu,
    };
    let after = Content {
        at: content.at,
        timescale: content.timescale,
        default: content.default,
        each: content.each,
        rest,
    };
    Some((candidate, after))
}

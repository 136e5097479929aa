//! Reading descriptors.

ghost use Rattle.std.specs.Prelude.{◌≡◌, ◌+◌, ◌-◌, ◌<◌, ◌≤◌, ◌^◌, List, [], ◌∷◌, length, IfOk, IfErr, IfSome, Ok, Some, None, MatchResult, MatchOption};
ghost use Rattle.std.specs.Int.{w8, w16, byte_len};
ghost use Rattle.mmt_fields.specs.Reading.{Gives, number_at};
ghost use Rattle.mmt_fields.specs.Items.{all_items};
ghost use Rattle.std.specs.List.{flat_map};
ghost use Rattle.mmt_mpt.specs.Descriptor.{length_width as width_of, descriptor_bytes};
ghost use Rattle.mmt_mpt.specs.DescriptorReading.{descriptor_at as descriptor_by, descriptors_at as descriptors_by, descriptors_from};
ghost use Rattle.mmt_mpt.specs.DescriptorView.{view_descriptor, value_of};

use crate::descriptor::Descriptor;
use crate::part_why::PartWhy;
use mmt_base::Refused;
use mmt_fields::{bytes_at, u8_at, u16_at, u32_at};

/// A length of 8 bits, and what follows it.
fn short_length(at: u32, bytes: &[u8]) -> Result<(u32, &[u8]), Refused<PartWhy>>
    ensures gives { Gives (λ x. (x.0, x.1.now)) result (number_at w8 bytes.now at PartWhy.Short) }
    ensures len { IfOk result (λ x. length x.1.now + 1 ≡ length bytes.now) }
    ensures place { IfErr result (λ e. e.at ≡ at) }
{
    let (len, rest) = u8_at(bytes, at, PartWhy::Short)?;
    Ok((len as u32, rest))
}

/// A length of 16 bits, and what follows it.
fn middle_length(at: u32, bytes: &[u8]) -> Result<(u32, &[u8]), Refused<PartWhy>>
    ensures gives { Gives (λ x. (x.0, x.1.now)) result (number_at w16 bytes.now at PartWhy.Short) }
    ensures len { IfOk result (λ x. length x.1.now + 2 ≡ length bytes.now) }
    ensures place { IfErr result (λ e. e.at ≡ at) }
{
    let (len, rest) = u16_at(bytes, at, PartWhy::Short)?;
    Ok((len as u32, rest))
}

/// The length of a descriptor, in the width of its tag, and what follows it.
#[tactic(auto, unfolding(crate::specs::Descriptor::length_width))]
fn length_at(tag: u16, at: u32, bytes: &[u8]) -> Result<(u32, &[u8]), Refused<PartWhy>>
    ensures gives { Gives (λ x. (x.0, x.1.now)) result (number_at (width_of tag) bytes.now at PartWhy.Short) }
    ensures len { IfOk result (λ x. length x.1.now + byte_len (width_of tag) ≡ length bytes.now) }
    ensures place { IfErr result (λ e. e.at ≡ at) }
{
    if tag < 0x4000 {
        short_length(at, bytes)
    } else if tag < 0x7000 {
        middle_length(at, bytes)
    } else if tag < 0x8000 {
        u32_at(bytes, at, PartWhy::Short)
    } else if tag < 0xF000 {
        short_length(at, bytes)
    } else {
        middle_length(at, bytes)
    }
}

/// A descriptor, and what follows it.
#[tactic(auto, unfolding(crate::specs::DescriptorReading::descriptor_at))]
fn descriptor_at(at: u32, bytes: &[u8]) -> Result<(Descriptor<'_>, &[u8]), Refused<PartWhy>>
    requires { at + length bytes.now < 2 ^ 31 }
    ensures gives { Gives (λ x. (value_of x.0, x.1.now)) result (descriptor_by at bytes.now) }
    ensures from { IfOk result (λ x. x.0.from ≡ at + 2 + byte_len (width_of x.0.tag)) }
    ensures shorter { IfOk result (λ x. length x.1.now < length bytes.now) }
    ensures place { IfErr result (λ e. e.at ≤ at + length bytes.now) }
{
    let (tag, rest) = u16_at(bytes, at, PartWhy::Short)?;
    let (len, rest) = length_at(tag, at + 2, rest)?;
    let from = at + (bytes.len() - rest.len()) as u32;
    let (bytes, rest) = bytes_at(rest, len as usize, from, PartWhy::Short)?;
    Ok((Descriptor { tag, from, bytes }, rest))
}

/// Goes over descriptors up to the end of the bytes.
#[tactic(auto, using(crate::proofs::DescriptorSteps::stop_here, crate::proofs::DescriptorSteps::stop_none))]
fn check_descriptors(from: u32, bytes: &[u8]) -> Result<(), Refused<PartWhy>>
    requires { from + length bytes.now < 2 ^ 31 }
    ensures walk { MatchResult result (λ _. (all_items descriptor_by from bytes.now).stop ≡ None) (λ e. (all_items descriptor_by from bytes.now).stop ≡ Some e) }
    ensures place { IfErr result (λ e. e.at ≤ from + length bytes.now) }
{
    let mut at = from;
    let mut rest = bytes;
    while !rest.is_empty() {
        let (_, after) = descriptor_at(at, rest)?;
        at += (rest.len() - after.len()) as u32;
        rest = after;
    }
    Ok(())
}

/// The bytes of descriptors after their length, and what follows them.
#[tactic(auto, using(crate::proofs::DescriptorSteps::all_long), unfolding(crate::specs::DescriptorReading::descriptors_at, mmt_fields::specs::Items::items_of))]
pub(crate) fn descriptors_at(at: u32, bytes: &[u8]) -> Result<(&[u8], &[u8]), Refused<PartWhy>>
    requires { at + length bytes.now < 2 ^ 31 }
    ensures gives { Gives (λ x. ((all_items descriptor_by (at + 2) x.0.now).items, x.1.now)) result (descriptors_by at bytes.now) }
    ensures len { IfOk result (λ x. length x.0.now + length x.1.now + 2 ≡ length bytes.now) }
    ensures whole { IfOk result (λ x. length (flat_map descriptor_bytes (all_items descriptor_by (at + 2) x.0.now).items) ≡ length x.0.now) }
    ensures place { IfErr result (λ e. e.at ≤ at + length bytes.now) }
{
    let (len, rest) = u16_at(bytes, at, PartWhy::Short)?;
    let (inner, rest) = bytes_at(rest, len as usize, at + 2, PartWhy::Short)?;
    check_descriptors(at + 2, inner)?;
    Ok((inner, rest))
}

/// The first of the descriptors that are left, and the bytes after it.
#[tactic(auto, using(crate::proofs::DescriptorSteps::descriptors_none))]
pub(crate) fn first_descriptor(at: u32, bytes: &[u8]) -> Option<(Descriptor<'_>, &[u8])>
    requires { at + length bytes.now < 2 ^ 31 }
    ensures first { MatchOption result (descriptors_from at bytes.now ≡ [])
        (λ x. descriptors_from at bytes.now ≡ view_descriptor x.0 ∷ descriptors_from (at + (length bytes.now - length x.1.now)) x.1.now) }
    ensures end { IfSome result (λ x. length x.1.now ≤ length bytes.now) }
{
    match descriptor_at(at, bytes) {
        Ok(found) => Some(found),
        Err(_) => None,
    }
}

//! Writing descriptors.

ghost use Rattle.std.specs.Prelude.{◌≡◌, ◌+◌, ◌<◌, ◌≤◌, ◌++◌, length, map, vec_len, vec_capacity};
ghost use Rattle.std.specs.List.{flat_map, All};
ghost use Rattle.std.specs.Int.{byte_len};
ghost use Rattle.mmt_fields.specs.Reading.{big_endian};
ghost use Rattle.mmt_mpt.specs.Descriptor.{length_width as width_of, length_limit, descriptor_bytes, descriptors_bytes, DescriptorFits};
ghost use Rattle.mmt_mpt.specs.Asset.{DescriptorsFit};
ghost use Rattle.mmt_mpt.specs.Owned.{owned_descriptor};

use crate::owned::OwnedDescriptor;
use mmt_fields::{put_bytes, put_u8, put_u16, put_u32};

/// How many bytes a descriptor's length takes, by its tag.
#[tactic(auto, unfolding(crate::specs::Descriptor::length_width))]
fn length_width(tag: u16) -> u64
    ensures { result ≡ byte_len (width_of tag) }
{
    if tag < 0x4000 {
        1
    } else if tag < 0x7000 {
        2
    } else if tag < 0x8000 {
        4
    } else if tag < 0xF000 {
        1
    } else {
        2
    }
}

/// Appends a descriptor's length in the width of its tag.
#[tactic(auto, unfolding(crate::specs::Descriptor::length_width, crate::specs::Descriptor::length_limit))]
fn put_length(out: &mut Vec<u8>, tag: u16, len: usize)
    requires fits { len < length_limit tag }
    requires room { vec_len out.old + byte_len (width_of tag) ≤ vec_capacity out.old }
    ensures items { out.new.items ≡ out.old.items ++ big_endian (width_of tag) len }
    ensures len { vec_len out.new ≡ vec_len out.old + byte_len (width_of tag) }
    ensures capacity { vec_capacity out.old ≤ vec_capacity out.new }
{
    if tag < 0x4000 {
        put_u8(out, len as u8);
    } else if tag < 0x7000 {
        put_u16(out, len as u16);
    } else if tag < 0x8000 {
        put_u32(out, len as u32);
    } else if tag < 0xF000 {
        put_u8(out, len as u8);
    } else {
        put_u16(out, len as u16);
    }
}

/// How many bytes a descriptor takes.
#[tactic(auto, using(crate::proofs::Sizes::descriptor_long))]
fn descriptor_size(descriptor: &OwnedDescriptor) -> u64
    requires { length (descriptor_bytes (owned_descriptor descriptor.now)) < 65536 }
    ensures { result ≡ length (descriptor_bytes (owned_descriptor descriptor.now)) }
{
    2 + length_width(descriptor.tag) + descriptor.bytes.len() as u64
}

/// Appends a descriptor where there is room for it.
#[tactic(auto, using(std::proofs::Common::append_assoc, crate::proofs::Sizes::descriptor_long), unfolding(crate::specs::Descriptor::descriptor_bytes))]
fn put_descriptor(out: &mut Vec<u8>, descriptor: &OwnedDescriptor)
    requires fits { DescriptorFits (owned_descriptor descriptor.now) }
    requires room { vec_len out.old + length (descriptor_bytes (owned_descriptor descriptor.now)) ≤ vec_capacity out.old }
    ensures items { out.new.items ≡ out.old.items ++ descriptor_bytes (owned_descriptor descriptor.now) }
    ensures len { vec_len out.new ≡ vec_len out.old + length (descriptor_bytes (owned_descriptor descriptor.now)) }
    ensures capacity { vec_capacity out.old ≤ vec_capacity out.new }
{
    put_u16(out, descriptor.tag);
    put_length(out, descriptor.tag, descriptor.bytes.len());
    put_bytes(out, descriptor.bytes.as_slice());
}

/// How many bytes descriptors take, without their length.
#[tactic(auto, using(crate::proofs::Sizes::left_long))]
pub(crate) fn descriptors_size(descriptors: &[OwnedDescriptor]) -> u64
    requires { length (flat_map descriptor_bytes (map owned_descriptor descriptors.now)) < 65536 }
    ensures { result ≡ length (flat_map descriptor_bytes (map owned_descriptor descriptors.now)) }
{
    let mut size = 0;
    for descriptor in descriptors {
        size += descriptor_size(descriptor);
    }
    size
}

/// Appends descriptors where there is room for them.
#[tactic(auto, using(crate::proofs::Sizes::left_long))]
fn put_each(out: &mut Vec<u8>, descriptors: &[OwnedDescriptor])
    requires fit { All DescriptorFits (map owned_descriptor descriptors.now) }
    requires room { vec_len out.old + length (flat_map descriptor_bytes (map owned_descriptor descriptors.now)) ≤ vec_capacity out.old }
    ensures items { out.new.items ≡ out.old.items ++ flat_map descriptor_bytes (map owned_descriptor descriptors.now) }
    ensures len { vec_len out.new ≡ vec_len out.old + length (flat_map descriptor_bytes (map owned_descriptor descriptors.now)) }
    ensures capacity { vec_capacity out.old ≤ vec_capacity out.new }
{
    for descriptor in descriptors {
        put_descriptor(out, descriptor);
    }
}

/// Appends descriptors after their length in bytes, where there is room for both.
#[tactic(auto, using(std::proofs::Common::append_assoc), unfolding(crate::specs::Descriptor::descriptors_bytes))]
pub(crate) fn put_descriptors(out: &mut Vec<u8>, descriptors: &[OwnedDescriptor])
    requires fit { DescriptorsFit (map owned_descriptor descriptors.now) }
    requires room { vec_len out.old + 2 + length (flat_map descriptor_bytes (map owned_descriptor descriptors.now)) ≤ vec_capacity out.old }
    ensures items { out.new.items ≡ out.old.items ++ descriptors_bytes (map owned_descriptor descriptors.now) }
    ensures len { vec_len out.new ≡ vec_len out.old + 2 + length (flat_map descriptor_bytes (map owned_descriptor descriptors.now)) }
    ensures capacity { vec_capacity out.old ≤ vec_capacity out.new }
{
    put_u16(out, descriptors_size(descriptors) as u16);
    put_each(out, descriptors);
}

//! Writing a packet, field by field into room that was reserved first.

ghost use Rattle.std.specs.Prelude.{◌≡◌, ◌+◌, ◌*◌, ◌<◌, ◌≤◌, ◌^◌, ◌++◌, length, vec_len, vec_capacity, IfSome, OnOk, OnErr};
ghost use Rattle.std.specs.Option.{is_some};
ghost use Rattle.std.specs.Int.{w32, from_bool};
ghost use Rattle.mmt_fields.specs.Reading.{big_endian, optional};
ghost use Rattle.mmt_packet.specs.Spelling.{CanSpell, Fits, view, view_option, spelling, first_byte as byte_one, second_byte as byte_two, extension as extension_bytes, extension_length as length_of, head_length as head_of, code_of as number_of};

use crate::packet::{Extension, Kind, Packet};
use mmt_base::OutOfMemory;
use mmt_fields::{put_bytes, put_u8, put_u16, put_u32};

/// The type field of a kind.
fn code_of(kind: Kind) -> u8
    ensures { result ≡ number_of kind }
{
    match kind {
        Kind::Mpu => 0,
        Kind::Generic => 1,
        Kind::Signalling => 2,
    }
}

/// The byte of version, flags, FEC type and the first reserved bit.
fn first_byte(packet: &Packet<'_>) -> u8
    requires { packet.now.reserved < 8 }
    ensures { result ≡ byte_one (view packet.now) }
{
    32 * u8::from(packet.counter.is_some())
        + 4 * (packet.reserved / 4)
        + 2 * u8::from(packet.extension.is_some())
        + u8::from(packet.rap)
}

/// The byte of the two other reserved bits and the type.
fn second_byte(packet: &Packet<'_>) -> u8
    ensures { result ≡ byte_two (view packet.now) }
{
    64 * (packet.reserved % 4) + code_of(packet.kind)
}

/// How many bytes the extension takes, its type and length included.
fn extension_length(extension: &Option<Extension<'_>>) -> u32
    requires { IfSome extension.now (λ e. length e.bytes.now < 2 ^ 16) }
    ensures { result ≡ length_of (view_option extension.now) }
{
    match extension {
        None => 0,
        Some(extension) => 4 + extension.bytes.len() as u32,
    }
}

/// How many bytes the packet counter takes.
fn counter_length(counter: Option<u32>) -> u32
    ensures { result ≡ 4 * from_bool (is_some counter) }
{
    if counter.is_some() { 4 } else { 0 }
}

/// How many bytes stand before the payload.
fn head_length(packet: &Packet<'_>) -> u32
    requires { IfSome packet.now.extension (λ e. length e.bytes.now < 2 ^ 16) }
    ensures { result ≡ head_of (view packet.now) }
{
    12 + counter_length(packet.counter) + extension_length(&packet.extension)
}

/// How many bytes of the written packet come before its payload. The extension has at most 65,535
/// bytes.
#[tactic(auto, using(crate::proofs::Lengths::length_spelling))]
pub fn header_length(packet: &Packet<'_>) -> u32
    requires { IfSome packet.now.extension (λ e. length e.bytes.now < 2 ^ 16) }
    ensures { result + length packet.now.payload.now ≡ length (spelling (view packet.now)) }
{
    head_length(packet)
}

/// Appends the packet counter, where there is one.
fn put_counter(out: &mut Vec<u8>, counter: Option<u32>)
    requires { vec_len out.old + 4 * from_bool (is_some counter) ≤ vec_capacity out.old }
    ensures items { out.new.items ≡ out.old.items ++ optional (big_endian w32) counter }
    ensures fits { IfSome counter (λ n. n < 2 ^ 32) }
    ensures len { vec_len out.new ≡ vec_len out.old + 4 * from_bool (is_some counter) }
    ensures capacity { vec_capacity out.old ≤ vec_capacity out.new }
{
    if let Some(counter) = counter {
        put_u32(out, counter);
    }
}

/// Appends the extension, where there is one.
#[tactic(auto, using(std::proofs::Common::append_assoc), unfolding(crate::specs::Spelling::extension))]
fn put_extension(out: &mut Vec<u8>, extension: &Option<Extension<'_>>)
    requires fits { IfSome extension.now (λ e. length e.bytes.now < 2 ^ 16) }
    requires room { vec_len out.old + length_of (view_option extension.now) ≤ vec_capacity out.old }
    ensures items { out.new.items ≡ out.old.items ++ optional extension_bytes (view_option extension.now) }
    ensures kind { IfSome (view_option extension.now) (λ e. e.kind < 2 ^ 16) }
    ensures len { vec_len out.new ≡ vec_len out.old + length_of (view_option extension.now) }
    ensures capacity { vec_capacity out.old ≤ vec_capacity out.new }
{
    if let Some(extension) = extension {
        put_u16(out, extension.kind);
        put_u16(out, extension.bytes.len() as u16);
        put_bytes(out, extension.bytes);
    }
}

/// Appends the packet (ISO/IEC 23008-1, the MMTP packet header). `reserved` is below 8, and the
/// extension has at most 65,535 bytes and does not say that the payload is scrambled.
///
/// # Errors
///
/// `OutOfMemory`, which leaves `out` as it was.
#[tactic(auto, using(std::proofs::Common::append_assoc), unfolding(crate::specs::Spelling::spelling))]
pub fn write_packet(out: &mut Vec<u8>, packet: &Packet<'_>) -> Result<(), OutOfMemory>
    requires { CanSpell (view packet.now) }
    // What is appended.
    ensures ok { OnOk result (out.new.items ≡ out.old.items ++ spelling (view packet.now)) }
    // What is appended is read back.
    ensures fits { OnOk result (Fits (view packet.now)) }
    // What a refusal leaves.
    ensures err { OnErr result (out.new.items ≡ out.old.items) }
{
    out.reserve(head_length(packet) as usize + packet.payload.len())?;
    put_u8(out, first_byte(packet));
    put_u8(out, second_byte(packet));
    put_u16(out, packet.packet_id);
    put_u32(out, packet.time.0);
    put_u32(out, packet.number);
    put_counter(out, packet.counter);
    put_extension(out, &packet.extension);
    put_bytes(out, packet.payload);
    Ok(())
}

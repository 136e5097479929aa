//! Reading a packet, field by field. A reader gives its field and the bytes after it.

ghost use Rattle.std.specs.Prelude.{◌≡◌, ◌+◌, ◌<◌, ◌≤◌, ◌^◌, length, IfOk, IfErr, Ok, if◌then◌else◌};
ghost use Rattle.mmt_fields.specs.Reading.{Gives, optional_at};
ghost use Rattle.mmt_packet.specs.Spelling.{Value, Fits, view, view_option, view_extension, spelling, is_scrambled as says_scrambled, two_bytes};
ghost use Rattle.mmt_packet.specs.Reading.{packet_of, extension_at, extension_place as place_of, kind_of as kind_by, counter_at as number_after};

use crate::packet::{Extension, Kind, Packet, PacketWhy};
use byteorder::{BigEndian, ByteOrder};
use mmt_base::{Refused, Tick};
use mmt_fields::{bytes_at, check, u8_at, u16_at, u32_at};

/// The packet counter, where it is there.
fn counter_at(stands: bool, bytes: &[u8]) -> Result<(Option<u32>, &[u8]), Refused<PacketWhy>>
    ensures gives { Gives (λ x. (x.0, x.1.now)) result (optional_at stands number_after bytes.now) }
    ensures len { IfOk result (λ x. 12 + length bytes.now ≡ (if stands then 16 else 12) + length x.1.now) }
    ensures place { IfErr result (λ e. e.at ≤ 12 + length bytes.now) }
{
    if !stands {
        return Ok((None, bytes));
    }
    let (counter, rest) = u32_at(bytes, 12, PacketWhy::Short)?;
    Ok((Some(counter), rest))
}

/// The 16-bit number at a place.
fn word_at(bytes: &[u8], at: usize) -> u16
    requires { at + 2 ≤ length bytes.now }
    ensures { result ≡ two_bytes bytes.now at }
{
    BigEndian::read_u16(&bytes[at..])
}

/// Whether the extension says that the payload is scrambled.
#[tactic(auto, unfolding(crate::specs::Spelling::is_scrambled))]
fn is_scrambled(extension: &Extension<'_>) -> bool
    ensures { result ≡ says_scrambled (view_extension extension.now) }
{
    let bytes = extension.bytes;
    extension.kind == 0
        && 5 <= bytes.len()
        && word_at(bytes, 0) % (1 << 15) == 1
        && 1 <= word_at(bytes, 2)
        && bytes[4] >> 3 & 0b11 != 0
}

/// The extension at a place.
#[tactic(auto, unfolding(crate::specs::Reading::extension_at))]
fn one_extension(at: u32, bytes: &[u8]) -> Result<(Extension<'_>, &[u8]), Refused<PacketWhy>>
    requires { at < 2 ^ 31 }
    ensures gives { Gives (λ x. (view_extension x.0, x.1.now)) result (extension_at at bytes.now) }
    ensures len { IfOk result (λ x. length x.1.now ≤ length bytes.now) }
    ensures place { IfErr result (λ e. e.at ≤ at + length bytes.now) }
{
    let (kind, rest) = u16_at(bytes, at, PacketWhy::Short)?;
    let (len, rest) = u16_at(rest, at + 2, PacketWhy::Short)?;
    let (bytes, rest) = bytes_at(rest, len as usize, at + 4, PacketWhy::Short)?;
    let extension = Extension { kind, bytes };
    check(!is_scrambled(&extension), at + 4, PacketWhy::Scrambled)?;
    Ok((extension, rest))
}

/// The extension at a place, where it is there.
fn optional_extension(
    stands: bool,
    at: u32,
    bytes: &[u8],
) -> Result<(Option<Extension<'_>>, &[u8]), Refused<PacketWhy>>
    requires { at < 2 ^ 31 }
    ensures gives { Gives (λ x. (view_option x.0, x.1.now)) result (optional_at stands (extension_at at) bytes.now) }
    ensures len { IfOk result (λ x. length x.1.now ≤ length bytes.now) }
    ensures place { IfErr result (λ e. e.at ≤ at + length bytes.now) }
{
    if !stands {
        return Ok((None, bytes));
    }
    let (extension, rest) = one_extension(at, bytes)?;
    Ok((Some(extension), rest))
}

/// The kind of a type below 3.
fn kind_of(code: u8) -> Kind
    ensures { result ≡ kind_by code }
{
    match code {
        0 => Kind::Mpu,
        1 => Kind::Generic,
        _ => Kind::Signalling,
    }
}

/// The place at which the extension begins.
fn extension_place(has_counter: bool) -> u32
    ensures place { result ≡ place_of has_counter }
    ensures number { result ≡ (if has_counter then 16 else 12) }
{
    if has_counter { 16 } else { 12 }
}

/// The packet that the bytes are, or the first refusal.
#[tactic(auto, unfolding(crate::specs::Reading::packet_of))]
fn packet(bytes: &[u8]) -> Result<Packet<'_>, Refused<PacketWhy>>
    ensures gives { Gives view result (packet_of bytes.now) }
    ensures within { IfOk result (λ p. length p.payload.now ≤ length bytes.now) }
    ensures place { IfErr result (λ e. e.at ≤ length bytes.now) }
{
    let (first, rest) = u8_at(bytes, 0, PacketWhy::Short)?;
    let version = first >> 6;
    check(version == 0, 0, PacketWhy::Version(version))?;
    let fec = first >> 3 & 0b11;
    check(fec == 0, 0, PacketWhy::Fec(fec))?;
    let (second, rest) = u8_at(rest, 1, PacketWhy::Short)?;
    let code = second & 0x3F;
    check(code < 3, 1, PacketWhy::Kind(code))?;
    let (packet_id, rest) = u16_at(rest, 2, PacketWhy::Short)?;
    let (time, rest) = u32_at(rest, 4, PacketWhy::Short)?;
    let (number, rest) = u32_at(rest, 8, PacketWhy::Short)?;
    let has_counter = first >> 5 & 1 == 1;
    let (counter, rest) = counter_at(has_counter, rest)?;
    let place = extension_place(has_counter);
    let (extension, payload) = optional_extension(first >> 1 & 1 == 1, place, rest)?;
    Ok(Packet {
        counter,
        rap: first & 1 == 1,
        reserved: 4 * (first >> 2 & 1) + (second >> 6),
        kind: kind_of(code),
        packet_id,
        time: Tick(time),
        number,
        extension,
        payload,
    })
}

/// The packet that the bytes are, all of them (ISO/IEC 23008-1, the MMTP packet header). It takes no
/// memory, and makes no pass over the payload.
///
/// # Errors
///
/// The first check that the bytes fail, with its place in bytes from their start. The first byte is
/// tried whole, its version before its FEC type, before the second is looked at.
pub fn read_packet(bytes: &[u8]) -> Result<Packet<'_>, Refused<PacketWhy>>
    requires { length bytes.now < 2 ^ 31 }
    // What is read is spelled so.
    ensures found { IfOk result (λ p. Fits (view p) × (bytes.now ≡ spelling (view p))) }
    // What is spelled so is read.
    ensures only { (v : Value) → Fits v → bytes.now ≡ spelling v → Gives view result (Ok v) }
    // Which refusal it is, and where.
    ensures exact { Gives view result (packet_of bytes.now) }
    // The payload lies within the bytes, and so does the place of a refusal, or directly behind them.
    ensures within { IfOk result (λ p. length p.payload.now ≤ length bytes.now) }
    ensures place { IfErr result (λ e. e.at ≤ length bytes.now) }
{
    packet(bytes)
}

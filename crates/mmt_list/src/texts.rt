//! Writers of the small texts of a line, at the end of a vector that has room for them.

ghost use Rattle.std.specs.Prelude.{◌≡◌, ℕ, ◌+◌, ◌*◌, ◌/◌, ◌%◌, ◌^◌, ◌<◌, ◌≤◌, ◌++◌, false, length, decimal, vec_len, vec_capacity};
ghost use Rattle.std.specs.Fmt.{digit_glyph};
ghost use Rattle.std.specs.List.{flat_map};
ghost use Rattle.mmt_ctx.specs.Headers.{view as view_opened};
ghost use Rattle.mmt_packet.specs.Spelling.{view as view_packet, code_of};
ghost use Rattle.mmt_mpu.specs.View.{view as view_payload};
ghost use Rattle.mmt_mpu.specs.Head.{view_unit};
ghost use Rattle.mmt_list.specs.Text.{hex_byte, kind_word, head_text, address_text, end_text, ends_text, header_text, ctx_text, mmtp_text, mpu_text, key_text, unit_text, units_text};

use itoa::Buffer;
use mmt_ctx::Opened;
use mmt_fields::put_bytes;
use mmt_ip::Ip6Header;
use mmt_model::UnitKey;
use mmt_mpu::{DataUnit, MpuPayload};
use mmt_packet::{Kind, Packet};
use mmt_words::put_number;

// A hexadecimal digit.
fn hex_digit(n: u8) -> u8
    requires { n < 16 }
    ensures { result ≡ digit_glyph false n }
{
    if n < 10 { b'0' + n } else { b'a' + (n - 10) }
}

// Appends the two hexadecimal digits of a byte.
fn put_hex(out: &mut Vec<u8>, byte: u8)
    requires { vec_len out.old + 2 ≤ vec_capacity out.old }
    ensures items { out.new.items ≡ out.old.items ++ hex_byte byte }
    ensures len { vec_len out.new ≡ vec_len out.old + 2 }
    ensures capacity { vec_capacity out.old ≤ vec_capacity out.new }
{
    let (high, low) = (hex_digit(byte / 16), hex_digit(byte % 16));
    put_bytes(out, &[high, low]);
}

// Appends the word of a kind.
#[tactic(auto, unfolding(crate::specs::Text::kind_word))]
fn put_kind(out: &mut Vec<u8>, kind: u8)
    requires { vec_len out.old + 8 ≤ vec_capacity out.old }
    ensures items { out.new.items ≡ out.old.items ++ kind_word kind }
    ensures grows { vec_len out.old ≤ vec_len out.new }
    ensures len { vec_len out.new ≤ vec_len out.old + 8 }
    ensures capacity { vec_capacity out.old ≤ vec_capacity out.new }
{
    match kind {
        0x01 => put_bytes(out, b"ip4"),
        0x02 => put_bytes(out, b"ip6"),
        0x03 => put_bytes(out, b"ctx"),
        0xFE => put_bytes(out, b"signal"),
        0xFF => put_bytes(out, b"null"),
        _ => {
            put_bytes(out, b"other-");
            put_hex(out, kind);
        }
    }
}

/// Appends the place, the kind and the length of the body of a packet.
#[tactic(auto, unfolding(crate::specs::Text::head_text))]
pub fn put_head(digits: &mut Buffer, out: &mut Vec<u8>, place: u64, kind: u8, size: usize)
    requires { vec_len out.old + 100 ≤ vec_capacity out.old }
    ensures items { out.new.items ≡ out.old.items ++ head_text place kind size }
    ensures grows { vec_len out.old ≤ vec_len out.new }
    ensures len { vec_len out.new ≤ vec_len out.old + 100 }
    ensures capacity { vec_capacity out.old ≤ vec_capacity out.new }
{
    put_number(digits, out, b"", place);
    put_bytes(out, b" ");
    put_kind(out, kind);
    put_number(digits, out, b" ", size as u64);
}

// Appends the hexadecimal digits of bytes.
fn put_bytes_in_hex(out: &mut Vec<u8>, bytes: &[u8])
    requires { vec_len out.old + 2 * length bytes.now ≤ vec_capacity out.old }
    ensures items { out.new.items ≡ out.old.items ++ flat_map hex_byte bytes.now }
    ensures len { vec_len out.new ≡ vec_len out.old + 2 * length bytes.now }
    ensures capacity { vec_capacity out.old ≤ vec_capacity out.new }
{
    for byte in bytes {
        put_hex(out, *byte);
    }
}

// Appends the hexadecimal digits of an address.
#[tactic(auto, unfolding(crate::specs::Text::address_text, mmt_fields::specs::Reading::big_endian))]
fn put_address(out: &mut Vec<u8>, address: u128)
    requires { vec_len out.old + 32 ≤ vec_capacity out.old }
    ensures items { out.new.items ≡ out.old.items ++ address_text address }
    ensures len { vec_len out.new ≡ vec_len out.old + 32 }
    ensures capacity { vec_capacity out.old ≤ vec_capacity out.new }
{
    put_bytes_in_hex(out, &address.to_be_bytes());
}

// Appends an address and a port.
#[tactic(auto, unfolding(crate::specs::Text::end_text))]
fn put_end(digits: &mut Buffer, out: &mut Vec<u8>, address: u128, port: u16)
    requires { vec_len out.old + 68 ≤ vec_capacity out.old }
    ensures items { out.new.items ≡ out.old.items ++ end_text address port }
    ensures grows { vec_len out.old ≤ vec_len out.new }
    ensures len { vec_len out.new ≤ vec_len out.old + 68 }
    ensures capacity { vec_capacity out.old ≤ vec_capacity out.new }
{
    put_address(out, address);
    put_number(digits, out, b":", port as u64);
}

/// Appends the source and the destination of a packet.
#[tactic(auto, unfolding(crate::specs::Text::ends_text))]
pub fn put_ends(digits: &mut Buffer, out: &mut Vec<u8>, header: &Ip6Header)
    requires { vec_len out.old + 140 ≤ vec_capacity out.old }
    ensures items { out.new.items ≡ out.old.items ++ ends_text header.now }
    ensures grows { vec_len out.old ≤ vec_len out.new }
    ensures len { vec_len out.new ≤ vec_len out.old + 140 }
    ensures capacity { vec_capacity out.old ≤ vec_capacity out.new }
{
    put_end(digits, out, header.source, header.source_port);
    put_bytes(out, b" ");
    put_end(digits, out, header.destination, header.destination_port);
}

// Appends the header that a packet carries, or that it carries none.
#[tactic(auto, unfolding(crate::specs::Text::header_text))]
fn put_header(digits: &mut Buffer, out: &mut Vec<u8>, full: bool, header: &Ip6Header)
    requires { vec_len out.old + 146 ≤ vec_capacity out.old }
    ensures items { out.new.items ≡ out.old.items ++ header_text full header.now }
    ensures grows { vec_len out.old ≤ vec_len out.new }
    ensures len { vec_len out.new ≤ vec_len out.old + 146 }
    ensures capacity { vec_capacity out.old ≤ vec_capacity out.new }
{
    if full {
        put_bytes(out, b" full ");
        put_ends(digits, out, header);
    } else {
        put_bytes(out, b" short");
    }
}

/// Appends the section of a header-compressed packet.
#[tactic(auto, unfolding(crate::specs::Text::ctx_text))]
pub fn put_ctx(digits: &mut Buffer, out: &mut Vec<u8>, packet: &Opened<'_>)
    requires { vec_len out.old + 220 ≤ vec_capacity out.old }
    ensures items { out.new.items ≡ out.old.items ++ ctx_text (view_opened packet.now) }
    ensures grows { vec_len out.old ≤ vec_len out.new }
    ensures len { vec_len out.new ≤ vec_len out.old + 220 }
    ensures capacity { vec_capacity out.old ≤ vec_capacity out.new }
{
    put_number(digits, out, b" | cid ", packet.context as u64);
    put_number(digits, out, b" seq ", packet.number as u64);
    put_header(digits, out, packet.full, &packet.header);
}

// The type of a kind of MMTP packet.
fn type_of(kind: Kind) -> u64
    ensures { result ≡ code_of kind }
{
    match kind {
        Kind::Mpu => 0,
        Kind::Generic => 1,
        Kind::Signalling => 2,
    }
}

/// Appends the section of an MMTP packet.
#[tactic(auto, unfolding(crate::specs::Text::mmtp_text))]
pub fn put_mmtp(digits: &mut Buffer, out: &mut Vec<u8>, packet: &Packet<'_>)
    requires { vec_len out.old + 216 ≤ vec_capacity out.old }
    ensures items { out.new.items ≡ out.old.items ++ mmtp_text (view_packet packet.now) }
    ensures grows { vec_len out.old ≤ vec_len out.new }
    ensures len { vec_len out.new ≤ vec_len out.old + 216 }
    ensures capacity { vec_capacity out.old ≤ vec_capacity out.new }
{
    put_number(digits, out, b" | mmtp id ", packet.packet_id as u64);
    put_number(digits, out, b" type ", type_of(packet.kind));
    put_number(digits, out, b" time ", packet.time.0 as u64);
    put_number(digits, out, b" number ", packet.number as u64);
    put_number(digits, out, b" rap ", u64::from(packet.rap));
    put_number(digits, out, b" payload ", packet.payload.len() as u64);
}

/// Appends the section of an MPU payload up to its units.
#[tactic(auto, unfolding(crate::specs::Text::mpu_text))]
pub fn put_mpu(digits: &mut Buffer, out: &mut Vec<u8>, payload: &MpuPayload<'_>)
    requires { vec_len out.old + 144 ≤ vec_capacity out.old }
    ensures items { out.new.items ≡ out.old.items ++ mpu_text (view_payload payload.now) }
    ensures grows { vec_len out.old ≤ vec_len out.new }
    ensures len { vec_len out.new ≤ vec_len out.old + 144 }
    ensures capacity { vec_capacity out.old ≤ vec_capacity out.new }
{
    let head = payload.head();
    put_number(digits, out, b" | mpu ", head.mpu as u64);
    put_number(digits, out, b" timed ", u64::from(head.timed));
    put_number(digits, out, b" part ", head.part.indicator() as u64);
    put_number(digits, out, b" units ", payload.count() as u64);
}

// Appends the numbers of a unit's key.
#[tactic(auto, unfolding(crate::specs::Text::key_text))]
fn put_key(digits: &mut Buffer, out: &mut Vec<u8>, key: UnitKey)
    requires { vec_len out.old + 108 ≤ vec_capacity out.old }
    ensures items { out.new.items ≡ out.old.items ++ key_text key }
    ensures grows { vec_len out.old ≤ vec_len out.new }
    ensures len { vec_len out.new ≤ vec_len out.old + 108 }
    ensures capacity { vec_capacity out.old ≤ vec_capacity out.new }
{
    match key {
        UnitKey::Timed {
            movie_fragment,
            sample,
            offset,
        } => {
            put_number(digits, out, b" [", movie_fragment as u64);
            put_number(digits, out, b" ", sample as u64);
            put_number(digits, out, b" ", offset as u64);
        }
        UnitKey::Item { item } => put_number(digits, out, b" [", item as u64),
    }
}

/// The room that a unit's text needs at most, in bytes.
pub const UNIT: usize = 160;

// Appends a unit.
#[tactic(auto, unfolding(crate::specs::Text::unit_text))]
fn put_unit(digits: &mut Buffer, out: &mut Vec<u8>, unit: &DataUnit<'_>)
    requires { vec_len out.old + UNIT ≤ vec_capacity out.old }
    ensures items { out.new.items ≡ out.old.items ++ unit_text (view_unit unit.now) }
    ensures grows { vec_len out.old ≤ vec_len out.new }
    ensures len { vec_len out.new ≤ vec_len out.old + UNIT }
    ensures capacity { vec_capacity out.old ≤ vec_capacity out.new }
{
    put_key(digits, out, unit.key);
    put_number(digits, out, b" ", unit.bytes.len() as u64);
    put_bytes(out, b"]");
}

/// Appends the units of a payload.
pub fn put_units(digits: &mut Buffer, out: &mut Vec<u8>, payload: &MpuPayload<'_>)
    requires { vec_len out.old + UNIT * length (view_payload payload.now).units ≤ vec_capacity out.old }
    ensures items { out.new.items ≡ out.old.items ++ units_text (view_payload payload.now).units }
    ensures grows { vec_len out.old ≤ vec_len out.new }
    ensures len { vec_len out.new ≤ vec_len out.old + UNIT * length (view_payload payload.now).units }
    ensures capacity { vec_capacity out.old ≤ vec_capacity out.new }
{
    for unit in payload.units() {
        put_unit(digits, out, &unit);
    }
}

//! Writers of the sections of a line. Each gives what is still to be written behind them.

ghost use Rattle.std.specs.Prelude.{◌≡◌, ℕ, ◌+◌, ◌^◌, ◌<◌, ◌≤◌, ◌++◌, length, vec_len, vec_capacity};
ghost use Rattle.mmt_packet.specs.Reading.{packet_of as mmtp_of};
ghost use Rattle.mmt_ip.specs.Reading.{packet_of as datagram_of};
ghost use Rattle.mmt_mpu.specs.Reading.{payload_of as mpu_of};
ghost use Rattle.mmt_sig.specs.PayloadReading.{payload_of as sig_of};
ghost use Rattle.mmt_list.specs.Line.{refused_text, mpu_section, sig_section, kind_section, mmtp_section, ntp_time, ntp_section, port_section, ip_section};
ghost use Rattle.mmt_words.specs.Words.{why_words, mpu_words, sig_word};
ghost use Rattle.mmt_list.specs.Left.{left_text};

use crate::left::Left;
use crate::signalling::put_sig;
use crate::texts::{put_ends, put_mmtp, put_mpu};
use itoa::Buffer;
use mmt_base::Refused;
use mmt_fields::put_bytes;
use mmt_hear::{Why, ip_reason, mmtp_reason};
use mmt_ip::read_ip6udp;
use mmt_mpu::{MpuWhy, read_mpu};
use mmt_packet::{Kind, read_packet};
use mmt_sig::{SigWhy, read_sig};
use mmt_words::{put_mpu_why, put_number, put_sig_why, put_why};

/// Appends a refusal.
#[tactic(auto, unfolding(crate::specs::Line::refused_text))]
pub fn put_refused(digits: &mut Buffer, out: &mut Vec<u8>, place: u64, why: Why)
    requires { vec_len out.old + 80 ≤ vec_capacity out.old }
    ensures items { out.new.items ≡ out.old.items ++ refused_text place (why_words why) }
    ensures grows { vec_len out.old ≤ vec_len out.new }
    ensures len { vec_len out.new ≤ vec_len out.old + 80 }
    ensures capacity { vec_capacity out.old ≤ vec_capacity out.new }
{
    put_number(digits, out, b" | refused ", place);
    put_bytes(out, b" ");
    put_why(digits, out, why);
}

// Appends the refusal of an MPU payload.
#[tactic(auto, unfolding(crate::specs::Line::refused_text))]
fn put_mpu_refused(digits: &mut Buffer, out: &mut Vec<u8>, place: u64, why: MpuWhy)
    requires { vec_len out.old + 80 ≤ vec_capacity out.old }
    ensures items { out.new.items ≡ out.old.items ++ refused_text place (mpu_words why) }
    ensures grows { vec_len out.old ≤ vec_len out.new }
    ensures len { vec_len out.new ≤ vec_len out.old + 80 }
    ensures capacity { vec_capacity out.old ≤ vec_capacity out.new }
{
    put_number(digits, out, b" | refused ", place);
    put_bytes(out, b" ");
    put_mpu_why(digits, out, why);
}

// Appends the section of an MPU payload at a place, up to what is left.
#[tactic(auto, unfolding(crate::specs::Line::mpu_section))]
fn mpu_head<'a>(digits: &mut Buffer, out: &mut Vec<u8>, at: u64, payload: &'a [u8]) -> Left<'a>
    requires place { at < 2 ^ 63 + 2 ^ 20 }
    requires short { length payload.now < 2 ^ 16 }
    requires room { vec_len out.old + 144 ≤ vec_capacity out.old }
    ensures items { out.new.items ++ left_text result ≡ out.old.items ++ mpu_section at (mpu_of payload.now) }
    ensures grows { vec_len out.old ≤ vec_len out.new }
    ensures len { vec_len out.new ≤ vec_len out.old + 144 }
    ensures capacity { vec_capacity out.old ≤ vec_capacity out.new }
{
    match read_mpu(payload) {
        Ok(found) => {
            put_mpu(digits, out, &found);
            Left::Units(found)
        }
        Err(Refused { at: inner, why }) => {
            put_mpu_refused(digits, out, at + inner as u64, why);
            Left::Nothing
        }
    }
}

// Appends the refusal of a signalling payload.
#[tactic(auto, unfolding(crate::specs::Line::refused_text))]
fn put_sig_refused(digits: &mut Buffer, out: &mut Vec<u8>, place: u64, why: SigWhy)
    requires { vec_len out.old + 80 ≤ vec_capacity out.old }
    ensures items { out.new.items ≡ out.old.items ++ refused_text place (sig_word why) }
    ensures grows { vec_len out.old ≤ vec_len out.new }
    ensures len { vec_len out.new ≤ vec_len out.old + 80 }
    ensures capacity { vec_capacity out.old ≤ vec_capacity out.new }
{
    put_number(digits, out, b" | refused ", place);
    put_bytes(out, b" ");
    put_sig_why(out, why);
}

// Appends the section of a signalling payload at a place, up to its messages.
#[tactic(auto, unfolding(crate::specs::Line::sig_section))]
fn sig_head<'a>(digits: &mut Buffer, out: &mut Vec<u8>, at: u64, payload: &'a [u8]) -> Left<'a>
    requires place { at < 2 ^ 63 + 2 ^ 20 }
    requires short { length payload.now < 2 ^ 16 }
    requires room { vec_len out.old + 144 ≤ vec_capacity out.old }
    ensures items { out.new.items ++ left_text result ≡ out.old.items ++ sig_section at (sig_of payload.now) }
    ensures grows { vec_len out.old ≤ vec_len out.new }
    ensures len { vec_len out.new ≤ vec_len out.old + 144 }
    ensures capacity { vec_capacity out.old ≤ vec_capacity out.new }
{
    match read_sig(payload) {
        Ok(found) => {
            put_sig(digits, out, &found);
            Left::Messages(found)
        }
        Err(Refused { at: inner, why }) => {
            put_sig_refused(digits, out, at + inner as u64, why);
            Left::Nothing
        }
    }
}

// Appends the section of an MMTP payload of a kind at a place, up to what is left.
#[tactic(auto, unfolding(crate::specs::Line::kind_section))]
fn kind_head<'a>(
    digits: &mut Buffer,
    out: &mut Vec<u8>,
    kind: Kind,
    at: u64,
    payload: &'a [u8],
) -> Left<'a>
    requires place { at < 2 ^ 63 + 2 ^ 20 }
    requires short { length payload.now < 2 ^ 16 }
    requires room { vec_len out.old + 144 ≤ vec_capacity out.old }
    ensures items { out.new.items ++ left_text result ≡ out.old.items ++ kind_section kind at payload.now }
    ensures grows { vec_len out.old ≤ vec_len out.new }
    ensures len { vec_len out.new ≤ vec_len out.old + 144 }
    ensures capacity { vec_capacity out.old ≤ vec_capacity out.new }
{
    match kind {
        Kind::Mpu => mpu_head(digits, out, at, payload),
        Kind::Generic => Left::Nothing,
        Kind::Signalling => sig_head(digits, out, at, payload),
    }
}

// Appends the section of an MMTP packet at a place and that of its payload, up to what is left.
#[tactic(auto, unfolding(crate::specs::Line::mmtp_section))]
fn mmtp_head<'a>(digits: &mut Buffer, out: &mut Vec<u8>, at: u64, bytes: &'a [u8]) -> Left<'a>
    requires place { at < 2 ^ 63 + 64 }
    requires short { length bytes.now < 2 ^ 16 }
    requires room { vec_len out.old + 360 ≤ vec_capacity out.old }
    ensures items { out.new.items ++ left_text result ≡ out.old.items ++ mmtp_section at (mmtp_of bytes.now) }
    ensures grows { vec_len out.old ≤ vec_len out.new }
    ensures len { vec_len out.new ≤ vec_len out.old + 360 }
    ensures capacity { vec_capacity out.old ≤ vec_capacity out.new }
{
    match read_packet(bytes) {
        Ok(packet) => {
            put_mmtp(digits, out, &packet);
            let from = bytes.len() - packet.payload.len();
            kind_head(digits, out, packet.kind, at + from as u64, packet.payload)
        }
        Err(Refused { at: inner, why }) => {
            put_refused(digits, out, at + inner as u64, mmtp_reason(why));
            Left::Nothing
        }
    }
}

// The transmit timestamp of an NTP message.
#[tactic(auto, unfolding(crate::specs::Line::ntp_time))]
fn ntp_time_of(message: &[u8]) -> u64
    requires { 48 ≤ length message.now }
    ensures { result ≡ ntp_time message.now }
{
    let (_, times) = message.split_at(40);
    match times.split_first_chunk::<8>() {
        Some((front, _)) => u64::from_be_bytes(*front),
        None => unreachable!(),
    }
}

// Appends the section of an NTP message.
#[tactic(auto, unfolding(crate::specs::Line::ntp_section))]
fn put_ntp(digits: &mut Buffer, out: &mut Vec<u8>, message: &[u8])
    requires { vec_len out.old + 36 ≤ vec_capacity out.old }
    ensures items { out.new.items ≡ out.old.items ++ ntp_section message.now }
    ensures grows { vec_len out.old ≤ vec_len out.new }
    ensures len { vec_len out.new ≤ vec_len out.old + 36 }
    ensures capacity { vec_capacity out.old ≤ vec_capacity out.new }
{
    if message.len() < 48 {
        put_bytes(out, b" | ntp short");
    } else {
        put_number(digits, out, b" | ntp ", ntp_time_of(message));
    }
}

/// Appends the sections of a UDP payload at a place, up to what is left.
#[tactic(auto, unfolding(crate::specs::Line::port_section))]
pub fn port_head<'a>(
    digits: &mut Buffer,
    out: &mut Vec<u8>,
    port: u16,
    at: u64,
    payload: &'a [u8],
) -> Left<'a>
    requires place { at < 2 ^ 63 + 64 }
    requires short { length payload.now < 2 ^ 16 }
    requires room { vec_len out.old + 360 ≤ vec_capacity out.old }
    ensures items { out.new.items ++ left_text result ≡ out.old.items ++ port_section port at payload.now }
    ensures grows { vec_len out.old ≤ vec_len out.new }
    ensures len { vec_len out.new ≤ vec_len out.old + 360 }
    ensures capacity { vec_capacity out.old ≤ vec_capacity out.new }
{
    if port == 123 {
        put_ntp(digits, out, payload);
        Left::Nothing
    } else {
        mmtp_head(digits, out, at, payload)
    }
}

/// Appends the sections of the IPv6 packet in a TLV packet at a place, up to what is left.
#[tactic(auto, unfolding(crate::specs::Line::ip_section))]
pub fn ip_head<'a>(digits: &mut Buffer, out: &mut Vec<u8>, place: u64, body: &'a [u8]) -> Left<'a>
    requires place { place < 2 ^ 63 }
    requires short { length body.now < 2 ^ 16 }
    requires room { vec_len out.old + 600 ≤ vec_capacity out.old }
    ensures items { out.new.items ++ left_text result ≡ out.old.items ++ ip_section place (datagram_of body.now) }
    ensures grows { vec_len out.old ≤ vec_len out.new }
    ensures len { vec_len out.new ≤ vec_len out.old + 600 }
    ensures capacity { vec_capacity out.old ≤ vec_capacity out.new }
{
    match read_ip6udp(body) {
        Ok(packet) => {
            put_bytes(out, b" | ");
            put_ends(digits, out, &packet.header);
            let port = packet.header.destination_port;
            port_head(digits, out, port, place + 52, packet.payload)
        }
        Err(Refused { at, why }) => {
            put_refused(digits, out, place + (4 + at as u64), ip_reason(why));
            Left::Nothing
        }
    }
}

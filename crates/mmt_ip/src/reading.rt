//! Reading a packet, field by field.

ghost use Rattle.std.specs.Prelude.{◌+◌, ◌≡◌, ◌<◌, ◌≤◌, ◌^◌, ◌||◌, ◌==◌, length, IfOk, IfErr, Ok};
ghost use Rattle.mmt_fields.specs.Reading.{Gives};
ghost use Rattle.mmt_ip.specs.Spelling.{Value, Fits, view, spelling, checksum};
ghost use Rattle.mmt_ip.specs.Reading.{packet_of};

use crate::packet::{Ip6Header, Ip6Udp, IpWhy};
use crate::sum::checksum_of;
use mmt_base::Refused;
use mmt_fields::{check, u8_at, u16_at, u32_at, u128_at};

/// Whether a checksum is none, or the right one (RFC 768).
fn is_right(sum: u16, header: &Ip6Header, payload: &[u8]) -> bool
    requires { 8 + length payload.now < 2 ^ 16 }
    ensures { result ≡ ((sum == 0) || (sum == checksum header.now payload.now)) }
{
    sum == 0 || sum == checksum_of(header, payload)
}

/// The packet that the bytes are, or the first refusal.
#[tactic(auto, unfolding(crate::specs::Reading::packet_of))]
fn packet(bytes: &[u8]) -> Result<Ip6Udp<'_>, Refused<IpWhy>>
    requires { length bytes.now < 2 ^ 31 }
    ensures gives { Gives view result (packet_of bytes.now) }
    ensures within { IfOk result (λ p. 48 + length p.payload.now ≡ length bytes.now) }
    ensures place { IfErr result (λ e. e.at ≤ length bytes.now) }
{
    check(bytes.len() >= 40, 0, IpWhy::Short)?;
    let (word, rest) = u32_at(bytes, 0, IpWhy::Short)?;
    let version = word >> 28;
    check(version == 6, 0, IpWhy::Version(version as u8))?;
    let (len, rest) = u16_at(rest, 4, IpWhy::Short)?;
    let (next, rest) = u8_at(rest, 6, IpWhy::Short)?;
    check(next == 17, 6, IpWhy::NextHeader(next))?;
    let (hop_limit, rest) = u8_at(rest, 7, IpWhy::Short)?;
    let (source, rest) = u128_at(rest, 8, IpWhy::Short)?;
    let (destination, rest) = u128_at(rest, 24, IpWhy::Short)?;
    check(rest.len() == len as usize, 4, IpWhy::Length)?;
    check(rest.len() >= 8, 40, IpWhy::Short)?;
    let (source_port, rest) = u16_at(rest, 40, IpWhy::Short)?;
    let (destination_port, rest) = u16_at(rest, 42, IpWhy::Short)?;
    let (udp_len, rest) = u16_at(rest, 44, IpWhy::Short)?;
    check(udp_len == len, 44, IpWhy::Length)?;
    let (sum, payload) = u16_at(rest, 46, IpWhy::Short)?;
    let header = Ip6Header {
        traffic_class: (word >> 20 & 0xFF) as u8,
        flow_label: word & 0xF_FFFF,
        hop_limit,
        source,
        destination,
        source_port,
        destination_port,
    };
    check(is_right(sum, &header, payload), 46, IpWhy::Checksum)?;
    Ok(Ip6Udp {
        header,
        summed: sum != 0,
        payload,
    })
}

/// The packet that the bytes are, all of them (RFC 8200, section 3; RFC 768). A checksum of 0 is
/// taken as none. It takes no memory, and passes over the payload for the checksum alone.
///
/// # Errors
///
/// The first check that the bytes fail, with its place in bytes from their start: forty bytes are
/// there, the version, the next header, the payload length, eight more bytes are there, the UDP
/// length, and the checksum.
pub fn read_ip6udp(bytes: &[u8]) -> Result<Ip6Udp<'_>, Refused<IpWhy>>
    requires { length bytes.now < 2 ^ 31 }
    // What is read is spelled so.
    ensures found { IfOk result (λ p. Fits (view p) × (bytes.now ≡ spelling (view p))) }
    // What is spelled so is read.
    ensures only { (v : Value) → Fits v → bytes.now ≡ spelling v → Gives view result (Ok v) }
    // Which refusal it is, and where.
    ensures exact { Gives view result (packet_of bytes.now) }
    // The payload is what follows the two headers.
    ensures within { IfOk result (λ p. 48 + length p.payload.now ≡ length bytes.now) }
    // The place lies within the bytes, or directly behind them.
    ensures place { IfErr result (λ e. e.at ≤ length bytes.now) }
{
    packet(bytes)
}

//! Reading a header-compressed packet by itself.

ghost use Rattle.std.specs.Prelude.{◌≡◌, ◌+◌, ◌<◌, ◌≤◌, ◌^◌, length, IfOk, IfErr, IfSome, Ok};
ghost use Rattle.std.specs.Option.{is_some};
ghost use Rattle.mmt_fields.specs.Reading.{Gives, optional_at};
ghost use Rattle.mmt_ctx.specs.Spelling.{Value, Fits, spelling, head_length};
ghost use Rattle.mmt_ctx.specs.Reading.{packet_of, header_at as one_header};
ghost use Rattle.mmt_ctx.specs.Compressed.{view};

use crate::packet::CtxWhy;
use mmt_base::Refused;
use mmt_fields::{u8_at, u16_at, u32_at, u128_at};
use mmt_ip::Ip6Header;

/// A packet as it stands: its header, where it carries one.
#[derive(Clone, Copy, Debug)]
pub struct Compressed<'a> {
    pub context: u16,
    pub number: u8,
    pub header: Option<Ip6Header>,
    pub payload: &'a [u8],
}

fn refused<T>(at: u32, why: CtxWhy) -> Result<T, Refused<CtxWhy>>
    ensures { result ≡ Err (record { at = at; why = why }) }
{
    Err(Refused { at, why })
}

// The header at the front, which begins at byte 3 of the packet.
#[tactic(auto, unfolding(crate::specs::Reading::header_at))]
fn header_at(bytes: &[u8]) -> Result<(Ip6Header, &[u8]), Refused<CtxWhy>>
    ensures gives { Gives (λ x. (x.0, x.1.now)) result (one_header bytes.now) }
    ensures len { IfOk result (λ x. 42 + length x.1.now ≡ length bytes.now) }
    ensures place { IfErr result (λ e. e.at ≤ 3 + length bytes.now) }
{
    if bytes.len() < 42 {
        return refused(3, CtxWhy::Short);
    }
    let (word, rest) = u32_at(bytes, 3, CtxWhy::Short)?;
    let version = word >> 28;
    if version != 6 {
        return refused(3, CtxWhy::Version(version as u8));
    }
    let (next, rest) = u8_at(rest, 7, CtxWhy::Short)?;
    if next != 17 {
        return refused(7, CtxWhy::NextHeader(next));
    }
    let (hop_limit, rest) = u8_at(rest, 8, CtxWhy::Short)?;
    let (source, rest) = u128_at(rest, 9, CtxWhy::Short)?;
    let (destination, rest) = u128_at(rest, 25, CtxWhy::Short)?;
    let (source_port, rest) = u16_at(rest, 41, CtxWhy::Short)?;
    let (destination_port, rest) = u16_at(rest, 43, CtxWhy::Short)?;
    let header = Ip6Header {
        traffic_class: (word >> 20 & 0xFF) as u8,
        flow_label: word & 0xF_FFFF,
        hop_limit,
        source,
        destination,
        source_port,
        destination_port,
    };
    Ok((header, rest))
}

fn optional_header(
    stands: bool,
    bytes: &[u8],
) -> Result<(Option<Ip6Header>, &[u8]), Refused<CtxWhy>>
    ensures gives { Gives (λ x. (x.0, x.1.now)) result (optional_at stands one_header bytes.now) }
    ensures len { IfOk result (λ x. head_length (is_some x.0) + length x.1.now ≡ 3 + length bytes.now) }
    ensures place { IfErr result (λ e. e.at ≤ 3 + length bytes.now) }
{
    if !stands {
        return Ok((None, bytes));
    }
    let (header, rest) = header_at(bytes)?;
    Ok((Some(header), rest))
}

#[tactic(auto, unfolding(crate::specs::Reading::packet_of))]
fn packet(bytes: &[u8]) -> Result<Compressed<'_>, Refused<CtxWhy>>
    ensures gives { Gives view result (packet_of bytes.now) }
    ensures within { IfOk result (λ p. head_length (is_some p.header) + length p.payload.now ≡ length bytes.now) }
    ensures place { IfErr result (λ e. e.at ≤ length bytes.now) }
{
    if bytes.len() < 3 {
        return refused(0, CtxWhy::Short);
    }
    let (word, rest) = u16_at(bytes, 0, CtxWhy::Short)?;
    let (kind, rest) = u8_at(rest, 2, CtxWhy::Short)?;
    if kind != 0x60 && kind != 0x61 {
        return refused(2, CtxWhy::OtherKind(kind));
    }
    let (header, payload) = optional_header(kind == 0x60, rest)?;
    Ok(Compressed {
        context: word >> 4,
        number: (word & 0xF) as u8,
        header,
        payload,
    })
}

/// The packet that the bytes spell, all of the bytes, or the first thing that is wrong with them.
pub fn read_compressed(bytes: &[u8]) -> Result<Compressed<'_>, Refused<CtxWhy>>
    requires { length bytes.now < 2 ^ 31 }
    // What is read is spelled so.
    ensures found { IfOk result (λ p. Fits (view p) × (bytes.now ≡ spelling (view p))) }
    // What is spelled so is read.
    ensures only { (v : Value) → Fits v → bytes.now ≡ spelling v → Gives view result (Ok v) }
    // Which refusal it is, and where.
    ensures exact { Gives view result (packet_of bytes.now) }
    // The payload is what follows the header. A refusal's place lies within the bytes, or directly behind them.
    ensures within { IfOk result (λ p. head_length (is_some p.header) + length p.payload.now ≡ length bytes.now) }
    ensures place { IfErr result (λ e. e.at ≤ length bytes.now) }
{
    packet(bytes)
}

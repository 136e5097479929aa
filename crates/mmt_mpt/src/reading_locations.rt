//! Reading a location.

ghost use Rattle.std.specs.Prelude.{◌≡◌, ℕ, ◌+◌, ◌<◌, ◌≤◌, ◌^◌, List, ◌++◌, length, take, IfOk, IfErr, Ok};
ghost use Rattle.std.specs.Int.{w32, w128};
ghost use Rattle.mmt_fields.specs.Reading.{Gives};
ghost use Rattle.mmt_mpt.specs.Location.{LocationValue, LocationFits, location_bytes, IsHere, InIp4, InIp6, InStream, InIp6Stream, AtUrl};
ghost use Rattle.mmt_mpt.specs.LocationReading.{here_at, flow_at, stream_at, flow_stream_at, url_at, tagged, location_by, location_at as location_from, location_of, read_as};
ghost use Rattle.mmt_mpt.specs.LocationView.{view_location};

use crate::location::{Location, LocationWhy};
use mmt_base::Refused;
use mmt_fields::{bytes_at, u8_at, u16_at, u32_at, u128_at};

#[tactic(auto, unfolding(crate::specs::LocationReading::here_at))]
fn here(at: u32, bytes: &[u8]) -> Result<(Location<'_>, &[u8]), Refused<LocationWhy>>
    ensures gives { Gives (λ x. (view_location x.0, x.1.now)) result (tagged IsHere (here_at at bytes.now)) }
    ensures shorter { IfOk result (λ x. length x.1.now ≤ length bytes.now) }
    ensures place { IfErr result (λ e. e.at ≤ at + length bytes.now) }
{
    let (packet_id, rest) = u16_at(bytes, at, LocationWhy::Short)?;
    Ok((Location::Here { packet_id }, rest))
}

#[tactic(auto, unfolding(crate::specs::LocationReading::flow_at))]
fn ip4(at: u32, bytes: &[u8]) -> Result<(Location<'_>, &[u8]), Refused<LocationWhy>>
    requires { at < 2 ^ 31 + 1 }
    ensures gives { Gives (λ x. (view_location x.0, x.1.now)) result (tagged InIp4 (flow_at w32 at bytes.now)) }
    ensures shorter { IfOk result (λ x. length x.1.now ≤ length bytes.now) }
    ensures place { IfErr result (λ e. e.at ≤ at + length bytes.now) }
{
    let (source, rest) = u32_at(bytes, at, LocationWhy::Short)?;
    let (destination, rest) = u32_at(rest, at + 4, LocationWhy::Short)?;
    let (port, rest) = u16_at(rest, at + 8, LocationWhy::Short)?;
    let (packet_id, rest) = u16_at(rest, at + 10, LocationWhy::Short)?;
    Ok((
        Location::Ip4 {
            source,
            destination,
            port,
            packet_id,
        },
        rest,
    ))
}

#[tactic(auto, unfolding(crate::specs::LocationReading::flow_at))]
fn ip6(at: u32, bytes: &[u8]) -> Result<(Location<'_>, &[u8]), Refused<LocationWhy>>
    requires { at < 2 ^ 31 + 1 }
    ensures gives { Gives (λ x. (view_location x.0, x.1.now)) result (tagged InIp6 (flow_at w128 at bytes.now)) }
    ensures shorter { IfOk result (λ x. length x.1.now ≤ length bytes.now) }
    ensures place { IfErr result (λ e. e.at ≤ at + length bytes.now) }
{
    let (source, rest) = u128_at(bytes, at, LocationWhy::Short)?;
    let (destination, rest) = u128_at(rest, at + 16, LocationWhy::Short)?;
    let (port, rest) = u16_at(rest, at + 32, LocationWhy::Short)?;
    let (packet_id, rest) = u16_at(rest, at + 34, LocationWhy::Short)?;
    Ok((
        Location::Ip6 {
            source,
            destination,
            port,
            packet_id,
        },
        rest,
    ))
}

#[tactic(auto, unfolding(crate::specs::LocationReading::stream_at))]
fn stream(at: u32, bytes: &[u8]) -> Result<(Location<'_>, &[u8]), Refused<LocationWhy>>
    requires { at < 2 ^ 31 + 1 }
    ensures gives { Gives (λ x. (view_location x.0, x.1.now)) result (tagged InStream (stream_at at bytes.now)) }
    ensures shorter { IfOk result (λ x. length x.1.now ≤ length bytes.now) }
    ensures place { IfErr result (λ e. e.at ≤ at + length bytes.now) }
{
    let (network, rest) = u16_at(bytes, at, LocationWhy::Short)?;
    let (stream, rest) = u16_at(rest, at + 2, LocationWhy::Short)?;
    let (pid, rest) = u16_at(rest, at + 4, LocationWhy::Short)?;
    Ok((
        Location::Stream {
            network,
            stream,
            reserved: (pid / 8192) as u8,
            pid: pid % 8192,
        },
        rest,
    ))
}

#[tactic(auto, unfolding(crate::specs::LocationReading::flow_stream_at))]
fn ip6_stream(at: u32, bytes: &[u8]) -> Result<(Location<'_>, &[u8]), Refused<LocationWhy>>
    requires { at < 2 ^ 31 + 1 }
    ensures gives { Gives (λ x. (view_location x.0, x.1.now)) result (tagged InIp6Stream (flow_stream_at at bytes.now)) }
    ensures shorter { IfOk result (λ x. length x.1.now ≤ length bytes.now) }
    ensures place { IfErr result (λ e. e.at ≤ at + length bytes.now) }
{
    let (source, rest) = u128_at(bytes, at, LocationWhy::Short)?;
    let (destination, rest) = u128_at(rest, at + 16, LocationWhy::Short)?;
    let (port, rest) = u16_at(rest, at + 32, LocationWhy::Short)?;
    let (pid, rest) = u16_at(rest, at + 34, LocationWhy::Short)?;
    Ok((
        Location::Ip6Stream {
            source,
            destination,
            port,
            reserved: (pid / 8192) as u8,
            pid: pid % 8192,
        },
        rest,
    ))
}

#[tactic(auto, unfolding(crate::specs::LocationReading::url_at))]
fn url(at: u32, bytes: &[u8]) -> Result<(Location<'_>, &[u8]), Refused<LocationWhy>>
    requires { at < 2 ^ 31 + 1 }
    ensures gives { Gives (λ x. (view_location x.0, x.1.now)) result (tagged AtUrl (url_at at bytes.now)) }
    ensures shorter { IfOk result (λ x. length x.1.now ≤ length bytes.now) }
    ensures place { IfErr result (λ e. e.at ≤ at + length bytes.now) }
{
    let (len, rest) = u8_at(bytes, at, LocationWhy::Short)?;
    let (text, rest) = bytes_at(rest, len as usize, at + 1, LocationWhy::Short)?;
    Ok((Location::Url { text }, rest))
}

/// What follows a type.
#[tactic(auto, unfolding(crate::specs::LocationReading::location_by))]
fn by_kind(kind: u8, at: u32, bytes: &[u8]) -> Result<(Location<'_>, &[u8]), Refused<LocationWhy>>
    requires { at < 2 ^ 31 }
    ensures gives { Gives (λ x. (view_location x.0, x.1.now)) result (location_by kind at bytes.now) }
    ensures shorter { IfOk result (λ x. length x.1.now ≤ length bytes.now) }
    ensures place { IfErr result (λ e. e.at ≤ at + 1 + length bytes.now) }
{
    if kind == 0 {
        here(at + 1, bytes)
    } else if kind == 1 {
        ip4(at + 1, bytes)
    } else if kind == 2 {
        ip6(at + 1, bytes)
    } else if kind == 3 {
        stream(at + 1, bytes)
    } else if kind == 4 {
        ip6_stream(at + 1, bytes)
    } else if kind == 5 {
        url(at + 1, bytes)
    } else {
        Err(Refused {
            at,
            why: LocationWhy::Kind(kind),
        })
    }
}

/// A location, and what follows it.
#[tactic(auto, unfolding(crate::specs::LocationReading::location_at))]
pub(crate) fn location_at(
    at: u32,
    bytes: &[u8],
) -> Result<(Location<'_>, &[u8]), Refused<LocationWhy>>
    requires { at + length bytes.now < 2 ^ 31 }
    ensures gives { Gives (λ x. (view_location x.0, x.1.now)) result (location_from at bytes.now) }
    ensures shorter { IfOk result (λ x. length x.1.now < length bytes.now) }
    ensures place { IfErr result (λ e. e.at ≤ at + length bytes.now) }
{
    let (kind, rest) = u8_at(bytes, at, LocationWhy::Short)?;
    by_kind(kind, at, rest)
}

#[tactic(auto, unfolding(crate::specs::LocationReading::location_of))]
fn first_location(bytes: &[u8]) -> Result<(Location<'_>, u32), Refused<LocationWhy>>
    requires { length bytes.now < 2 ^ 31 }
    ensures gives { Gives (λ x. (view_location x.0, x.1)) result (location_of bytes.now) }
    ensures place { IfErr result (λ e. e.at ≤ length bytes.now) }
{
    let (location, rest) = location_at(0, bytes)?;
    Ok((location, (bytes.len() - rest.len()) as u32))
}

/// Reads the location with which the bytes begin, and answers it with the number of its bytes; or
/// says which check fails first, and where (ARIB STD-B60, MMT_general_location_info).
pub fn read_location(bytes: &[u8]) -> Result<(Location<'_>, u32), Refused<LocationWhy>>
    requires { length bytes.now < 2 ^ 31 }
    // What is read is spelled so, by so many bytes.
    ensures found { IfOk result (λ x. LocationFits (view_location x.0) × (take x.1 bytes.now ≡ location_bytes (view_location x.0)) × (x.1 ≤ length bytes.now)) }
    // What is spelled so, whatever follows, is read.
    ensures only { (v : LocationValue) (rest : List ℕ) → LocationFits v → bytes.now ≡ location_bytes v ++ rest → Gives (λ x. (view_location x.0, x.1)) result (read_as v) }
    // Which refusal it is, and where.
    ensures exact { Gives (λ x. (view_location x.0, x.1)) result (location_of bytes.now) }
    // The place lies within the bytes, or directly behind them.
    ensures place { IfErr result (λ e. e.at ≤ length bytes.now) }
{
    first_location(bytes)
}

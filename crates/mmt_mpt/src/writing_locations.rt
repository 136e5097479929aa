//! Writing a location.

ghost use Rattle.std.specs.Prelude.{◌≡◌, ◌+◌, ◌*◌, ◌<◌, ◌≤◌, ◌^◌, ◌++◌, length, vec_len, vec_capacity, OnOk, OnErr};
ghost use Rattle.std.specs.Int.{w32, w128};
ghost use Rattle.mmt_mpt.specs.Location.{FlowFits, StreamFits, FlowStreamFits, LocationFits, CanSpell, type_of, after_type, flow_bytes, stream_bytes, flow_stream_bytes, url_bytes, location_bytes};
ghost use Rattle.mmt_mpt.specs.LocationWriting.{location_size as size_of};
ghost use Rattle.mmt_mpt.specs.LocationView.{view_location};

use crate::location::Location;
use mmt_base::OutOfMemory;
use mmt_fields::{put_bytes, put_u8, put_u16, put_u32, put_u128};

#[tactic(auto, using(std::proofs::Common::append_assoc), unfolding(crate::specs::Location::flow_bytes))]
fn put_ip4(out: &mut Vec<u8>, source: u32, destination: u32, port: u16, packet_id: u16)
    requires { vec_len out.old + 12 ≤ vec_capacity out.old }
    ensures items { out.new.items ≡ out.old.items ++ flow_bytes w32 (record { source = source; destination = destination; port = port; packet_id = packet_id }) }
    ensures fits { FlowFits (2 ^ 32) (record { source = source; destination = destination; port = port; packet_id = packet_id }) }
    ensures len { vec_len out.new ≡ vec_len out.old + 12 }
    ensures capacity { vec_capacity out.old ≤ vec_capacity out.new }
{
    put_u32(out, source);
    put_u32(out, destination);
    put_u16(out, port);
    put_u16(out, packet_id);
}

#[tactic(auto, using(std::proofs::Common::append_assoc), unfolding(crate::specs::Location::flow_bytes))]
fn put_ip6(out: &mut Vec<u8>, source: u128, destination: u128, port: u16, packet_id: u16)
    requires { vec_len out.old + 36 ≤ vec_capacity out.old }
    ensures items { out.new.items ≡ out.old.items ++ flow_bytes w128 (record { source = source; destination = destination; port = port; packet_id = packet_id }) }
    ensures fits { FlowFits (2 ^ 128) (record { source = source; destination = destination; port = port; packet_id = packet_id }) }
    ensures len { vec_len out.new ≡ vec_len out.old + 36 }
    ensures capacity { vec_capacity out.old ≤ vec_capacity out.new }
{
    put_u128(out, source);
    put_u128(out, destination);
    put_u16(out, port);
    put_u16(out, packet_id);
}

#[tactic(auto, using(std::proofs::Common::append_assoc), unfolding(crate::specs::Location::stream_bytes))]
fn put_stream(out: &mut Vec<u8>, network: u16, stream: u16, reserved: u8, pid: u16)
    requires room { vec_len out.old + 6 ≤ vec_capacity out.old }
    requires reserved_fits { reserved < 8 }
    requires pid_fits { pid < 8192 }
    ensures items { out.new.items ≡ out.old.items ++ stream_bytes (record { network = network; stream = stream; reserved = reserved; pid = pid }) }
    ensures fits { StreamFits (record { network = network; stream = stream; reserved = reserved; pid = pid }) }
    ensures len { vec_len out.new ≡ vec_len out.old + 6 }
    ensures capacity { vec_capacity out.old ≤ vec_capacity out.new }
{
    put_u16(out, network);
    put_u16(out, stream);
    put_u16(out, (reserved as u16) * (1 << 13) + pid);
}

#[tactic(auto, using(std::proofs::Common::append_assoc), unfolding(crate::specs::Location::flow_stream_bytes))]
fn put_ip6_stream(
    out: &mut Vec<u8>,
    source: u128,
    destination: u128,
    port: u16,
    reserved: u8,
    pid: u16,
)
    requires room { vec_len out.old + 36 ≤ vec_capacity out.old }
    requires reserved_fits { reserved < 8 }
    requires pid_fits { pid < 8192 }
    ensures items { out.new.items ≡ out.old.items ++ flow_stream_bytes (record { source = source; destination = destination; port = port; reserved = reserved; pid = pid }) }
    ensures fits { FlowStreamFits (record { source = source; destination = destination; port = port; reserved = reserved; pid = pid }) }
    ensures len { vec_len out.new ≡ vec_len out.old + 36 }
    ensures capacity { vec_capacity out.old ≤ vec_capacity out.new }
{
    put_u128(out, source);
    put_u128(out, destination);
    put_u16(out, port);
    put_u16(out, (reserved as u16) * (1 << 13) + pid);
}

#[tactic(auto, using(std::proofs::Common::append_assoc), unfolding(crate::specs::Location::url_bytes))]
fn put_url(out: &mut Vec<u8>, text: &[u8])
    requires room { vec_len out.old + 1 + length text.now ≤ vec_capacity out.old }
    requires fits { length text.now < 2 ^ 8 }
    ensures items { out.new.items ≡ out.old.items ++ url_bytes text.now }
    ensures len { vec_len out.new ≡ vec_len out.old + 1 + length text.now }
    ensures capacity { vec_capacity out.old ≤ vec_capacity out.new }
{
    put_u8(out, text.len() as u8);
    put_bytes(out, text);
}

// The number of a location's type.
fn kind_of(location: &Location<'_>) -> u8
    ensures { result ≡ type_of (view_location location.now) }
{
    match location {
        Location::Here { .. } => 0,
        Location::Ip4 { .. } => 1,
        Location::Ip6 { .. } => 2,
        Location::Stream { .. } => 3,
        Location::Ip6Stream { .. } => 4,
        Location::Url { .. } => 5,
    }
}

// Appends what follows the type of a location.
fn put_after_type(out: &mut Vec<u8>, location: &Location<'_>)
    requires can { CanSpell (view_location location.now) }
    requires room { vec_len out.old + size_of (view_location location.now) ≤ vec_capacity out.old + 1 }
    ensures items { out.new.items ≡ out.old.items ++ after_type (view_location location.now) }
    ensures fits { LocationFits (view_location location.now) }
    ensures len { vec_len out.new + 1 ≡ vec_len out.old + size_of (view_location location.now) }
    ensures capacity { vec_capacity out.old ≤ vec_capacity out.new }
{
    match *location {
        Location::Here { packet_id } => put_u16(out, packet_id),
        Location::Ip4 {
            source,
            destination,
            port,
            packet_id,
        } => put_ip4(out, source, destination, port, packet_id),
        Location::Ip6 {
            source,
            destination,
            port,
            packet_id,
        } => put_ip6(out, source, destination, port, packet_id),
        Location::Stream {
            network,
            stream,
            reserved,
            pid,
        } => put_stream(out, network, stream, reserved, pid),
        Location::Ip6Stream {
            source,
            destination,
            port,
            reserved,
            pid,
        } => put_ip6_stream(out, source, destination, port, reserved, pid),
        Location::Url { text } => put_url(out, text),
    }
}

/// Appends a location where there is room for it.
#[tactic(auto, using(std::proofs::Common::append_assoc), unfolding(crate::specs::Location::location_bytes))]
pub(crate) fn put_location(out: &mut Vec<u8>, location: &Location<'_>)
    requires can { CanSpell (view_location location.now) }
    requires room { vec_len out.old + size_of (view_location location.now) ≤ vec_capacity out.old }
    ensures items { out.new.items ≡ out.old.items ++ location_bytes (view_location location.now) }
    ensures fits { LocationFits (view_location location.now) }
    ensures len { vec_len out.new ≡ vec_len out.old + size_of (view_location location.now) }
    ensures capacity { vec_capacity out.old ≤ vec_capacity out.new }
{
    put_u8(out, kind_of(location));
    put_after_type(out, location);
}

/// How many bytes a location has.
pub(crate) fn location_size(location: &Location<'_>) -> usize
    requires { CanSpell (view_location location.now) }
    ensures { result ≡ size_of (view_location location.now) }
{
    match location {
        Location::Here { .. } => 3,
        Location::Ip4 { .. } => 13,
        Location::Ip6 { .. } => 37,
        Location::Stream { .. } => 7,
        Location::Ip6Stream { .. } => 37,
        Location::Url { text } => 2 + text.len(),
    }
}

/// Appends a location (ARIB STD-B60, MMT_general_location_info). Want of memory leaves `out` as it
/// was.
pub fn write_location(out: &mut Vec<u8>, location: &Location<'_>) -> Result<(), OutOfMemory>
    requires { CanSpell (view_location location.now) }
    ensures ok { OnOk result (out.new.items ≡ out.old.items ++ location_bytes (view_location location.now)) }
    ensures fits { OnOk result (LocationFits (view_location location.now)) }
    ensures err { OnErr result (out.new.items ≡ out.old.items) }
{
    out.reserve(location_size(location))?;
    put_location(out, location);
    Ok(())
}

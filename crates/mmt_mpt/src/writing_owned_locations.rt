//! Writing the locations of an owned asset.

ghost use Rattle.std.specs.Prelude.{◌≡◌, ◌+◌, ◌^◌, ◌<◌, ◌≤◌, ◌++◌, length, map, vec_len, vec_capacity};
ghost use Rattle.std.specs.List.{flat_map, All};
ghost use Rattle.mmt_mpt.specs.Location.{LocationFits, location_bytes};
ghost use Rattle.mmt_mpt.specs.LocationView.{view_location};
ghost use Rattle.mmt_mpt.specs.Owned.{owned_location};

use crate::location::Location;
use crate::owned::OwnedLocation;
use crate::writing_locations::{location_size, put_location};

/// An owned location as a location over its text.
fn lent(location: &OwnedLocation) -> Location<'_>
    ensures { view_location result ≡ owned_location location.now }
{
    match location {
        OwnedLocation::Here { packet_id } => Location::Here {
            packet_id: *packet_id,
        },
        OwnedLocation::Ip4 {
            source,
            destination,
            port,
            packet_id,
        } => Location::Ip4 {
            source: *source,
            destination: *destination,
            port: *port,
            packet_id: *packet_id,
        },
        OwnedLocation::Ip6 {
            source,
            destination,
            port,
            packet_id,
        } => Location::Ip6 {
            source: *source,
            destination: *destination,
            port: *port,
            packet_id: *packet_id,
        },
        OwnedLocation::Stream {
            network,
            stream,
            reserved,
            pid,
        } => Location::Stream {
            network: *network,
            stream: *stream,
            reserved: *reserved,
            pid: *pid,
        },
        OwnedLocation::Ip6Stream {
            source,
            destination,
            port,
            reserved,
            pid,
        } => Location::Ip6Stream {
            source: *source,
            destination: *destination,
            port: *port,
            reserved: *reserved,
            pid: *pid,
        },
        OwnedLocation::Url { text } => Location::Url {
            text: text.as_slice(),
        },
    }
}

/// How many bytes a location takes.
#[tactic(auto, using(crate::proofs::Sizes::location_long, crate::proofs::LocationLaw::fits_can))]
fn size_of(location: &OwnedLocation) -> u64
    requires { LocationFits (owned_location location.now) }
    ensures { result ≡ length (location_bytes (owned_location location.now)) }
{
    location_size(&lent(location)) as u64
}

/// Appends a location where there is room for it.
#[tactic(auto, using(crate::proofs::Sizes::location_long, crate::proofs::LocationLaw::fits_can))]
fn put_owned(out: &mut Vec<u8>, location: &OwnedLocation)
    requires fits { LocationFits (owned_location location.now) }
    requires room { vec_len out.old + length (location_bytes (owned_location location.now)) ≤ vec_capacity out.old }
    ensures items { out.new.items ≡ out.old.items ++ location_bytes (owned_location location.now) }
    ensures len { vec_len out.new ≡ vec_len out.old + length (location_bytes (owned_location location.now)) }
    ensures capacity { vec_capacity out.old ≤ vec_capacity out.new }
{
    put_location(out, &lent(location));
}

/// How many bytes locations take.
#[tactic(auto, using(crate::proofs::Sizes::left_long, crate::proofs::Sizes::locations_most))]
pub(crate) fn locations_size(locations: &[OwnedLocation]) -> u64
    requires count { length locations.now < 2 ^ 8 }
    requires fit { All LocationFits (map owned_location locations.now) }
    ensures { result ≡ length (flat_map location_bytes (map owned_location locations.now)) }
{
    let mut size = 0;
    for location in locations {
        size += size_of(location);
    }
    size
}

/// Appends locations where there is room for them.
#[tactic(auto, using(crate::proofs::Sizes::left_long))]
pub(crate) fn put_locations(out: &mut Vec<u8>, locations: &[OwnedLocation])
    requires fit { All LocationFits (map owned_location locations.now) }
    requires room { vec_len out.old + length (flat_map location_bytes (map owned_location locations.now)) ≤ vec_capacity out.old }
    ensures items { out.new.items ≡ out.old.items ++ flat_map location_bytes (map owned_location locations.now) }
    ensures len { vec_len out.new ≡ vec_len out.old + length (flat_map location_bytes (map owned_location locations.now)) }
    ensures capacity { vec_capacity out.old ≤ vec_capacity out.new }
{
    for location in locations {
        put_owned(out, location);
    }
}

//! What a kept packet is to a run of parts.

ghost use Rattle.std.specs.Prelude.{◌≡◌, ◌<◌, ◌^◌, length, map, option_map, IfSome};
ghost use Rattle.mmt_model.specs.Units.{media_link, link_at, packet_at};
ghost use Rattle.mmt_mpu.specs.Head.{view_unit};
ghost use Rattle.mmt_mpu.specs.View.{units_left};
ghost use Rattle.mmt_mpu.specs.Reading.{payload_of};
ghost use Rattle.mmt_pool.specs.Holding.{packet_at as kept_at};
ghost use Rattle.mmt_runs.specs.Lending.{link_bytes};
ghost use Rattle.mmt_runs.specs.Links.{view_link};
ghost use Rattle.mmt_runs.specs.Lone.{Lone};
ghost use Rattle.mmt_runs.specs.Media.{media_at};
ghost use Rattle.mmt_runs.specs.Reading.{heard, media_of};

use mmt_model::Part;
use mmt_mpu::{DataUnit, Units, read_mpu};
use mmt_packet::Kind;
use mmt_pool::{Pool, Span};

/// What a packet is to a run that it may go on: a part between, the last part, or none.
pub(crate) enum Link<'a> {
    Inner(&'a [u8]),
    End(&'a [u8]),
    Break,
}

/// The unit, where there is one and no other.
pub(crate) fn lone_unit(units: Units<'_>) -> Option<DataUnit<'_>>
    ensures { Lone (units_left units.entry) (option_map view_unit result) }
{
    let mut units = units;
    let unit = units.next()?;
    match units.next() {
        None => Some(unit),
        Some(_) => None,
    }
}

// What a payload is to a run of parts with this timed flag and MPU number.
fn part_link(timed: bool, mpu: u32, bytes: &[u8]) -> Link<'_>
    requires { length bytes.now < 2 ^ 31 }
    ensures link { view_link result ≡ media_link timed mpu (media_of (payload_of bytes.now)) }
    ensures short { length (link_bytes (view_link result)) < 2 ^ 31 }
{
    let payload = match read_mpu(bytes) {
        Ok(payload) => payload,
        Err(_) => return Link::Break,
    };
    let head = payload.head();
    let unit = match lone_unit(payload.units()) {
        Some(unit) => unit,
        None => return Link::Break,
    };
    if head.timed != timed {
        return Link::Break;
    }
    if head.mpu != mpu {
        return Link::Break;
    }
    match head.part {
        Part::Whole => Link::Break,
        Part::First => Link::Break,
        Part::Middle => Link::Inner(unit.bytes),
        Part::Last => Link::End(unit.bytes),
    }
}

/// The payload of a kept MPU packet, lent.
pub(crate) fn media_bytes<'a>(pool: &'a Pool, span: Span) -> Option<&'a [u8]>
    ensures bytes { option_map (λ x. x.now) result ≡ media_at (kept_at pool.now.kept span.packet_id span.number) }
    ensures short { IfSome result (λ x. length x.now < 2 ^ 31) }
{
    let (kind, bytes) = match pool.packet(span) {
        Some(found) => found,
        None => return None,
    };
    match kind {
        Kind::Mpu => Some(bytes),
        Kind::Generic => None,
        Kind::Signalling => None,
    }
}

/// What the packet of this span is to a run of parts with this timed flag and MPU number.
pub(crate) fn link_of<'a>(pool: &'a Pool, span: Span, timed: bool, mpu: u32) -> Link<'a>
    ensures link { view_link result ≡ link_at (media_link timed mpu) (packet_at (map heard pool.now.kept) span.packet_id span.number) }
    ensures short { length (link_bytes (view_link result)) < 2 ^ 31 }
{
    match media_bytes(pool, span) {
        Some(bytes) => part_link(timed, mpu, bytes),
        None => Link::Break,
    }
}

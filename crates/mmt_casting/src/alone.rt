//! The packets of a unit that is sent by itself.

ghost use Rattle.std.specs.Prelude.{◌≡◌, if◌then◌else◌, ◌+◌, ◌≤◌, ◌<◌, ◌^◌, ◌++◌, OnOk};
ghost use Rattle.mmt_frag.specs.Cuts.{parts as parts_of};
ghost use Rattle.mmt_casting.specs.Alone.{alone_packet as packet_of_alone, alone_packets};

use mmt_base::{LongTick, OutOfMemory};
use mmt_frag::{part_of, parts};
use mmt_model::{Asset, Carries, Programme, Sent, Unit};

/// Where a unit stands: its place among all units, its place in its MPU, and the number of its first
/// packet.
#[derive(Clone, Copy, Debug)]
pub(crate) struct Place {
    pub u: u32,
    pub unit: u32,
    pub number: u32,
}

/// The bytes of a unit's header.
pub(crate) fn header_length(timed: bool) -> u32
    ensures value { result ≡ (if timed then 14 else 4) }
    ensures short { result ≤ 14 }
{
    if timed { 14 } else { 4 }
}

/// Packet number `k` of a unit.
#[tactic(auto, unfolding(crate::specs::Alone::alone_packet))]
fn alone_packet(programme: &Programme, asset: &Asset, unit: &Unit, place: Place, k: u32) -> Sent
    requires limit { 1 ≤ programme.now.limit }
    requires short { programme.now.limit < 2 ^ 31 }
    requires spacing { programme.now.spacing < 2 ^ 16 }
    requires at { unit.now.at.0 ≤ 2 ^ 48 }
    requires place { k < parts_of unit.now.length programme.now.limit }
    requires numbers { place.number + parts_of unit.now.length programme.now.limit < 2 ^ 32 }
    ensures { result ≡ packet_of_alone programme.now asset.now unit.now place k }
{
    let part = part_of(unit.length, programme.limit, k);
    let head = header_length(asset.timed);
    let carries = if parts(unit.length, programme.limit) == 1 {
        Carries::Whole { unit: place.u }
    } else {
        Carries::Fragment {
            unit: place.u,
            number: k,
        }
    };
    Sent {
        at: LongTick(unit.at.0 + k as u64 * programme.spacing as u64),
        packet_id: asset.packet_id,
        number: place.number + k,
        rap: place.unit == 0 && k == 0,
        length: 8 + head + part.length,
        carries,
    }
}

/// Appends the packets of a unit.
pub(crate) fn put_alone(
    out: &mut Vec<Sent>,
    programme: &Programme,
    asset: &Asset,
    unit: &Unit,
    place: Place,
) -> Result<(), OutOfMemory>
    requires limit { 1 ≤ programme.now.limit }
    requires short { programme.now.limit < 2 ^ 31 }
    requires spacing { programme.now.spacing < 2 ^ 16 }
    requires at { unit.now.at.0 ≤ 2 ^ 48 }
    requires numbers { place.number + parts_of unit.now.length programme.now.limit < 2 ^ 32 }
    ensures { OnOk result (out.new.items ≡ out.old.items ++ alone_packets programme.now asset.now unit.now place) }
{
    for k in 0..parts(unit.length, programme.limit) {
        out.push(alone_packet(programme, asset, unit, place, k))?;
    }
    Ok(())
}

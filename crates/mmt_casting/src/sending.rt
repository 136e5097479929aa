//! The packets of a group.

ghost use Rattle.std.specs.Prelude.{◌≡◌, ◌+◌, ◌<◌, ◌^◌, ◌++◌, length, OnOk};
ghost use Rattle.mmt_cast.specs.Sending.{packet_count};
ghost use Rattle.mmt_casting.specs.Numbered.{numbered_packet, packets_of_unit};
ghost use Rattle.mmt_casting.specs.Places.{IsGroup, IsSpot, sending_at};
ghost use Rattle.mmt_casting.specs.Spans.{run_by};
ghost use Rattle.mmt_model.specs.Right.{IsRight};

use crate::alone::{Place, put_alone};
use crate::counting::{group_packets, unit_of};
use crate::groups::Group;
use crate::places::{Spot, asset_of};
use crate::units::Run;
use mmt_base::{LongTick, OutOfMemory};
use mmt_model::{Carries, Programme, Sent};

/// The packet of a group of several units.
fn group_packet(programme: &Programme, spot: Spot, group: Group, number: u32) -> Sent
    requires right { IsRight programme.now }
    requires spot { IsSpot programme.now spot }
    requires inside { spot.asset < length programme.now.assets }
    requires group { IsGroup programme.now spot group }
    requires several { 1 < group.size }
    ensures { result ≡ numbered_packet programme.now (sending_at programme.now spot.unit_place) number 0 }
{
    Sent {
        at: unit_of(programme, spot).at,
        packet_id: asset_of(programme, spot).packet_id,
        number,
        rap: spot.unit == 0,
        length: 8 + group.bytes,
        carries: Carries::Group {
            first: spot.unit_place,
            count: group.size,
        },
    }
}

/// Appends the packets of a group, the first of which has this number.
pub(crate) fn put_group(
    out: &mut Vec<Sent>,
    programme: &Programme,
    spot: Spot,
    group: Group,
    number: u32,
) -> Result<(), OutOfMemory>
    requires right { IsRight programme.now }
    requires spot { IsSpot programme.now spot }
    requires inside { spot.asset < length programme.now.assets }
    requires group { IsGroup programme.now spot group }
    requires numbers { number + packet_count programme.now (sending_at programme.now spot.unit_place) < 2 ^ 32 }
    ensures { OnOk result (out.new.items ≡ out.old.items ++ packets_of_unit programme.now spot.unit_place number) }
{
    if 1 < group.size {
        out.push(group_packet(programme, spot, group, number))?;
        return Ok(());
    }
    let place = Place {
        u: spot.unit_place,
        unit: spot.unit,
        number,
    };
    let asset = asset_of(programme, spot);
    put_alone(out, programme, asset, unit_of(programme, spot), place)?;
    Ok(())
}

/// Which packets those of a group are.
pub(crate) fn run_of(programme: &Programme, spot: Spot, group: Group, number: u32) -> Run
    requires right { IsRight programme.now }
    requires spot { IsSpot programme.now spot }
    requires inside { spot.asset < length programme.now.assets }
    requires group { IsGroup programme.now spot group }
    ensures { result ≡ run_by programme.now (sending_at programme.now spot.unit_place) number }
{
    let first = unit_of(programme, spot).at;
    let count = group_packets(programme, spot, group);
    Run {
        first,
        last: LongTick(first.0 + (count - 1) as u64 * programme.spacing as u64),
        first_number: number,
        count,
    }
}

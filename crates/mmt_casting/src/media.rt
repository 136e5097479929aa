//! The packets and the units of all assets.

ghost use Rattle.std.specs.Prelude.{◌≡◌, [], None, OnOk};
ghost use Rattle.mmt_cast.specs.Casting.{cast_of, planned};
ghost use Rattle.mmt_cast.specs.Refusing.{refusal};
ghost use Rattle.mmt_casting.specs.Spans.{next_number as number_next, signalling};
ghost use Rattle.mmt_model.specs.Right.{IsRight};

use crate::places::{Spot, after};
use crate::sending::{put_group, run_of};
use crate::units::put_units;
use crate::walking::group_at;
use mmt_base::OutOfMemory;
use mmt_model::{Programme, Sent, SentUnit};

/// The number of the first packet of the next group: numbers go on within an asset.
fn next_number(asset: u32, next: u32, number: u32) -> u32
    ensures { result ≡ number_next asset next number }
{
    if next == asset { number } else { 0 }
}

/// Appends the packets of all units, and the units.
pub(crate) fn put_media(
    packets: &mut Vec<Sent>,
    units: &mut Vec<SentUnit>,
    programme: &Programme,
) -> Result<(), OutOfMemory>
    requires right { IsRight programme.now }
    requires none { refusal programme.now ≡ None }
    requires packets { packets.old.items ≡ signalling programme.now }
    requires units { units.old.items ≡ [] }
    ensures packets { OnOk result (packets.new.items ≡ planned programme.now) }
    ensures units { OnOk result (units.new.items ≡ (cast_of programme.now).units) }
{
    let assets = programme.assets.len();
    let mut spot = Spot::first();
    let mut number = 0u32;
    while (spot.asset as usize) < assets {
        let group = group_at(programme, spot);
        put_group(packets, programme, spot, group, number)?;
        let run = run_of(programme, spot, group, number);
        put_units(units, programme, spot, group.size, run)?;
        let next = after(programme, spot, group.size);
        number = next_number(spot.asset, next.asset, number + run.count);
        spot = next;
    }
    Ok(())
}

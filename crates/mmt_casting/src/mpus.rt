//! The MPUs that are sent.

ghost use Rattle.std.specs.Prelude.{◌≡◌, ◌+◌, ◌<◌, ◌≤◌, length, map, min as lesser, take, drop, IfOk};
ghost use Rattle.mmt_cast.specs.Casting.{cast_of, copies_as_sent, least, mpu_as_sent};
ghost use Rattle.mmt_cast.specs.Placing.{all_mpus};
ghost use Rattle.mmt_cast.specs.Right.{mpu_at};
ghost use Rattle.mmt_casting.specs.MpusOf.{due_tick};
ghost use Rattle.mmt_casting.specs.Named.{AreNamed};
ghost use Rattle.mmt_casting.specs.Places.{IsSpot};
ghost use Rattle.mmt_model.specs.Right.{IsRight};

use crate::due::last_time;
use crate::places::{Spot, after, asset_of, mpu_of};
use mmt_base::{LongTick, OutOfMemory, long_due_of};
use mmt_model::{Programme, SentMpu, SentUnit};
use std::alloc::Global;

/// The earlier of two ticks.
fn earlier_of(a: LongTick, b: LongTick) -> LongTick
    ensures { result.0 ≡ lesser a.0 b.0 }
{
    if a.0 <= b.0 { a } else { b }
}

/// The least due tick of N units from one on.
fn least_due(units: &[SentUnit], first: usize, count: usize) -> LongTick
    requires some { 1 ≤ count }
    requires within { first + count ≤ length units.now }
    ensures { result.0 ≡ least (map due_tick (take count (drop first units.now))) }
{
    let mut due = units[first].due;
    for i in 1..count {
        due = earlier_of(due, units[first + i].due);
    }
    due
}

/// An MPU as it is sent, by the units that are sent and the ticks from which MPUs are named.
fn sent_mpu(
    programme: &Programme,
    spot: Spot,
    units: &[SentUnit],
    named: &[Option<LongTick>],
) -> SentMpu
    requires right { IsRight programme.now }
    requires spot { IsSpot programme.now spot }
    requires inside { spot.asset < length programme.now.assets }
    requires first { spot.unit ≡ 0 }
    requires units { units.now ≡ (cast_of programme.now).units }
    requires named { AreNamed (length (all_mpus programme.now)) (copies_as_sent programme.now) named.now }
    ensures { result ≡ mpu_as_sent programme.now spot.mpu_place (mpu_at programme.now spot.mpu_place) }
{
    let mpu = mpu_of(programme, spot);
    let time = last_time(mpu, asset_of(programme, spot).timescale);
    SentMpu {
        asset: spot.asset,
        mpu: spot.mpu,
        least: least_due(units, spot.unit_place as usize, mpu.units.len()),
        last: long_due_of(time),
        named_from: named[spot.mpu_place as usize],
    }
}

/// The MPUs of a programme.
pub(crate) fn mpus_of(
    alloc: Global,
    programme: &Programme,
    units: &[SentUnit],
    named: &[Option<LongTick>],
) -> Result<Vec<SentMpu>, OutOfMemory>
    requires right { IsRight programme.now }
    requires units { units.now ≡ (cast_of programme.now).units }
    requires named { AreNamed (length (all_mpus programme.now)) (copies_as_sent programme.now) named.now }
    ensures { IfOk result (λ mpus. mpus.items ≡ (cast_of programme.now).mpus) }
{
    let assets = programme.assets.len();
    let mut mpus = Vec::new(alloc);
    let mut spot = Spot::first();
    while (spot.asset as usize) < assets {
        mpus.push(sent_mpu(programme, spot, units, named))?;
        let size = mpu_of(programme, spot).units.len() as u32;
        spot = after(programme, spot, size);
    }
    Ok(mpus)
}

//! The units that are sent.

ghost use Rattle.std.specs.Prelude.{◌≡◌, ◌+◌, ◌<◌, ◌≤◌, ◌++◌, length, None, OnOk};
ghost use Rattle.mmt_cast.specs.Casting.{time_of_unit};
ghost use Rattle.mmt_cast.specs.Placing.{all_mpus};
ghost use Rattle.mmt_cast.specs.Refusing.{refusal_of_mpus};
ghost use Rattle.mmt_cast.specs.Right.{unit_at};
ghost use Rattle.mmt_casting.specs.Places.{IsSpot, placed_at};
ghost use Rattle.mmt_casting.specs.Spans.{unit_by, units_by};
ghost use Rattle.mmt_model.specs.Right.{IsRight};

use crate::counting::unit_of;
use crate::due::sample_time;
use crate::places::{Spot, asset_of, mpu_of};
use mmt_base::{LongTick, Ntp, OutOfMemory, long_due_of};
use mmt_model::{Programme, SentUnit, UnitKey};

/// The packets of a unit or of a table: their first and last timestamp, their first number and count.
#[derive(Clone, Copy, Debug)]
pub(crate) struct Run {
    pub first: LongTick,
    pub last: LongTick,
    pub first_number: u32,
    pub count: u32,
}

/// The time of a unit.
pub(crate) fn unit_time(programme: &Programme, spot: Spot) -> Ntp
    requires right { IsRight programme.now }
    requires timed { refusal_of_mpus (all_mpus programme.now) ≡ None }
    requires spot { IsSpot programme.now spot }
    requires inside { spot.asset < length programme.now.assets }
    ensures { result.0 ≡ time_of_unit (unit_at programme.now spot.unit_place) }
{
    let mpu = mpu_of(programme, spot);
    match unit_of(programme, spot).key {
        UnitKey::Timed { sample, .. } => {
            sample_time(mpu, asset_of(programme, spot).timescale, sample)
        }
        UnitKey::Item { .. } => mpu.time,
    }
}

/// A unit as it is sent in these packets.
fn sent_unit(programme: &Programme, spot: Spot, run: Run) -> SentUnit
    requires right { IsRight programme.now }
    requires timed { refusal_of_mpus (all_mpus programme.now) ≡ None }
    requires spot { IsSpot programme.now spot }
    requires inside { spot.asset < length programme.now.assets }
    ensures { result ≡ unit_by (unit_at programme.now spot.unit_place) run }
{
    let time = unit_time(programme, spot);
    SentUnit {
        asset: spot.asset,
        mpu: spot.mpu,
        unit: spot.unit,
        key: unit_of(programme, spot).key,
        time,
        due: long_due_of(time),
        first: run.first,
        last: run.last,
        first_number: run.first_number,
        count: run.count,
    }
}

/// The spot of a unit of the same MPU, N further.
fn further(programme: &Programme, spot: Spot, by: u32) -> Spot
    requires right { IsRight programme.now }
    requires spot { IsSpot programme.now spot }
    requires inside { spot.asset < length programme.now.assets }
    requires within { spot.unit + by < length (placed_at programme.now spot).value.units }
    ensures spot { IsSpot programme.now result }
    ensures asset { result.asset ≡ spot.asset }
    ensures place { result.unit_place ≡ spot.unit_place + by }
{
    Spot {
        unit: spot.unit + by,
        unit_place: spot.unit_place + by,
        ..spot
    }
}

/// Appends N units of one MPU, from one on, that are sent in these packets.
pub(crate) fn put_units(
    out: &mut Vec<SentUnit>,
    programme: &Programme,
    spot: Spot,
    size: u32,
    run: Run,
) -> Result<(), OutOfMemory>
    requires right { IsRight programme.now }
    requires timed { refusal_of_mpus (all_mpus programme.now) ≡ None }
    requires spot { IsSpot programme.now spot }
    requires inside { spot.asset < length programme.now.assets }
    requires within { spot.unit + size ≤ length (placed_at programme.now spot).value.units }
    ensures { OnOk result (out.new.items ≡ out.old.items ++ units_by programme.now run spot.unit_place size) }
{
    for k in 0..size {
        out.push(sent_unit(programme, further(programme, spot, k), run))?;
    }
    Ok(())
}

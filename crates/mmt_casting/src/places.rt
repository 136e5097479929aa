//! Where a walk over the units of a programme stands.

ghost use Rattle.std.specs.Prelude.{◌≡◌, ◌+◌, ◌<◌, ◌≤◌, ◌^◌, length};
ghost use Rattle.mmt_casting.specs.Places.{BeginsNext, IsSpot, asset_at, placed_at, spot_behind};
ghost use Rattle.mmt_model.specs.Right.{IsRight};
ghost use Rattle.mmt_model.specs.declared.programmes.Programme.{Programme};

use mmt_model::{Asset, Mpu, Programme};

/// A unit: the places of its asset, of its MPU there and of itself there, and the places of its MPU and
/// of itself among all. After the last unit the asset is the one after the last.
#[derive(Clone, Copy, Debug)]
pub(crate) struct Spot {
    pub asset: u32,
    pub mpu: u32,
    pub unit: u32,
    pub mpu_place: u32,
    pub unit_place: u32,
}

impl Spot {
    /// The first unit of a programme.
    pub fn first() -> Spot
        ensures spot { (programme : Programme) → IsRight programme → IsSpot programme result }
        ensures place { result.unit_place ≡ 0 }
        ensures unit { result.unit ≡ 0 }
        ensures mpu_place { result.mpu_place ≡ 0 }
    {
        Spot {
            asset: 0,
            mpu: 0,
            unit: 0,
            mpu_place: 0,
            unit_place: 0,
        }
    }
}

/// The asset of a spot.
pub(crate) fn asset_of(programme: &Programme, spot: Spot) -> &Asset
    requires { spot.asset < length programme.now.assets }
    ensures { result.now ≡ asset_at programme.now spot.asset }
{
    &programme.assets.as_slice()[spot.asset as usize]
}

/// The MPU of a spot.
pub(crate) fn mpu_of(programme: &Programme, spot: Spot) -> &Mpu
    requires spot { IsSpot programme.now spot }
    requires inside { spot.asset < length programme.now.assets }
    ensures { result.now ≡ (placed_at programme.now spot).value }
{
    &asset_of(programme, spot).mpus.as_slice()[spot.mpu as usize]
}

/// The spot N units after one, which are of one MPU with it.
pub(crate) fn after(programme: &Programme, spot: Spot, size: u32) -> Spot
    requires right { IsRight programme.now }
    requires spot { IsSpot programme.now spot }
    requires inside { spot.asset < length programme.now.assets }
    requires within { spot.unit + size ≤ length (placed_at programme.now spot).value.units }
    ensures spot { IsSpot programme.now result }
    ensures place { result.unit_place ≡ spot.unit_place + size }
    ensures low { spot.asset ≤ result.asset }
    ensures high { result.asset ≤ spot.asset + 1 }
    ensures whole { spot.unit + size ≡ length (placed_at programme.now spot).value.units → BeginsNext spot result }
{
    let mpus = asset_of(programme, spot).mpus.len();
    let units = mpu_of(programme, spot).units.len();
    let unit = spot.unit + size;
    let unit_place = spot.unit_place + size;
    if (unit as usize) < units {
        Spot {
            unit,
            unit_place,
            ..spot
        }
    } else {
        first_after(spot, mpus, unit_place)
    }
}

/// The first spot after an MPU of an asset with N, the unit there being at this place.
fn first_after(spot: Spot, mpus: usize, unit_place: u32) -> Spot
    requires mpu { spot.mpu + 1 < 2 ^ 32 }
    requires asset { spot.asset + 1 < 2 ^ 32 }
    requires mpu_place { spot.mpu_place + 1 < 2 ^ 32 }
    ensures value { result ≡ spot_behind spot mpus unit_place }
    ensures low { spot.asset ≤ result.asset }
    ensures high { result.asset ≤ spot.asset + 1 }
    ensures unit { result.unit ≡ 0 }
    ensures mpu_place { result.mpu_place ≡ spot.mpu_place + 1 }
{
    if (spot.mpu as usize) + 1 < mpus {
        Spot {
            asset: spot.asset,
            mpu: spot.mpu + 1,
            unit: 0,
            mpu_place: spot.mpu_place + 1,
            unit_place,
        }
    } else {
        Spot {
            asset: spot.asset + 1,
            mpu: 0,
            unit: 0,
            mpu_place: spot.mpu_place + 1,
            unit_place,
        }
    }
}

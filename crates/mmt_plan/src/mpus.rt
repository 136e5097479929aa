//! The MPUs of a plan.

ghost use Rattle.std.specs.Prelude.{◌≡◌, ◌<◌, ◌≤◌, ◌^◌, ℕ, IfOk};
ghost use Rattle.serde_json.specs.View.{view};
ghost use Rattle.mmt_plan.specs.Nodes.{nodes};
ghost use Rattle.mmt_model.specs.Right.{FitsAus, IsRightMpu, IsRightUnit};
ghost use Rattle.mmt_plan.specs.Reading.{IsAnswer};
ghost use Rattle.mmt_plan.specs.Mpus.{mpu_of, mpu_at, unit_in, most_aus};

use crate::ends::{PlanEnd, PlanPart};
use crate::members::{no_other, number as number_in, object};
use crate::parts::{Part, list, list_from};
use crate::spots::Spot;
use crate::units::unit;
use mmt_base::Ntp;
use mmt_model::{Mpu, Unit};
use serde_json::Value;
use std::alloc::Global;

impl Part for Unit {
    ghost item_at = { unit_in };

    ghost is_right = { λ s. IsRightUnit s.start s.timed };

    fn read(_alloc: Global, value: &Value, spot: Spot, number: u32) -> Result<Unit, PlanEnd> {
        match unit(value, spot.inner(PlanPart::Unit, number)) {
            Ok(unit) => Ok(unit),
            Err(refusal) => Err(refusal.into()),
        }
    }
}

// The most access units of an MPU: none where its units are not timed media.
fn most_aus(timed: bool) -> usize
    ensures value { result ≡ most_aus timed }
    ensures fits { (n : ℕ) → n ≤ result → FitsAus timed n }
{
    if timed { 60 } else { 0 }
}

/// The MPU that a value is.
#[tactic(auto, unfolding(crate::specs::Mpus::mpu_of))]
fn mpu(alloc: Global, value: &Value, spot: Spot) -> Result<Mpu, PlanEnd>
    requires start { spot.start ≤ 2 ^ 47 }
    requires small { nodes (view value.now) < 2 ^ 32 }
    ensures value { IsAnswer (mpu_of spot (view value.now)) result }
    ensures right { IfOk result (IsRightMpu spot.start spot.timed) }
{
    object(value, spot)?;
    let number = number_in(value, spot, 1, "number", 0, 0xFFFF_FFFF)?;
    let time = number_in(value, spot, 2, "time", 0, u64::MAX)?;
    let decoding_offset = number_in(value, spot, 3, "decoding_offset", 0, 0xFFFF)?;
    let most = most_aus(spot.timed);
    let aus = list(alloc, value, spot, 4, "aus", 0, most)?;
    let units = list_from(alloc, value, spot, 5, "units", 1)?;
    no_other(
        value,
        spot,
        &["number", "time", "decoding_offset", "aus", "units"],
    )?;
    Ok(Mpu {
        number: number as u32,
        time: Ntp(time),
        decoding_offset: decoding_offset as u16,
        aus,
        units,
    })
}

impl Part for Mpu {
    ghost item_at = { mpu_at };

    ghost is_right = { λ s. IsRightMpu s.start s.timed };

    fn read(alloc: Global, value: &Value, spot: Spot, number: u32) -> Result<Mpu, PlanEnd> {
        mpu(alloc, value, spot.inner(PlanPart::Mpu, number))
    }
}

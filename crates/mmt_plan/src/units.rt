//! The units of a plan.

ghost use Rattle.std.specs.Prelude.{◌≡◌, ◌≤◌, ◌^◌, true, false, IfOk};
ghost use Rattle.serde_json.specs.View.{view};
ghost use Rattle.mmt_model.specs.Right.{HasKeyOf, IsRightUnit};
ghost use Rattle.mmt_plan.specs.Units.{timed_at, item_at, header_at, unit_at};

use crate::ends::Refusal;
use crate::members::{no_other, number, object};
use crate::spots::Spot;
use mmt_base::LongTick;
use mmt_model::{Unit, UnitKey};
use serde_json::Value;

// The greatest distance from the start, in ticks.
const LAST_TICK: u64 = 1 << 47;

/// What the header of a unit says.
#[derive(Clone, Copy, Debug, PartialEq, Eq)]
pub struct UnitHeader {
    pub key: UnitKey,
    pub priority: u8,
    pub dependency: u8,
}

// The header of a unit of timed media.
#[tactic(auto, unfolding(crate::specs::Units::timed_at))]
fn timed(value: &Value, spot: Spot) -> Result<UnitHeader, Refusal>
    ensures value { result ≡ timed_at spot (view value.now) }
    ensures key { IfOk result (λ h. HasKeyOf true h.priority h.dependency h.key) }
{
    let movie_fragment = number(value, spot, 4, "movie_fragment", 0, 0xFFFF_FFFF)?;
    let sample = number(value, spot, 5, "sample", 0, 0xFFFF_FFFF)?;
    let offset = number(value, spot, 6, "offset", 0, 0xFFFF_FFFF)?;
    let priority = number(value, spot, 7, "priority", 0, 255)?;
    let dependency = number(value, spot, 8, "dependency", 0, 255)?;
    no_other(
        value,
        spot,
        &[
            "at",
            "from",
            "length",
            "movie_fragment",
            "sample",
            "offset",
            "priority",
            "dependency",
        ],
    )?;
    Ok(UnitHeader {
        key: UnitKey::Timed {
            movie_fragment: movie_fragment as u32,
            sample: sample as u32,
            offset: offset as u32,
        },
        priority: priority as u8,
        dependency: dependency as u8,
    })
}

// The header of an item.
#[tactic(auto, unfolding(crate::specs::Units::item_at))]
fn item(value: &Value, spot: Spot) -> Result<UnitHeader, Refusal>
    ensures value { result ≡ item_at spot (view value.now) }
    ensures key { IfOk result (λ h. HasKeyOf false h.priority h.dependency h.key) }
{
    let item = number(value, spot, 4, "item", 0, 0xFFFF_FFFF)?;
    no_other(value, spot, &["at", "from", "length", "item"])?;
    Ok(UnitHeader {
        key: UnitKey::Item { item: item as u32 },
        priority: 0,
        dependency: 0,
    })
}

// The header of a unit, and that it has no other member.
fn header(value: &Value, spot: Spot) -> Result<UnitHeader, Refusal>
    ensures value { result ≡ header_at spot.timed spot (view value.now) }
    ensures key { IfOk result (λ h. HasKeyOf spot.timed h.priority h.dependency h.key) }
{
    if spot.timed {
        timed(value, spot)
    } else {
        item(value, spot)
    }
}

/// The unit that a value is.
#[tactic(auto, unfolding(crate::specs::Units::unit_at))]
pub fn unit(value: &Value, spot: Spot) -> Result<Unit, Refusal>
    requires { spot.start ≤ 2 ^ 47 }
    ensures value { result ≡ unit_at spot (view value.now) }
    ensures right { IfOk result (IsRightUnit spot.start spot.timed) }
{
    object(value, spot)?;
    let at = number(value, spot, 1, "at", 0, LAST_TICK)?;
    let from = number(value, spot, 2, "from", 0, 1 << 40)?;
    let length = number(value, spot, 3, "length", 1, 16_777_216)?;
    let header = header(value, spot)?;
    Ok(Unit {
        at: LongTick(spot.start + at),
        from,
        length: length as u32,
        key: header.key,
        priority: header.priority,
        dependency: header.dependency,
    })
}

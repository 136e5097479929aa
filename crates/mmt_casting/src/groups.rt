//! Which units go into one payload.

ghost use Rattle.std.specs.Prelude.{◌≡◌, ◌<◌, ◌≤◌, ◌^◌, length, drop};
ghost use Rattle.mmt_casting.specs.Places.{bytes_of, fits, goes_in as goes, room_left, size_of};

use mmt_base::LongTick;
use mmt_model::Unit;

/// How many units a unit begins a group of, and, where these are several, their bytes in the payload.
#[derive(Clone, Copy, Debug)]
pub(crate) struct Group {
    pub size: u32,
    pub bytes: u32,
}

/// How many units fit, and what room they leave.
#[derive(Clone, Copy, Debug)]
struct Fit {
    count: u32,
    room: u32,
}

/// A unit is sent at this tick, is short, and fits.
fn goes_in(unit: &Unit, at: LongTick, header: u32, limit: u32, room: u32) -> bool
    requires short { limit ≤ 60000 }
    requires header { header ≤ 14 }
    ensures { result ≡ goes header limit at.0 room unit.now }
{
    unit.at.0 == at.0 && (unit.length <= limit && 2 + header + unit.length <= room)
}

/// How many units from one on fit.
fn fitting(units: &[Unit], first: u32, at: LongTick, header: u32, limit: u32) -> Fit
    requires inside { first ≤ length units.now }
    requires few { length units.now < 2 ^ 32 }
    requires short { limit ≤ 60000 }
    requires header { header ≤ 14 }
    ensures count { result.count ≡ fits header limit at.0 limit (drop first units.now) }
    ensures room { result.room ≡ room_left header limit at.0 limit (drop first units.now) }
    ensures within { result.room ≤ limit }
{
    let mut count = 0u32;
    let mut room = limit;
    for i in first as usize..units.len() {
        if !goes_in(&units[i], at, header, limit, room) {
            return Fit { count, room };
        }
        room -= 2 + header + units[i].length;
        count += 1;
    }
    Fit { count, room }
}

/// The group that a unit begins among those of its MPU.
#[tactic(auto, unfolding(crate::specs::Places::size_of, crate::specs::Places::bytes_of))]
pub(crate) fn group_of(units: &[Unit], first: u32, header: u32, limit: u32) -> Group
    requires inside { first < length units.now }
    requires few { length units.now < 2 ^ 32 }
    requires short { limit ≤ 60000 }
    requires header { header ≤ 14 }
    ensures size { result.size ≡ size_of header limit (drop first units.now) }
    ensures bytes { result.bytes ≡ bytes_of header limit (drop first units.now) }
{
    let unit = units[first as usize];
    if unit.length <= limit {
        let fit = fitting(units, first, unit.at, header, limit);
        Group {
            size: fit.count.max(1),
            bytes: limit - fit.room,
        }
    } else {
        Group { size: 1, bytes: 0 }
    }
}

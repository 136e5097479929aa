//! For how many ticks no time is due.

ghost use Rattle.std.specs.Prelude.{◌≡◌, ◌≤◌, false, true, map};
ghost use Rattle.std.specs.List.{list_any};
ghost use Rattle.mmt_times.specs.Quiet.{is_soon, has_soon, IsQuiet, Within};
ghost use Rattle.mmt_times.specs.SlotView.{slot_entry};
ghost use Rattle.mmt_times.specs.TimesLeft.{view_time};

use crate::slot::Slot;
use mmt_base::{Ntp, Tick, due_of};

// So many ticks that the time is not due in them after the clock, at most `most`.
fn quiet_time(time: Ntp, clock: Tick, most: u32) -> u32
    ensures at_most { result ≤ most }
    ensures quiet { is_soon clock.0 result time.0 ≡ false }
{
    let ahead = due_of(time).ahead_of(clock);
    if 1 <= ahead && ahead <= most {
        ahead - 1
    } else {
        most
    }
}

// The same of several times.
fn quiet_times(times: &[Ntp], clock: Tick, most: u32) -> u32
    ensures at_most { result ≤ most }
    ensures quiet { list_any (is_soon clock.0 result) (map view_time times.now) ≡ false }
{
    let mut ticks = most;
    for time in times {
        ticks = quiet_time(*time, clock, ticks);
    }
    ticks
}

// The same of the times of an entry.
fn quiet_slot(slot: &Slot, clock: Tick, most: u32) -> u32
    ensures at_most { result ≤ most }
    ensures quiet { has_soon clock.0 result (slot_entry slot.now) ≡ false }
{
    let rest = quiet_times(slot.aus(), clock, most);
    quiet_time(slot.time, clock, rest)
}

/// So many ticks that no time of these entries is due in them after the clock.
pub(crate) fn quiet_slots(slots: &[Slot], clock: Tick) -> u32
    ensures { IsQuiet clock.0 result (map slot_entry slots.now) }
{
    match slots.split_first() {
        Some((slot, rest)) => quiet_slot(slot, clock, quiet_slots(rest, clock)),
        None => u32::MAX,
    }
}

/// Whether a clock that goes from one tick to another stays within so many ticks after `start`.
pub(crate) fn is_within(start: Tick, ticks: u32, from: Tick, to: Tick) -> bool
    ensures { result ≡ true → Within start.0 ticks from.0 to.0 }
{
    let end = to.ahead_of(start);
    from.ahead_of(start) <= end && end <= ticks
}

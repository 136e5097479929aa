//! One live entry.
#![tactic(auto, unfolding(mmt_model::specs::Entries::last_due, mmt_model::specs::Handing::time_for))]

ghost use Rattle.std.specs.Prelude.{◌≡◌, ◌≤◌, length, map, take, nat_eq, max};
ghost use Rattle.std.specs.List.{fold, list_any};
ghost use Rattle.std.specs.Cmp.Lexicographic.{pointwise};
ghost use Rattle.mmt_base.specs.Ticks.{low, due_of as due_by, is_passed as is_passed_by};
ghost use Rattle.mmt_times.specs.TimesLeft.{view_time, times_left};

use crate::entry::Entry;
use crate::times::Times;
use mmt_base::{Ntp, Tick, due_of};
use mmt_model::UnitKey;

// An MPU's packet id, number and time, the times of its access units, which are the first `count` of
// `aus`, and the due tick of the greatest of all these times.
#[derive(Drop)]
pub(crate) struct Slot {
    pub(crate) packet_id: u16,
    pub(crate) mpu: u32,
    pub(crate) time: Ntp,
    last_due: Tick,
    count: usize,
    aus: [Ntp; 255],
    ghost fits: { count ≤ 255 },
    ghost is_last: { last_due.0 ≡ low (due_by (fold max time.0 (map view_time (take count aus)))) },
}

// Whether these are the times.
fn are(kept: &[Ntp], times: Times<'_>) -> bool
    ensures { result ≡ pointwise nat_eq (map view_time kept.now) (times_left times.entry) }
{
    let mut rest = kept;
    for time in times {
        match rest.split_first() {
            Some((first, others)) => {
                if *first != time {
                    return false;
                }
                rest = others;
            }
            None => return false,
        }
    }
    rest.is_empty()
}

// Copies the times to the front of an array.
fn copied(times: Times<'_>) -> [Ntp; 255]
    requires { length (times_left times) ≤ 255 }
    ensures { map view_time (take (length (times_left times.entry)) result) ≡ times_left times.entry }
{
    let mut aus = [Ntp(0); 255];
    let mut count = 0;
    for time in times {
        aus[count] = time;
        count += 1;
    }
    aus
}

// Whether the clock passes the due tick of one of these times on its way from one tick to another.
fn is_any_passed(times: &[Ntp], from: Tick, to: Tick) -> bool
    ensures { result ≡ list_any (λ t. is_passed_by (low (due_by t)) from.0 to.0) (map view_time times.now) }
{
    for time in times {
        if due_of(*time).is_passed(from, to) {
            return true;
        }
    }
    false
}

impl Slot {
    ghost use Rattle.std.specs.Prelude.{◌≡◌, take};
    ghost use Rattle.mmt_times.specs.Known.{has_due as due_within};
    ghost use Rattle.mmt_times.specs.SlotView.{slot_entry};
    ghost use Rattle.mmt_times.specs.EntryView.{view_entry};
    ghost use Rattle.mmt_times.specs.Learning.{has_same_times};
    ghost use Rattle.mmt_model.specs.Entries.{last_due as last_due_by};
    ghost use Rattle.mmt_model.specs.Handing.{time_for};
    ghost use Rattle.mmt_base.specs.Ticks.{low, is_passed as passed};

    // The slot of an entry.
    pub(crate) fn of(entry: &Entry<'_>) -> Slot
        ensures { slot_entry result ≡ view_entry entry.now }
    {
        Slot {
            packet_id: entry.packet_id(),
            mpu: entry.mpu(),
            time: entry.time(),
            last_due: due_of(entry.greatest()),
            count: entry.count() as usize,
            aus: copied(entry.times()),
        }
    }

    // The times of the access units.
    pub(crate) fn aus(&self) -> &[Ntp]
        ensures { result.now ≡ take self.now.count self.now.aus }
    {
        &self.aus[..self.count]
    }

    // Whether an entry has the same time and the same times of access units.
    pub(crate) fn has_times_of(&self, entry: &Entry<'_>) -> bool
        ensures { result ≡ has_same_times (slot_entry self.now) (view_entry entry.now) }
    {
        self.time == entry.time() && are(&self.aus[..self.count], entry.times())
    }

    // Whether the clock passes its last due tick on its way from one tick to another.
    pub(crate) fn is_passed(&self, from: Tick, to: Tick) -> bool
        ensures { result ≡ passed (low (last_due_by (slot_entry self.now))) from.0 to.0 }
    {
        self.last_due.is_passed(from, to)
    }

    // Whether the clock passes the due tick of one of its times on its way from one tick to another.
    pub(crate) fn has_due(&self, from: Tick, to: Tick) -> bool
        ensures { result ≡ due_within from.0 to.0 (slot_entry self.now) }
    {
        due_of(self.time).is_passed(from, to) || is_any_passed(&self.aus[..self.count], from, to)
    }

    // The time of the unit of this key, where the first access unit is of sample `base`.
    pub(crate) fn time_of(&self, base: u32, key: &UnitKey) -> Ntp
        ensures { result.0 ≡ time_for base (slot_entry self.now) key.now }
    {
        match key {
            UnitKey::Item { .. } => self.time,
            UnitKey::Timed { sample, .. } => {
                if base <= *sample && ((*sample - base) as usize) < self.count {
                    self.aus[(*sample - base) as usize]
                } else {
                    self.time
                }
            }
        }
    }
}

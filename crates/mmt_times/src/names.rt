//! The live entries of a receiver.

ghost use Rattle.std.specs.Prelude.{◌≡◌, ℕ, ◌+◌, ◌<◌, ◌≤◌, ◌++◌, [], ◌∷◌, List, length, map, vec_len, vec_capacity, option_map, not, IfOk};
ghost use Rattle.mmt_base.specs.Ticks.{low, is_after, is_passed};
ghost use Rattle.mmt_model.specs.Entries.{last_due, forget as remaining};
ghost use Rattle.mmt_times.specs.SlotView.{slot_entry};
ghost use Rattle.std.specs.List.{list_any};
ghost use Rattle.mmt_times.specs.Known.{entry_of, has_due as due_within};
ghost use Rattle.mmt_times.specs.EntryView.{view_entry};
ghost use Rattle.mmt_times.specs.Learning.{verdict};
ghost use Rattle.mmt_times.specs.LearnedView.{view_learned};

use crate::entry::Entry;
use crate::learned::Learned;
use crate::quiet::{is_within, quiet_slots};
use crate::slot::Slot;
use mmt_base::{Ntp, OutOfMemory, Tick, due_of};
use mmt_model::UnitKey;
use std::alloc::Global;
use std::marker::Model;

/// The live entries: the MPUs that tables have named, each with its time and the times of its
/// access units, until the clock passes the last of these. At most 1,024 are kept, of at most 255
/// access units each, in the order in which they were learned.
///
/// `new` takes room for all of them, and no later call takes memory.
#[derive(Drop)]
pub struct Names {
    slots: Vec<Slot>,
    sample_base: u32,
    // No time is due in so many ticks after this one.
    quiet_from: Tick,
    quiet: u32,
}

impl Model for Names {
    ghost use Rattle.std.specs.Prelude.{map, ◌≤◌, ◌<◌, ◌^◌, vec_capacity, vec_len};
    ghost use Rattle.mmt_times.specs.Quiet.{IsQuiet};
    ghost use Rattle.mmt_times.specs.Known.{Known, HasOneEach};
    ghost use Rattle.mmt_times.specs.SlotView.{slot_entry};

    ghost Value = { Known };

    ghost view = { λ n. record { entries = map slot_entry n.slots.items; sample_base = n.sample_base } };

    ghost invariant = { λ n. (1024 ≤ vec_capacity n.slots) × (vec_len n.slots ≤ 1024) × (n.sample_base ≤ 1) × HasOneEach (map slot_entry n.slots.items) × IsQuiet n.quiet_from.0 n.quiet (map slot_entry n.slots.items) × (n.quiet_from.0 < 2 ^ 32) };
}

// Keeps the slots that the clock does not pass on its way from one tick to another.
fn keep(slots: &mut Vec<Slot>, from: Tick, to: Tick)
    ensures entries { map slot_entry slots.new.items ≡ remaining from.0 to.0 (map slot_entry slots.old.items) }
    ensures room { vec_capacity slots.new ≡ vec_capacity slots.old }
    ensures fewer { vec_len slots.new ≤ vec_len slots.old }
{
    slots.retain(|slot| !slot.is_passed(from, to));
}

// The first slot of a packet id and MPU.
fn find(slots: &[Slot], packet_id: u16, mpu: u32) -> Option<&Slot>
    ensures { option_map (λ s. slot_entry s.now) result ≡ entry_of (map slot_entry slots.now) packet_id mpu }
{
    for slot in slots {
        if slot.packet_id == packet_id && slot.mpu == mpu {
            return Some(slot);
        }
    }
    None
}

// Whether the clock passes the due tick of a time of one of these slots on its way from one tick to another.
fn is_any_due(slots: &[Slot], from: Tick, to: Tick) -> bool
    ensures { result ≡ list_any (due_within from.0 to.0) (map slot_entry slots.now) }
{
    for slot in slots {
        if slot.has_due(from, to) {
            return true;
        }
    }
    false
}

// Whether an entry's last due tick is not after the clock.
#[tactic(auto, unfolding(mmt_model::specs::Entries::last_due))]
fn is_past(clock: Tick, entry: &Entry<'_>) -> bool
    ensures { result ≡ not (is_after (low (last_due (view_entry entry.now))) clock.0) }
{
    !due_of(entry.greatest()).is_after(clock)
}

// What becomes of an entry beside these slots.
fn asked(slots: &[Slot], clock: Tick, entry: &Entry<'_>) -> Learned
    ensures { view_learned result ≡ verdict clock.0 (map slot_entry slots.now) (view_entry entry.now) }
{
    if is_past(clock, entry) {
        return Learned::Past;
    }
    if let Some(kept) = find(slots, entry.packet_id(), entry.mpu()) {
        if kept.has_times_of(entry) {
            return Learned::Known;
        }
        return Learned::Differs { kept: kept.time };
    }
    if slots.len() >= 1024 {
        return Learned::EntriesFull;
    }
    Learned::New
}

// Adds a slot where there is room for it.
fn add(slots: &mut Vec<Slot>, slot: Slot)
    requires { vec_len slots.old < vec_capacity slots.old }
    ensures entries { map slot_entry slots.new.items ≡ map slot_entry slots.old.items ++ slot_entry slot ∷ [] }
    ensures room { vec_capacity slots.old ≤ vec_capacity slots.new }
    ensures more { vec_len slots.new ≡ vec_len slots.old + 1 }
{
    match slots.push(slot) {
        Ok(()) => {}
        Err(_) => unreachable!(),
    }
}

impl Names {
    ghost use Rattle.std.specs.Prelude.{◌≡◌, ◌≤◌, length, option_map, IfOk, []};
    ghost use Rattle.mmt_model.specs.Entries.{forget as remaining, learn_one};
    ghost use Rattle.mmt_times.specs.EntryView.{view_entry};
    ghost use Rattle.mmt_times.specs.Learning.{verdict};
    ghost use Rattle.mmt_times.specs.LearnedView.{view_learned, ChangesNothing};
    ghost use Rattle.mmt_times.specs.Known.{Known, HasOneEach, time_in};

    /// No entries yet. The first access unit of an MPU is that of sample number `sample_base`, which
    /// is to be 0 or 1. It takes room for 1,024 entries, about 2 MB.
    ///
    /// # Errors
    ///
    /// Want of memory.
    pub fn new(alloc: Global, sample_base: u32) -> Result<Names, OutOfMemory>
        requires { sample_base ≤ 1 }
        ensures { IfOk result (λ names. names ≡ record { entries = []; sample_base = sample_base }) }
    {
        let slots = Vec::with_capacity(alloc, 1024)?;
        Ok(Names {
            slots,
            sample_base,
            quiet_from: Tick(0),
            quiet: 0,
        })
    }

    /// Keeps an entry that a table names, where it is new.
    ///
    /// The first of these that holds is answered: `Past` where the due tick of the entry's greatest
    /// time is not after the clock, `Known` where its packet id and MPU have an entry with the same
    /// time and times, `Differs` where they have another entry, `EntriesFull` where 1,024 entries
    /// are kept, and else `New`. Every answer but `New` changes nothing.
    pub fn learn(&mut self, clock: Tick, entry: &Entry<'_>) -> Learned
        ensures answer { view_learned result ≡ verdict clock.0 self.old.entries (view_entry entry.now) }
        ensures entries { self.new.entries ≡ learn_one clock.0 self.old.entries (view_entry entry.now) }
        ensures same { self.new.sample_base ≡ self.old.sample_base }
        ensures unchanged { ChangesNothing result self.old self.new }
        ensures bounded { length self.new.entries ≤ 1024 }
    {
        let answer = asked(&self.slots, clock, entry);
        if let Learned::New = answer {
            add(&mut self.slots, Slot::of(entry));
            self.quiet = 0;
            return Learned::New;
        }
        answer
    }

    /// Forgets the entries whose last due tick the clock passes on its way from one tick to another:
    /// that of the greatest of an entry's times is after `from` and at most at `to`.
    pub fn forget(&mut self, from: Tick, to: Tick)
        ensures entries { self.new ≡ record { entries = remaining from.0 to.0 self.old.entries; sample_base = self.old.sample_base } }
        ensures bounded { length self.new.entries ≤ 1024 }
    {
        keep(&mut self.slots, from, to);
        if !is_within(self.quiet_from, self.quiet, from, to) {
            self.quiet = quiet_slots(&self.slots, to);
            self.quiet_from = to;
        }
    }

    /// The time of the unit of this packet id, MPU and key, in units of 2^-32 second: that of its
    /// access unit, where the MPU's entry has that many, and else the MPU's. `None` comes exactly
    /// where the MPU has no entry.
    pub fn time_of(&self, packet_id: u16, mpu: u32, key: &UnitKey) -> Option<Ntp>
        ensures { option_map (λ t. t.0) result ≡ time_in self.now packet_id mpu key.now }
    {
        let slot = find(&self.slots, packet_id, mpu)?;
        Some(slot.time_of(self.sample_base, key))
    }

    /// Whether the clock passes the due tick of any time of an entry, the MPU's or an access unit's, on
    /// its way from one tick to another. Where it does not, no unit is due, whatever is kept.
    pub fn is_any_due(&self, from: Tick, to: Tick) -> bool
        ensures { result ≡ list_any (due_within from.0 to.0) self.now.entries }
    {
        !is_within(self.quiet_from, self.quiet, from, to) && is_any_due(&self.slots, from, to)
    }

    /// How many entries there are, at most 1,024, of which no two are of the same MPU.
    pub fn len(&self) -> u32
        ensures count { result ≡ length self.now.entries }
        ensures bounded { result ≤ 1024 }
        ensures one_each { HasOneEach self.now.entries }
    {
        self.slots.len() as u32
    }
}

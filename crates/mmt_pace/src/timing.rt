//! The packets of a cast at the ticks of slots, and their order.

ghost use Rattle.std.specs.Prelude.{◌≡◌, ◌<◌, length, IfOk, OnOk};
ghost use Rattle.mmt_cast.specs.Casting.{is_sent_before};
ghost use Rattle.mmt_model.specs.Sorted.{sort_by};
ghost use Rattle.mmt_pace.specs.Asked.{AreApart, AreGiven, IsRow};
ghost use Rattle.mmt_pace.specs.Recast.{retimed as retimed_by, ticks_of};
ghost use Rattle.mmt_slots.specs.Schedule.{tick_of};

use mmt_base::{LongTick, OutOfMemory};
use mmt_model::Sent;
use mmt_slots::Slots;
use std::alloc::Global;

/// The tick of a slot.
fn slot_tick(slots: &Slots, slot: u32) -> LongTick
    requires row { IsRow slots.now }
    requires slot { slot < slots.now.count }
    ensures { result.0 ≡ tick_of slots.now slot }
{
    LongTick(slots.start + u64::from(slot) * u64::from(slots.step))
}

/// These packets at the ticks of the slots that are given to them.
pub(crate) fn retimed(
    alloc: Global,
    packets: &[Sent],
    given: &[u32],
    slots: &Slots,
) -> Result<Vec<Sent>, OutOfMemory>
    requires row { IsRow slots.now }
    requires given { AreGiven (length packets.now) slots.now given.now }
    ensures { IfOk result (λ moved. moved.items ≡ retimed_by (ticks_of slots.now given.now) packets.now) }
{
    let mut moved = Vec::with_capacity(alloc, packets.len())?;
    for n in 0..packets.len() {
        moved.push(Sent {
            at: slot_tick(slots, given[n]),
            ..packets[n]
        })?;
    }
    Ok(moved)
}

/// Puts packets of different timestamps into the order of a cast.
pub(crate) fn put_in_order(packets: &mut Vec<Sent>) -> Result<(), OutOfMemory>
    requires { AreApart packets.old.items }
    ensures { OnOk result (packets.new.items ≡ sort_by is_sent_before packets.old.items) }
{
    packets.sort_by_key(|packet| packet.at.0)?;
    Ok(())
}

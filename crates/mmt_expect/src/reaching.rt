//! How far a delivery is when a packet survives.

ghost use Rattle.std.specs.Prelude.{◌≡◌, ◌<◌, ◌^◌, ◌+◌, ℕ, nat_le, ◌==◌, ◌&&◌, if◌then◌else◌, length, slice_index, EachIndex, All, IfOk};
ghost use Rattle.mmt_expect.specs.Reaches.{AreReaches, never};
ghost use Rattle.mmt_model.specs.Delivery.{newest_first};
ghost use Rattle.mmt_model.specs.Survival.{AreOf, sent_at};
ghost use Rattle.mmt_model.specs.declared.casts.Sent.{Sent as SentPacket};

use mmt_base::OutOfMemory;
use mmt_model::Sent;
use std::alloc::Global;

/// A tick after each due tick: that of what never survives.
pub const NEVER: u64 = u64::MAX;

/// Takes an occurrence of a packet: where it is in time and the first such one, how far the delivery is.
fn take_occurrence(reaches: &mut [u64], place: usize, in_time: bool, greatest: u64)
    requires { place < length reaches.old }
    ensures long { length reaches.new ≡ length reaches.old }
    ensures each { (n : ℕ) → n < length reaches.old → slice_index reaches.new n ≡
        (if (place == n) && (in_time && (slice_index reaches.old n == never)) then greatest else slice_index reaches.old n) }
{
    if in_time && reaches[place] == NEVER {
        reaches[place] = greatest;
    }
}

/// The timestamp of the packet at a place, in ticks.
fn tick_at(packets: &[Sent], place: usize) -> u64
    requires { place < length packets.now }
    ensures { result ≡ sent_at packets.now place }
{
    packets[place].at.0
}

/// Whether a packet with a timestamp comes before another is more than the delay ahead of it.
fn is_in_time(greatest: u64, at: u64, delay: u32) -> bool
    requires { at < 2 ^ 60 }
    ensures { result ≡ nat_le greatest (at + delay) }
{
    greatest <= at + delay as u64
}

/// Takes all deliveries of a list, in their order, where none was taken before.
fn take_list(packets: &[Sent], delay: u32, list: &[u32], reaches: &mut [u64])
    requires of { AreOf packets.now list.now }
    requires ticks { All (λ (p : SentPacket). p.at.0 < 2 ^ 60) packets.now }
    requires long { length reaches.old ≡ length packets.now }
    requires none { EachIndex reaches.old (λ n. slice_index reaches.old n ≡ never) }
    ensures { AreReaches packets.now delay (newest_first list.now) reaches.new }
{
    let mut greatest = 0u64;
    for i in 0..list.len() {
        let place = list[i] as usize;
        let at = tick_at(packets, place);
        let in_time = is_in_time(greatest, at, delay);
        greatest = greatest.max(at);
        take_occurrence(reaches, place, in_time, greatest);
    }
}

/// For each packet of a cast the greatest timestamp of a delivery up to the occurrence by which the packet survives, in
/// ticks, and `NEVER` where it does not.
pub fn reaches(
    alloc: Global,
    packets: &[Sent],
    delay: u32,
    list: &[u32],
) -> Result<Vec<u64>, OutOfMemory>
    requires of { AreOf packets.now list.now }
    requires ticks { All (λ (p : SentPacket). p.at.0 < 2 ^ 60) packets.now }
    ensures { IfOk result (λ reaches. AreReaches packets.now delay (newest_first list.now) reaches.items) }
{
    let mut reaches = vec![in alloc; NEVER; packets.len()]?;
    take_list(packets, delay, list, &mut reaches);
    Ok(reaches)
}

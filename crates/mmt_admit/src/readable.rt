//! Which casts admission may be asked about.

ghost use Rattle.std.specs.Prelude.{◌≡◌, ◌<◌, ◌↔◌, ◌^◌, ℕ, true, length, All};
ghost use Rattle.mmt_admit.specs.Faults.{CopyFits, IsReadable, MpuFits, PacketsFit, TickFits, UnitFits};
ghost use Rattle.mmt_model.specs.Carrying.{sent_mpu, sent_unit, table_copy};

use crate::reads::{copy_first, copy_last, copy_names, mpu_at, unit_at};
use mmt_base::LongTick;
use mmt_model::{Cast, Sent};

// The ticks of a cast are below this one: 2^60.
const END: u64 = 1_152_921_504_606_846_976;

// Whether the packets are few, and their timestamps in range.
fn packets_fit(packets: &[Sent]) -> bool
    ensures { (result ≡ true) ↔ PacketsFit packets.now }
{
    if packets.len() > 16_777_216 {
        return false;
    }
    for n in 0..packets.len() {
        if packets[n].at.0 >= END {
            return false;
        }
    }
    true
}

// Whether the ticks of all units are in range.
fn units_fit(cast: &Cast) -> bool
    ensures { (result ≡ true) ↔ ((u : ℕ) → u < length cast.now.units → UnitFits (sent_unit cast.now u)) }
{
    for u in 0..cast.units.len() {
        let unit = unit_at(cast, u);
        if unit.first.0 >= END || unit.last.0 >= END || unit.due.0 >= END {
            return false;
        }
    }
    true
}

// Whether a tick that may be there is in range.
fn tick_fits(tick: Option<LongTick>) -> bool
    ensures { (result ≡ true) ↔ TickFits tick }
{
    match tick {
        Some(tick) => tick.0 < END,
        None => true,
    }
}

// Whether the ticks of all MPUs are in range.
fn mpus_fit(cast: &Cast) -> bool
    ensures { (result ≡ true) ↔ ((m : ℕ) → m < length cast.now.mpus → MpuFits (sent_mpu cast.now m)) }
{
    for m in 0..cast.mpus.len() {
        let mpu = mpu_at(cast, m);
        if mpu.least.0 >= END || mpu.last.0 >= END || !tick_fits(mpu.named_from) {
            return false;
        }
    }
    true
}

// Whether all places are below this number.
fn places_fit(places: &[u32], end: usize) -> bool
    ensures { (result ≡ true) ↔ All (λ m. m < end) places.now }
{
    for i in 0..places.len() {
        if places[i] as usize >= end {
            return false;
        }
    }
    true
}

// Whether the ticks of all table copies, and the places that they name, are in range.
fn copies_fit(cast: &Cast) -> bool
    ensures { (result ≡ true) ↔ ((c : ℕ) → c < length cast.now.copies → CopyFits (length cast.now.mpus) (table_copy cast.now c)) }
{
    let mpus = cast.mpus.len();
    for c in 0..cast.copies.len() {
        if copy_first(cast, c) >= END
            || copy_last(cast, c) >= END
            || !places_fit(copy_names(cast, c), mpus)
        {
            return false;
        }
    }
    true
}

// Whether there are fewer than 2^32 units, MPUs and table copies each.
fn lists_fit(cast: &Cast) -> bool
    ensures { (result ≡ true) ↔ ((length cast.now.units < 2 ^ 32) × (length cast.now.mpus < 2 ^ 32) × (length cast.now.copies < 2 ^ 32)) }
{
    let end = 4_294_967_296;
    cast.units.len() < end && cast.mpus.len() < end && cast.copies.len() < end
}

/// Whether `admit` may be asked about a cast: at most 16,777,216 packets, fewer than 2^32 units, MPUs and
/// table copies each, ticks below 2^60, and each place that a copy names that of an MPU of the cast. The
/// cast of a right programme is such a one. It takes no memory.
pub fn is_readable(cast: &Cast) -> bool
    ensures { (result ≡ true) ↔ IsReadable cast.now }
{
    packets_fit(cast.packets.as_slice())
        && lists_fit(cast)
        && units_fit(cast)
        && mpus_fit(cast)
        && copies_fit(cast)
}

//! The count of expected units.

ghost use Rattle.std.specs.Prelude.{◌≡◌, ◌<◌, ◌≤◌, ℕ, List as Items, None, length, IfOk};
ghost use Rattle.mmt_cast.specs.Casting.{cast_of as cast_by};
ghost use Rattle.mmt_cast.specs.Refusing.{refusal};
ghost use Rattle.mmt_casting.specs.Spans.{starts as starts_by};
ghost use Rattle.mmt_expect.specs.Found.{IsFound, is_found};
ghost use Rattle.mmt_model.specs.Admission.{fault};
ghost use Rattle.mmt_model.specs.Carrying.{Contents, IsCastOf, mpu_of, sent_unit};
ghost use Rattle.mmt_model.specs.Entries.{Entry};
ghost use Rattle.mmt_model.specs.Received.{expected_in};
ghost use Rattle.mmt_model.specs.Right.{IsRight};
ghost use Rattle.mmt_model.specs.Survival.{AreOf};

use crate::naming::named;
use crate::raising::latest_reaches;
use crate::reaching::{NEVER, reaches};
use crate::tuning::tuned;
use mmt_base::OutOfMemory;
use mmt_model::{Cast, Programme, SentUnit};
use std::alloc::Global;

/// What is found of a delivery: how far it is when all packets of each unit have survived, and when each MPU is first
/// named; and how many MPUs stand before those of each asset.
#[derive(Drop)]
pub struct Found {
    pub units: Vec<u64>,
    pub named: Vec<u64>,
    pub starts: Vec<u32>,
}

/// How many MPUs stand before those of each asset.
fn starts_of(alloc: Global, programme: &Programme) -> Result<Vec<u32>, OutOfMemory>
    requires { IsRight programme.now }
    ensures { IfOk result (λ list. list.items ≡ starts_by programme.now) }
{
    let assets = programme.assets.as_slice();
    let mut starts = Vec::new(alloc);
    let mut sum = 0u32;
    for a in 0..assets.len() {
        starts.push(sum)?;
        sum += assets[a].mpus.len() as u32;
    }
    Ok(starts)
}

/// Finds it, in one walk over the deliveries, one over the packets and one over what table copies name.
fn find_units(
    alloc: Global,
    programme: &Programme,
    cast: &Cast,
    list: &[u32],
) -> Result<Found, OutOfMemory>
    requires right { IsRight programme.now }
    requires none { refusal programme.now ≡ None }
    requires cast { cast.now ≡ cast_by programme.now }
    requires of { AreOf cast.now.packets list.now }
    ensures { IfOk result (λ f. IsFound programme.now cast.now list.now f) }
{
    let packets = cast.packets.as_slice();
    let from = tuned(cast, programme.full_every, list);
    let reaches = reaches(alloc, packets, cast.params.delay, from)?;
    let latest = latest_reaches(
        alloc,
        packets,
        reaches.as_slice(),
        cast.units.len(),
        programme.signals.len(),
    )?;
    let named = named(
        alloc,
        cast.copies.as_slice(),
        latest.signals.as_slice(),
        cast.mpus.len(),
    )?;
    let starts = starts_of(alloc, programme)?;
    Ok(Found {
        units: latest.units,
        named,
        starts,
    })
}

/// The unit at a place of the cast.
fn unit_at(cast: &Cast, unit: usize) -> SentUnit
    requires { unit < length cast.now.units }
    ensures { result ≡ sent_unit cast.now unit }
{
    cast.units.as_slice()[unit]
}

/// The place of a unit's MPU among the MPUs of the cast.
fn place_of_mpu(programme: &Programme, cast: &Cast, starts: &[u32], unit: usize) -> usize
    requires cast { cast.now ≡ cast_by programme.now }
    requires right { IsRight programme.now }
    requires starts { starts.now ≡ starts_by programme.now }
    requires unit { unit < length cast.now.units }
    ensures place { result ≡ mpu_of cast.now unit }
    ensures within { result < length cast.now.mpus }
{
    let sent = unit_at(cast, unit);
    starts[sent.asset as usize] as usize + sent.mpu as usize
}

/// Whether a unit is expected: all its packets survive, and its MPU is named before its due tick.
fn is_expected(programme: &Programme, cast: &Cast, found: &Found, unit: usize) -> bool
    requires cast { cast.now ≡ cast_by programme.now }
    requires right { IsRight programme.now }
    requires starts { found.now.starts.items ≡ starts_by programme.now }
    requires units { length found.now.units.items ≡ length cast.now.units }
    requires named { length found.now.named.items ≡ length cast.now.mpus }
    requires unit { unit < length cast.now.units }
    ensures { result ≡ is_found cast.now found.now unit }
{
    let mpu = place_of_mpu(programme, cast, found.starts.as_slice(), unit);
    let due = unit_at(cast, unit).due.0;
    found.units.as_slice()[unit] < NEVER && found.named.as_slice()[mpu] < due
}

/// How many units are expected of a list of deliveries of an admitted cast of a right programme, each the place of one of
/// its packets. It takes memory for each packet, unit, MPU and signalling message, and none for each delivery.
///
/// # Errors
///
/// There is no memory.
pub fn expected_units(
    alloc: Global,
    programme: &Programme,
    cast: &Cast,
    list: &[u32],
) -> Result<u64, OutOfMemory>
    requires right { IsRight programme.now }
    requires none { refusal programme.now ≡ None }
    requires cast { cast.now ≡ cast_by programme.now }
    requires admitted { fault cast.now ≡ None }
    requires of { AreOf cast.now.packets list.now }
    ensures { (contents : Contents) (names_in : Items ℕ → Items Entry) → IsCastOf cast.now contents names_in →
        IfOk result (λ n. n ≡ length (expected_in cast.now contents programme.now.full_every list.now)) }
{
    let found = find_units(alloc, programme, cast, list)?;
    let mut count = 0u64;
    for unit in 0..cast.units.len() {
        if is_expected(programme, cast, &found, unit) {
            count += 1;
        }
    }
    Ok(count)
}

//! Too many live MPUs at the end of a table copy (rule A7).

ghost use Rattle.std.specs.Prelude.{◌≡◌, ◌<◌, ◌^◌, ◌&&◌, nat_lt, length, IfOk, IfErr, None, Some};
ghost use Rattle.mmt_admit.specs.Calm.{IsCalm, live_between};
ghost use Rattle.mmt_admit.specs.Faults.{as_fault, fault_value, IsReadable};
ghost use Rattle.mmt_model.specs.Admission.{fault_of_live, first_below, is_named_by};

use crate::answers::{NotAdmitted, Rule, unless};
use crate::reads::{copy_last, mpu_at, widened};
use mmt_base::LongTick;
use mmt_model::{Cast, SentMpu};

// The first step of a stretch of ticks: a second.
const STEP: u64 = 65_536;

/// Ticks from `low` to `high`, at none of which too many MPUs are live, and how far the next such
/// stretch is tried to go.
#[derive(Clone, Copy, Debug, PartialEq, Eq)]
pub(crate) struct Calm {
    pub low: u64,
    pub high: u64,
    pub step: u64,
}

/// Whether an MPU is named at a tick or before it.
fn is_named(tick: u64, from: Option<LongTick>) -> bool
    ensures { result ≡ is_named_by tick from }
{
    match from {
        Some(from) => from.0 <= tick,
        None => false,
    }
}

/// Whether an MPU is named at a tick or before it and has a last due tick after an earlier one.
fn is_live(mpu: &SentMpu, low: u64, high: u64) -> bool
    ensures { result ≡ (is_named_by high mpu.now.named_from && nat_lt low mpu.now.last.0) }
{
    is_named(high, mpu.named_from) && low < mpu.last.0
}

/// How many MPUs are named at a tick or before it and have a last due tick after an earlier one.
fn living(cast: &Cast, low: u64, high: u64) -> u32
    requires { length cast.now.mpus < 2 ^ 32 }
    ensures { result ≡ live_between cast.now.mpus low high }
{
    let mut count = 0u32;
    for m in 0..cast.mpus.len() {
        let mpu = mpu_at(cast, m);
        if is_live(&mpu, low, high) {
            count += 1;
        }
    }
    count
}

/// The fault of a table copy at whose end too many MPUs are live.
#[tactic(auto, unfolding(mmt_model::specs::Admission::fault_of_live, mmt_model::specs::Admission::live_at, crate::specs::Calm::live_between))]
fn live_fault(cast: &Cast, c: usize) -> Option<NotAdmitted>
    requires readable { IsReadable cast.now }
    requires copy { c < length cast.now.copies }
    ensures { as_fault result ≡ fault_of_live cast.now c }
{
    let tick = copy_last(cast, c);
    let count = widened(living(cast, tick, tick));
    unless(count <= 1024, Rule::A7, c as u32, count, 1024)
}

/// A stretch with the end of a table copy, or the copy's fault. The MPUs are counted once for a longer
/// stretch than that before, and only where too many could be live in it for the copy alone.
fn calm_at(cast: &Cast, c: usize, calm: Calm) -> Result<Calm, NotAdmitted>
    requires readable { IsReadable cast.now }
    requires copy { c < length cast.now.copies }
    requires calm { IsCalm cast.now.mpus calm }
    ensures calm { IfOk result (IsCalm cast.now.mpus) }
    ensures none { IfOk result (λ _. fault_of_live cast.now c ≡ None) }
    ensures fault { IfErr result (λ e. Some (fault_value e) ≡ fault_of_live cast.now c) }
{
    let tick = copy_last(cast, c);
    if calm.low <= tick && tick <= calm.high {
        return Ok(calm);
    }
    let high = tick.saturating_add(calm.step);
    if living(cast, tick, high) <= 1024 {
        let step = calm.step.saturating_mul(2);
        return Ok(Calm {
            low: tick,
            high,
            step,
        });
    }
    match live_fault(cast, c) {
        Some(found) => Err(found),
        None => Ok(Calm {
            low: tick,
            high: tick,
            step: (calm.step / 2).max(1),
        }),
    }
}

/// The first table copy at whose end too many MPUs are live. Where a cast has no more than 1,024 MPUs
/// nothing is counted.
pub(crate) fn first_live(cast: &Cast) -> Option<NotAdmitted>
    requires { IsReadable cast.now }
    ensures { as_fault result ≡ first_below (fault_of_live cast.now) (length cast.now.copies) }
{
    if cast.mpus.len() <= 1024 {
        return None;
    }
    // No tick.
    let mut calm = Calm {
        low: 1,
        high: 0,
        step: STEP,
    };
    for c in 0..cast.copies.len() {
        match calm_at(cast, c, calm) {
            Ok(next) => calm = next,
            Err(found) => return Some(found),
        }
    }
    None
}

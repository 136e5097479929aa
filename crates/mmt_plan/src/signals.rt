//! The signalling messages of a plan.

ghost use Rattle.std.specs.Prelude.{◌≡◌, ◌<◌, ◌≤◌, ◌^◌, None, IfOk, true};
ghost use Rattle.serde_json.specs.View.{view};
ghost use Rattle.mmt_plan.specs.Nodes.{nodes};
ghost use Rattle.mmt_model.specs.Right.{AreRising, IsFrom};
ghost use Rattle.mmt_plan.specs.Alone.{IsSignalAlone};
ghost use Rattle.mmt_plan.specs.Reading.{IsAnswer};
ghost use Rattle.mmt_plan.specs.Signals.{pair_at, is_table_at, names_at, parameters_of, table_of, is_above, rises_after, signal_of, signal_at};

use crate::aus::pair_up_to;
use crate::ends::{PlanEnd, PlanPart, Reason, Refusal};
use crate::members::{member, no_other, number, object};
use crate::parts::{Part, list_from};
use crate::spots::Spot;
use mmt_base::LongTick;
use mmt_model::{List, Signal};
use serde_json::Value;
use std::alloc::Global;

// The greatest distance from the start, in ticks.
const LAST_TICK: u64 = 1 << 47;

impl Part for (u32, u32) {
    ghost item_at = { pair_at };

    ghost is_right = { λ _ _. Unit {0} };

    #[tactic(auto, unfolding(crate::specs::Signals::pair_at))]
    fn read(
        _alloc: Global,
        value: &Value,
        spot: Spot,
        _number: u32,
    ) -> Result<(u32, u32), PlanEnd> {
        match pair_up_to(value, 0xFFFF_FFFF) {
            Some((asset, mpu)) => Ok((asset as u32, mpu as u32)),
            None => Err(spot.refused(Reason::Value, 3).into()),
        }
    }
}

// Whether each pair is above the one before it, by its first number and then by its second.
fn is_rising(pairs: &[(u32, u32)]) -> bool
    ensures { result ≡ rises_after None pairs.now }
{
    let mut last = None;
    for pair in pairs {
        if !is_above(*pair, last) {
            return false;
        }
        last = Some(*pair);
    }
    true
}

// Whether a pair is above another, or there is no other.
fn is_above(pair: (u32, u32), last: Option<(u32, u32)>) -> bool
    ensures { result ≡ is_above last pair }
{
    match last {
        None => true,
        Some(last) => last.0 < pair.0 || (last.0 == pair.0 && last.1 < pair.1),
    }
}

// The MPUs that a table names.
#[tactic(auto, using(crate::proofs::Rising::rising), unfolding(crate::specs::Signals::names_at))]
fn names(alloc: Global, value: &Value, spot: Spot) -> Result<List<(u32, u32)>, PlanEnd>
    requires start { spot.start ≤ 2 ^ 47 }
    requires small { nodes (view value.now) < 2 ^ 32 }
    ensures value { IsAnswer (names_at spot (view value.now)) result }
    ensures right { IfOk result AreRising }
{
    let names = list_from(alloc, value, spot, 3, "names", 0)?;
    if is_rising(names.as_slice()) {
        Ok(names)
    } else {
        Err(spot.refused(Reason::Value, 3).into())
    }
}

// Whether a message is a table.
#[tactic(auto, unfolding(crate::specs::Signals::is_table_at))]
fn is_table(value: &Value, spot: Spot) -> Result<bool, Refusal>
    ensures { result ≡ is_table_at spot (view value.now) }
{
    match member(value, spot, 2, "kind")?.as_str() {
        Some(kind) if kind == "table" => Ok(true),
        Some(kind) if kind == "parameters" => Ok(false),
        _ => Err(spot.refused(Reason::Value, 2)),
    }
}

// The buffer message of this tick.
#[tactic(auto, unfolding(crate::specs::Signals::parameters_of))]
fn parameters(value: &Value, spot: Spot, at: LongTick) -> Result<Signal, Refusal>
    ensures value { result ≡ parameters_of at spot (view value.now) }
    ensures right { IfOk result (λ s. IsFrom spot.start at → IsSignalAlone spot.start s) }
{
    no_other(value, spot, &["at", "kind"])?;
    Ok(Signal::Parameters { at })
}

// The table of this tick.
#[tactic(auto, unfolding(crate::specs::Signals::table_of))]
fn table(alloc: Global, value: &Value, spot: Spot, at: LongTick) -> Result<Signal, PlanEnd>
    requires start { spot.start ≤ 2 ^ 47 }
    requires small { nodes (view value.now) < 2 ^ 32 }
    ensures value { IsAnswer (table_of at spot (view value.now)) result }
    ensures right { IfOk result (λ s. IsFrom spot.start at → IsSignalAlone spot.start s) }
{
    let names = names(alloc, value, spot)?;
    no_other(value, spot, &["at", "kind", "names"])?;
    Ok(Signal::Table { at, names })
}

// The signalling message that a value is.
#[tactic(auto, unfolding(crate::specs::Signals::signal_of))]
fn signal(alloc: Global, value: &Value, spot: Spot) -> Result<Signal, PlanEnd>
    requires start { spot.start ≤ 2 ^ 47 }
    requires small { nodes (view value.now) < 2 ^ 32 }
    ensures value { IsAnswer (signal_of spot (view value.now)) result }
    ensures right { IfOk result (IsSignalAlone spot.start) }
{
    object(value, spot)?;
    let at = number(value, spot, 1, "at", 0, LAST_TICK)?;
    let at = LongTick(spot.start + at);
    if is_table(value, spot)? {
        table(alloc, value, spot, at)
    } else {
        let signal = parameters(value, spot, at)?;
        Ok(signal)
    }
}

impl Part for Signal {
    ghost item_at = { signal_at };

    ghost is_right = { λ s. IsSignalAlone s.start };

    fn read(alloc: Global, value: &Value, spot: Spot, number: u32) -> Result<Signal, PlanEnd> {
        signal(alloc, value, spot.inner(PlanPart::Signal, number))
    }
}

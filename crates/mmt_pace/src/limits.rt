//! Until when the packets of a cast may be sent.

ghost use Rattle.std.specs.Prelude.{◌≡◌, ◌+◌, ◌<◌, ◌≤◌, ◌^◌, length, map, IfOk, All};
ghost use Rattle.mmt_cast.specs.Casting.{least as least_among};
ghost use Rattle.mmt_model.specs.Carrying.{copy_place, least_with, numbers};
ghost use Rattle.mmt_pace.specs.Asked.{AreListed, CanBePaced, IsCarriedBy};
ghost use Rattle.mmt_pace.specs.Deadlines.{copy_limit as limit_of_copy, latest_for as latest};
ghost use Rattle.mmt_pace.specs.Deadlines.{name_limit as limit_of_name, own_limit as limit_of};
ghost use Rattle.mmt_pace.specs.Deadlines.{unit_limit as limit_of_unit, window_limit as limit_of_window};
ghost use Rattle.mmt_pace.specs.Spanned.{least_limit, least_limits, least_of};

use mmt_base::{LongTick, OutOfMemory};
use mmt_model::{Carries, Cast, Sent, TableCopy};
use std::alloc::Global;

/// The last tick from which the delay ends before a due tick, and 0 where there is none.
fn latest_for(due: LongTick, delay: u32) -> u64
    ensures { result ≡ latest delay due.0 }
{
    due.0.saturating_sub(u64::from(delay) + 1)
}

/// The lesser of a tick and one that may be there.
pub(crate) fn lesser(limit: u64, other: Option<u64>) -> u64
    ensures { result ≡ least_with limit other }
{
    match other {
        None => limit,
        Some(other) => limit.min(other),
    }
}

/// Until when a packet of a unit may be sent.
#[tactic(auto, unfolding(crate::specs::Deadlines::unit_limit, mmt_model::specs::Carrying::sent_unit))]
fn unit_limit(cast: &Cast, unit: u32) -> u64
    requires { unit < length cast.now.units }
    ensures { result ≡ limit_of_unit cast.now unit }
{
    let units = cast.units.as_slice();
    latest_for(units[unit as usize].due, cast.params.delay)
}

/// Until when a packet of several units may be sent.
fn group_limit(cast: &Cast, first: u32, count: u32) -> u64
    requires some { 1 ≤ count }
    requires known { first + count ≤ length cast.now.units }
    requires few { length cast.now.units < 2 ^ 32 }
    ensures { result ≡ least_among (map (limit_of_unit cast.now) (numbers first count)) }
{
    let mut limit = unit_limit(cast, first);
    for k in 1..count {
        limit = unit_limit(cast, first + k).min(limit);
    }
    limit
}

/// Until when a packet of a table copy that ends at a tick may be sent for an MPU that it names.
#[tactic(auto, unfolding(crate::specs::Deadlines::name_limit, mmt_model::specs::Carrying::sent_mpu))]
fn name_limit(cast: &Cast, last: LongTick, mpu: u32) -> u64
    requires known { mpu < length cast.now.mpus }
    requires last { last.0 < 2 ^ 60 }
    ensures { result ≡ limit_of_name cast.now last.0 mpu }
{
    let mpus = cast.mpus.as_slice();
    let sent = mpus[mpu as usize];
    let delay = cast.params.delay;
    if last.0 + u64::from(delay) < sent.least.0 {
        latest_for(sent.least, delay)
    } else {
        latest_for(sent.last, delay)
    }
}

/// The least limit of the MPUs that a table copy names, where it names one.
fn names_limit(cast: &Cast, last: LongTick, names: &[u32]) -> Option<u64>
    requires known { All (λ m. m < length cast.now.mpus) names.now }
    requires last { last.0 < 2 ^ 60 }
    ensures { result ≡ least_of (map (limit_of_name cast.now last.0) names.now) }
{
    let mut limit = None;
    for i in 0..names.len() {
        limit = Some(lesser(name_limit(cast, last, names[i]), limit));
    }
    limit
}

/// The least limit of the MPUs that each table copy names, where it names one. Each is worked out once for all
/// packets of its copy.
pub(crate) fn copy_limits(alloc: Global, cast: &Cast) -> Result<Vec<Option<u64>>, OutOfMemory>
    requires { CanBePaced cast.now }
    ensures { IfOk result (λ limits. limits.items ≡ least_limits cast.now) }
{
    let copies = cast.copies.as_slice();
    let mut limits = Vec::with_capacity(alloc, copies.len())?;
    for i in 0..copies.len() {
        let copy = &copies[i];
        limits.push(names_limit(cast, copy.last, copy.names.as_slice()))?;
    }
    Ok(limits)
}

/// The place of the table copy that is a signalling message.
pub(crate) fn place_of_copy(copies: &[TableCopy], signal: u32) -> usize
    requires listed { AreListed copies.now }
    requires known { copy_place copies.now signal < length copies.now }
    ensures { result ≡ copy_place copies.now signal }
{
    copies.partition_point(|copy| copy.signal < signal)
}

/// Until when a packet that is sent at a tick may be sent, where no unit and no MPU says when.
fn window_limit(cast: &Cast, at: LongTick) -> u64
    requires { at.0 < 2 ^ 60 }
    ensures { result ≡ limit_of_window cast.now at.0 }
{
    at.0 + u64::from(cast.params.window)
}

/// Until when a packet of a table copy that is sent at a tick may be sent, by the limits of all copies.
fn copy_limit(cast: &Cast, limits: &[Option<u64>], at: LongTick, signal: u32) -> u64
    requires listed { AreListed cast.now.copies }
    requires known { copy_place cast.now.copies signal < length cast.now.copies }
    requires at { at.0 < 2 ^ 60 }
    requires limits { limits.now ≡ least_limits cast.now }
    ensures { result ≡ limit_of_copy cast.now at.0 signal }
{
    let place = place_of_copy(cast.copies.as_slice(), signal);
    match limits[place] {
        Some(limit) => limit,
        None => window_limit(cast, at),
    }
}

/// Until when a packet may be sent for its own sake, by the limits of all table copies.
#[tactic(auto, unfolding(crate::specs::Deadlines::own_limit, crate::specs::Deadlines::carried_limit))]
pub(crate) fn own_limit(cast: &Cast, limits: &[Option<u64>], packet: &Sent) -> u64
    requires cast { CanBePaced cast.now }
    requires carried { IsCarriedBy cast.now packet.now.carries }
    requires at { packet.now.at.0 < 2 ^ 60 }
    requires limits { limits.now ≡ least_limits cast.now }
    ensures { result ≡ limit_of cast.now packet.now }
{
    match packet.carries {
        Carries::Whole { unit } => unit_limit(cast, unit),
        Carries::Fragment { unit, .. } => unit_limit(cast, unit),
        Carries::Group { first, count } => group_limit(cast, first, count),
        Carries::Parameters { .. } => window_limit(cast, packet.at),
        Carries::Table { signal } => copy_limit(cast, limits, packet.at, signal),
        Carries::TablePart { signal, .. } => copy_limit(cast, limits, packet.at, signal),
    }
}

//! A cast that is paced with a step.

ghost use Rattle.std.specs.Prelude.{◌≡◌, ◌≤◌, ◌^◌, map, IfOk, MatchResult, Ok, Err};
ghost use Rattle.mmt_admit.specs.Faults.{IsReadable};
ghost use Rattle.mmt_cast.specs.Casting.{cast_of, greatest};
ghost use Rattle.mmt_model.specs.Survival.{sent_at};
ghost use Rattle.mmt_model.specs.declared.programmes.Programme.{Programme};
ghost use Rattle.mmt_pace.specs.Asked.{CanBePaced};
ghost use Rattle.mmt_pace.specs.Deadlines.{jobs_by};
ghost use Rattle.mmt_pace.specs.Pacing.{Paces, deadline_by, slots_by, slots_to as slots_to_tick};
ghost use Rattle.mmt_pace.specs.Recast.{IsItsCast};

use crate::jobs::jobs_of;
use crate::recasting::paced;
use mmt_model::{Cast, Sent};
use mmt_slots::{Job, NoSchedule, Slots, schedule};
use std::alloc::Global;

/// How many slots there are at most.
const MOST_SLOTS: u32 = 16_777_216;

/// The greatest deadline of jobs, 0 where there is none.
fn latest_deadline(jobs: &[Job]) -> u64
    ensures { result ≡ greatest (map deadline_by jobs.now) }
{
    let mut latest = 0;
    for i in 0..jobs.len() {
        latest = jobs[i].deadline.max(latest);
    }
    latest
}

/// The timestamp of the first packet, 0 where there is none.
#[tactic(auto, unfolding(mmt_model::specs::Survival::sent_at))]
fn first_tick(packets: &[Sent]) -> u64
    ensures { result ≡ sent_at packets.now 0 }
{
    if packets.is_empty() {
        0
    } else {
        packets[0].at.0
    }
}

/// How many slots stand from a tick to another, a step apart, and at most 16,777,216.
#[tactic(auto, unfolding(crate::specs::Pacing::slots_to))]
fn slots_to(start: u64, step: u32, to: u64) -> u32
    requires { 1 ≤ step }
    ensures { result ≡ slots_to_tick start step to }
{
    if to < start {
        return 0;
    }
    let steps = (to - start) / u64::from(step);
    if steps < u64::from(MOST_SLOTS) {
        steps as u32 + 1
    } else {
        MOST_SLOTS
    }
}

/// The slots of a cast with these jobs.
#[tactic(auto, unfolding(crate::specs::Pacing::slots_by))]
fn slots_of(cast: &Cast, jobs: &[Job], step: u32) -> Slots
    requires step { 1 ≤ step }
    requires jobs { jobs.now ≡ jobs_by cast.now }
    ensures { result ≡ slots_by cast.now step }
{
    let start = first_tick(cast.packets.as_slice());
    Slots {
        start,
        step,
        count: slots_to(start, step, latest_deadline(jobs)),
    }
}

/// The cast that is paced over slots a step apart (ticks of 1/65536 second), from its first timestamp to the greatest
/// deadline of its jobs, and at most 16,777,216: each packet goes in a slot of its own, from its timestamp to its
/// deadline, of those that can go in a slot the one with the earliest deadline.
///
/// It asks for a cast as right programmes have. Its time is n log n, and its memory in proportion to the cast.
///
/// # Errors
///
/// `Overfull` if and only if in some interval more packets have to go than it has slots, with one such; and
/// `OutOfMemory`.
pub fn pace_cast(alloc: Global, cast: &Cast, step: u32) -> Result<Cast, NoSchedule>
    requires cast { CanBePaced cast.now }
    requires start { sent_at cast.now.packets 0 ≤ 2 ^ 48 }
    requires step { 1 ≤ step }
    ensures paces { MatchResult result (λ new. Paces cast.now step (Ok new)) (λ end. Paces cast.now step (Err end)) }
    // It is a cast of the same programme, and admission may be asked about it.
    ensures its { IfOk result (λ new. (programme : Programme) → cast.now ≡ cast_of programme → IsItsCast programme new) }
    ensures readable { IfOk result (λ new. IsReadable new) }
{
    let jobs = match jobs_of(alloc, cast) {
        Ok(jobs) => jobs,
        Err(_) => return Err(NoSchedule::OutOfMemory),
    };
    let slots = slots_of(cast, jobs.as_slice(), step);
    let given = match schedule(alloc, &jobs, &slots) {
        Ok(given) => given,
        Err(end) => return Err(end),
    };
    match paced(alloc, cast, &given, &slots) {
        Ok(cast) => Ok(cast),
        Err(_) => Err(NoSchedule::OutOfMemory),
    }
}

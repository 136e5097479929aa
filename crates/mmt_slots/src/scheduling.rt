//! The schedule.

ghost use Rattle.std.specs.Prelude.{◌≡◌, ◌≤◌, ◌^◌, length, replicate, IfOk, MatchResult, Ok, Err};
ghost use Rattle.mmt_slots.specs.Schedule.{Answers};

use crate::line::Line;
use crate::overfull::overfull;
use crate::row::{Job, NoSchedule, Slots, end_at};
use mmt_base::OutOfMemory;
use mmt_model::List;
use std::alloc::Global;

// For each job the count of slots, in place of a slot.
fn none_given(alloc: Global, jobs: usize, count: u32) -> Result<Vec<u32>, OutOfMemory>
    ensures { IfOk result (λ given. given.items ≡ replicate jobs count) }
{
    Ok(Vec::from_elem(alloc, count, jobs)?)
}

// A slot for each job, or an overfull interval that ends with the deadline of a job that comes to its
// slot too late.
fn fill(alloc: Global, jobs: &[Job], slots: &Slots) -> Result<Vec<u32>, NoSchedule>
    requires jobs { length jobs.now ≤ 2 ^ 24 }
    requires step { 1 ≤ slots.now.step }
    ensures { MatchResult result (λ given. Answers jobs.now slots.now (Ok given.items)) (λ e. Answers jobs.now slots.now (Err e)) }
{
    let mut given = none_given(alloc, jobs.len(), slots.count)?;
    let mut line = Line::new(alloc, jobs)?;
    let mut from = 0;
    while let Some((slot, job)) = line.next(slots, from)? {
        if u64::from(end_at(slots, job.deadline)) <= slot {
            return Err(overfull(&line.order, slots, job.deadline));
        }
        given[job.place as usize] = slot as u32;
        from = slot + 1;
    }
    Ok(given)
}

/// The number of a slot for each job, earliest deadline first, of equal deadlines the first in the
/// list. Jobs that cannot stand in a slot leave it free.
///
/// # Errors
///
/// `Overfull` if and only if some interval has more jobs than slots, with one such; and out of memory.
pub fn schedule(alloc: Global, jobs: &List<Job>, slots: &Slots) -> Result<List<u32>, NoSchedule>
    requires jobs { length jobs.now ≤ 2 ^ 24 }
    requires step { 1 ≤ slots.now.step }
    requires count { slots.now.count ≤ 2 ^ 24 }
    requires start { slots.now.start ≤ 2 ^ 48 }
    ensures { Answers jobs.now slots.now result }
{
    let given = fill(alloc, jobs.as_slice(), slots)?;
    Ok(List::from_vec(given))
}

//! The interval that has more jobs than slots.

ghost use Rattle.std.specs.Prelude.{◌≡◌, ℕ, ◌-◌, ◌<◌, ◌≤◌, ◌^◌, length};
ghost use Rattle.std.specs.List.Sorted.{IsNonDecreasingBy};
ghost use Rattle.mmt_slots.specs.Row.{first_at as first, end_at as end};
ghost use Rattle.mmt_slots.specs.Lines.{waiting_within, IsCrowded, IsFound, IsRefusal};

use crate::line::Waiting;
use crate::row::{NoSchedule, Slots, end_at, first_at};

// How many jobs are released at a tick or later and due at another or before.
fn jobs_within(order: &[Waiting], from: u64, to: u64) -> u32
    requires { length order.now < 2 ^ 32 }
    ensures { result ≡ waiting_within order.now from to }
{
    let mut jobs = 0;
    for job in order {
        if from <= job.release && job.deadline <= to {
            jobs += 1;
        }
    }
    jobs
}

// How many slots stand from a tick to another.
fn slots_within(slots: &Slots, from: u64, to: u64) -> u32
    requires { 1 ≤ slots.now.step }
    ensures { result ≡ end slots.now to - first slots.now from }
{
    let end = end_at(slots, to);
    let first = first_at(slots, from);
    if first < u64::from(end) {
        end - first as u32
    } else {
        0
    }
}

// The first release from which on more jobs are due at a tick or before than slots stand there.
fn crowded_from(order: &[Waiting], slots: &Slots, to: u64) -> u64
    requires short { length order.now < 2 ^ 32 }
    requires step { 1 ≤ slots.now.step }
    requires sorted { IsNonDecreasingBy (λ w. w.release) order.now }
    requires crowded { (slot : ℕ) × IsCrowded slots.now slot to order.now }
    ensures { IsFound slots.now order.now result to }
{
    let mut jobs = jobs_within(order, 0, to);
    for job in order {
        if job.deadline <= to {
            if slots_within(slots, job.release, to) < jobs {
                return job.release;
            }
            jobs -= 1;
        }
    }
    unreachable!()
}

// The overfull interval that ends with a deadline.
pub fn overfull(order: &[Waiting], slots: &Slots, to: u64) -> NoSchedule
    requires short { length order.now < 2 ^ 32 }
    requires step { 1 ≤ slots.now.step }
    requires sorted { IsNonDecreasingBy (λ w. w.release) order.now }
    requires crowded { (slot : ℕ) × IsCrowded slots.now slot to order.now }
    ensures { IsRefusal slots.now order.now result }
{
    let from = crowded_from(order, slots, to);
    NoSchedule::Overfull {
        from,
        to,
        jobs: jobs_within(order, from, to),
        slots: slots_within(slots, from, to),
    }
}

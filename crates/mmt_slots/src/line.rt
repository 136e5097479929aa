//! The jobs that have no slot yet, in line for one.

ghost use Rattle.std.specs.Prelude.{◌≡◌, ℕ, ◌+◌, ◌<◌, ◌≤◌, ◌^◌, length, [], ◌++◌, map, drop, IfOk, OnOk, max};
ghost use Rattle.std.specs.List.{All};
ghost use Rattle.std.specs.List.Sorted.{IsPermutation};
ghost use Rattle.std.specs.BinaryHeap.{heap_items};
ghost use Rattle.mmt_slots.specs.Lines.{named as all_named, in_line, first_of, IsSound, AreReleased, CanStand, Takes};

use crate::row::{Job, Slots, first_at};
use mmt_base::OutOfMemory;
use std::alloc::Global;
use std::cmp::Reverse;
use std::collections::BinaryHeap;

// A job in line: its deadline, its place in the list of jobs, and its release. A lesser one goes first.
#[derive(Clone, Copy, PartialEq, Eq, PartialOrd, Ord)]
pub struct Waiting {
    pub deadline: u64,
    pub place: u32,
    pub release: u64,
}

// The jobs in line: those in `order` from `at` on, which are in the order of their releases, and the
// released ones.
#[derive(Drop)]
pub struct Line {
    pub order: Vec<Waiting>,
    pub at: usize,
    pub released: BinaryHeap<Reverse<Waiting>>,
}

// The jobs with their places.
fn named(alloc: Global, jobs: &[Job]) -> Result<Vec<Waiting>, OutOfMemory>
    requires { length jobs.now < 2 ^ 32 }
    ensures { IfOk result (λ all. all.items ≡ all_named 0 jobs.now) }
{
    let mut all = Vec::with_capacity(alloc, jobs.len())?;
    for (place, job) in jobs.iter().enumerate() {
        all.push(Waiting {
            deadline: job.deadline,
            place: place as u32,
            release: job.release,
        })?;
    }
    Ok(all)
}

impl Line {
    // All jobs in line.
    pub fn new(alloc: Global, jobs: &[Job]) -> Result<Line, OutOfMemory>
        requires { length jobs.now < 2 ^ 32 }
        ensures all { IfOk result (λ line. IsPermutation (all_named 0 jobs.now) (in_line line)) }
        ensures order { IfOk result (λ line. line.order.items ≡ in_line line) }
        ensures sound { IfOk result IsSound }
        ensures none_released { IfOk result (λ line. heap_items line.released ≡ []) }
    {
        let mut order = named(alloc, jobs)?;
        order.sort_by_key(|job| job.release)?;
        Ok(Line {
            order,
            at: 0,
            released: BinaryHeap::new(alloc),
        })
    }

    // The slot from which on some job can stand, at or after a slot.
    fn skip(&self, slots: &Slots, from: u64) -> u64
        requires step { 1 ≤ slots.now.step }
        requires sound { IsSound self.now }
        requires released { AreReleased slots.now from self.now }
        ensures later { from ≤ result }
        ensures skipped { from < result → All (λ w. result ≤ first_of slots.now w) (in_line self.now) }
        ensures can { CanStand slots.now result (in_line self.now) }
    {
        if !self.released.is_empty() {
            return from;
        }
        match self.order.get(self.at) {
            Some(job) => from.max(first_at(slots, job.release)),
            None => from,
        }
    }

    // Releases the jobs that can stand in a slot.
    fn release(&mut self, slots: &Slots, slot: u64) -> Result<(), OutOfMemory>
        requires step { 1 ≤ slots.now.step }
        requires sound { IsSound self.old }
        requires released { AreReleased slots.now slot self.old }
        ensures same { OnOk result (IsPermutation (in_line self.old) (in_line self.new)) }
        ensures order { OnOk result (self.new.order ≡ self.old.order) }
        ensures sound { OnOk result (IsSound self.new) }
        ensures released { OnOk result (AreReleased slots.now slot self.new) }
        ensures rest { OnOk result (All (λ w. slot < first_of slots.now w) (drop self.new.at self.new.order.items)) }
    {
        while self.at < self.order.len() && first_at(slots, self.order[self.at].release) <= slot {
            self.released.push(Reverse(self.order[self.at]))?;
            self.at += 1;
        }
        Ok(())
    }

    // Takes the next job out of line: with the first slot at or after a slot in which some job can
    // stand, the earliest deadline of those that can stand there.
    pub fn next(&mut self, slots: &Slots, from: u64) -> Result<Option<(u64, Waiting)>, OutOfMemory>
        requires step { 1 ≤ slots.now.step }
        requires sound { IsSound self.old }
        requires released { AreReleased slots.now from self.old }
        ensures takes { IfOk result (λ job. Takes slots.now from self.old job self.new) }
        ensures order { OnOk result (self.new.order ≡ self.old.order) }
    {
        let slot = self.skip(slots, from);
        self.release(slots, slot)?;
        let Some(top) = self.released.pop() else {
            return Ok(None);
        };
        Ok(Some((slot, top.0)))
    }
}

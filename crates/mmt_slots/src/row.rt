//! Jobs, and the row of slots that they are to stand in.
#![tactic(auto, unfolding(crate::specs::Row::first_at, crate::specs::Row::end_at))]

ghost use Rattle.std.specs.Prelude.{◌≡◌, ◌≤◌};
ghost use Rattle.mmt_slots.specs.Row.{first_at as first, end_at as end};

use mmt_base::OutOfMemory;

/// A job: the ticks at which it is released and by which it is due, both in ticks of 1/65536 second.
#[derive(Clone, Copy, Debug, PartialEq, Eq)]
pub struct Job {
    pub release: u64,
    pub deadline: u64,
}

/// A row of slots: slot k stands at tick `start + k * step`, k below `count`.
#[derive(Clone, Copy, Debug, PartialEq, Eq)]
pub struct Slots {
    pub start: u64,
    pub step: u32,
    pub count: u32,
}

/// Why there is no schedule.
#[derive(Clone, Copy, Debug, PartialEq, Eq)]
pub enum NoSchedule {
    /// So many jobs are released at `from` or later and due at `to` or before, and fewer slots stand
    /// from `from` to `to`.
    Overfull {
        from: u64,
        to: u64,
        jobs: u32,
        slots: u32,
    },
    /// There was no memory.
    OutOfMemory,
}

impl From<OutOfMemory> for NoSchedule {
    ghost use Rattle.mmt_slots.specs.declared.row.NoSchedule.TheVariants.{OutOfMemory};

    ghost from_gives = { λ _ e. e ≡ OutOfMemory };

    fn from(_e: OutOfMemory) -> NoSchedule {
        NoSchedule::OutOfMemory
    }
}

// The first slot at or after a tick, in a row that has no end.
pub fn first_at(slots: &Slots, tick: u64) -> u64
    requires { 1 ≤ slots.now.step }
    ensures { result ≡ first slots.now tick }
{
    tick.saturating_sub(slots.start)
        .div_ceil(u64::from(slots.step))
}

// How many slots of the row stand at or before a tick.
pub fn end_at(slots: &Slots, tick: u64) -> u32
    requires { 1 ≤ slots.now.step }
    ensures { result ≡ end slots.now tick }
{
    if tick < slots.start {
        return 0;
    }
    let before = (tick - slots.start) / u64::from(slots.step);
    if before < u64::from(slots.count) {
        before as u32 + 1
    } else {
        slots.count
    }
}

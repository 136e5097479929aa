//! What an overfull interval means, and that a schedule is the only one of its kind.

ghost use Rattle.mmt_slots.specs.Schedule.{OverfullForbids, SchedulesAreOne};

/// Where an interval has more jobs than slots, there is no schedule.
pub fn overfull_forbids()
    ensures { OverfullForbids }
{}

/// Of the schedules with the earliest deadline first there is one.
pub fn schedules_are_one()
    ensures { SchedulesAreOne }
{}

//! Schedules, and the intervals that forbid one.

ghost use Rattle.std.specs.Prelude.{◌≤◌, ◌^◌, length};

use crate::{Job, NoSchedule, Slots, schedule};
use mmt_model::List;
use std::alloc::Global;
use std::test::Fail;

const FIVE: Slots = Slots {
    start: 0,
    step: 10,
    count: 5,
};

fn scheduled(alloc: Global, jobs: &[(u64, u64)], slots: &Slots) -> Result<List<u32>, NoSchedule>
    requires jobs { length jobs.now ≤ 2 ^ 24 }
    requires step { 1 ≤ slots.now.step }
    requires count { slots.now.count ≤ 2 ^ 24 }
    requires start { slots.now.start ≤ 2 ^ 48 }
{
    let mut list = List::new(alloc);
    for (release, deadline) in jobs {
        list.push(Job {
            release: *release,
            deadline: *deadline,
        })?;
    }
    schedule(alloc, &list, slots)
}

#[test]
fn two_jobs_of_one_tick_are_overfull(rt: HostRuntime) -> Result<(), Fail> {
    let result = scheduled(rt.alloc(), [(0, 0), (0, 0)].as_slice(), &FIVE);
    let overfull = NoSchedule::Overfull {
        from: 0,
        to: 0,
        jobs: 2,
        slots: 1,
    };
    assert_eq!(rt; result.err(), Some(overfull));
    Ok(())
}

#[test]
fn the_earlier_deadline_goes_first(rt: HostRuntime) -> Result<(), Fail> {
    let given = scheduled(rt.alloc(), [(0, 40), (0, 10), (20, 20)].as_slice(), &FIVE);
    let given = given.ok().ok_or("no schedule")?;
    assert_eq!(rt; given.as_slice(), [1, 0, 2].as_slice());
    Ok(())
}

#[test]
fn idle_slots_are_passed_over(rt: HostRuntime) -> Result<(), Fail> {
    let row = Slots {
        start: 1000,
        step: 3,
        count: 16_777_216,
    };
    let jobs = [
        (30_001_000, 30_001_002),
        (0, 1000),
        (30_001_000, 30_001_005),
    ];
    let given = scheduled(rt.alloc(), jobs.as_slice(), &row);
    let given = given.ok().ok_or("no schedule")?;
    assert_eq!(rt; given.as_slice(), [10_000_000, 0, 10_000_001].as_slice());
    Ok(())
}

#[test]
fn of_equal_deadlines_the_first_place_goes_first(rt: HostRuntime) -> Result<(), Fail> {
    let given = scheduled(rt.alloc(), [(5, 30), (5, 30), (0, 30)].as_slice(), &FIVE);
    let given = given.ok().ok_or("no schedule")?;
    assert_eq!(rt; given.as_slice(), [1, 2, 0].as_slice());
    Ok(())
}

#[test]
fn a_job_between_two_slots_has_none(rt: HostRuntime) -> Result<(), Fail> {
    let result = scheduled(rt.alloc(), [(0, 40), (11, 19)].as_slice(), &FIVE);
    let overfull = NoSchedule::Overfull {
        from: 11,
        to: 19,
        jobs: 1,
        slots: 0,
    };
    assert_eq!(rt; result.err(), Some(overfull));
    Ok(())
}

#[test]
fn a_deadline_before_its_release_leaves_no_slot(rt: HostRuntime) -> Result<(), Fail> {
    let result = scheduled(rt.alloc(), [(30, 10)].as_slice(), &FIVE);
    let overfull = NoSchedule::Overfull {
        from: 30,
        to: 10,
        jobs: 1,
        slots: 0,
    };
    assert_eq!(rt; result.err(), Some(overfull));
    Ok(())
}

#[test]
fn jobs_past_the_row_are_overfull(rt: HostRuntime) -> Result<(), Fail> {
    let last = u64::MAX;
    let result = scheduled(rt.alloc(), [(0, last), (last, last)].as_slice(), &FIVE);
    let overfull = NoSchedule::Overfull {
        from: last,
        to: last,
        jobs: 1,
        slots: 0,
    };
    assert_eq!(rt; result.err(), Some(overfull));
    Ok(())
}

#[test]
fn a_crowd_after_an_idle_slot_is_found(rt: HostRuntime) -> Result<(), Fail> {
    let jobs = [(0, 40), (15, 30), (15, 30), (15, 30), (12, 40)];
    let result = scheduled(rt.alloc(), jobs.as_slice(), &FIVE);
    let overfull = NoSchedule::Overfull {
        from: 15,
        to: 30,
        jobs: 3,
        slots: 2,
    };
    assert_eq!(rt; result.err(), Some(overfull));
    Ok(())
}

#[test]
fn a_row_without_slots_has_room_for_no_job(rt: HostRuntime) -> Result<(), Fail> {
    let row = Slots {
        start: 0,
        step: 1,
        count: 0,
    };
    let given = scheduled(rt.alloc(), [].as_slice(), &row);
    assert_eq!(rt; given.ok().map(|given| given.len()), Some(0));
    let result = scheduled(rt.alloc(), [(3, 8)].as_slice(), &row);
    let overfull = NoSchedule::Overfull {
        from: 3,
        to: 8,
        jobs: 1,
        slots: 0,
    };
    assert_eq!(rt; result.err(), Some(overfull));
    Ok(())
}

#[test]
fn many_jobs_are_scheduled_in_time(rt: HostRuntime) -> Result<(), Fail> {
    let row = Slots {
        start: 0,
        step: 1,
        count: 16_777_216,
    };
    let mut jobs = List::new(rt.alloc());
    for n in 0u64..1_000_000 {
        let release = n * 7919 % 1_000_000 * 16;
        let job = Job {
            release,
            deadline: release + 1_000_000,
        };
        jobs.push(job).ok().ok_or("no memory")?;
    }
    let given = schedule(rt.alloc(), &jobs, &row).ok().ok_or("no schedule")?;
    assert_eq!(rt; given.get(1).copied(), Some(126_704));
    Ok(())
}

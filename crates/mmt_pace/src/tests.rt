//! The jobs of worked plans and their casts in slots, by hand.

ghost use Rattle.std.specs.Prelude.{◌≤◌};

use crate::samples::{WORKED, cast_for, changed};
use crate::{jobs_of, pace_cast};
use mmt_model::Cast;
use mmt_slots::NoSchedule;
use std::alloc::Global;
use std::fmt::Write;
use std::test::Fail;

// The jobs of a plan with changes: release and deadline of each packet, counted from the plan's start.
fn jobs_told(alloc: Global, changes: &str) -> Result<String, Fail> {
    let text = changed(alloc, WORKED, changes)?;
    let cast = cast_for(alloc, text.as_str())?;
    let jobs = jobs_of(alloc, &cast)?;
    let mut told = String::new(alloc);
    for job in jobs.as_slice() {
        let release = job.release.wrapping_sub(65_536_000);
        let deadline = job.deadline.wrapping_sub(65_536_000);
        write!(told, "{release} {deadline}\n")?;
    }
    Ok(told)
}

#[test]
fn a_packet_leaves_the_delay_before_its_unit_is_due(rt: HostRuntime) -> Result<(), Fail> {
    // The first unit is due at 32768, the second at 34955, and the table ends long before both.
    let told = jobs_told(rt.alloc(), "p1 => p1")?;
    let wanted = "0 31767\n100 31767\n200 31767\n210 31767\n220 31767\n300 33954\n";
    assert_eq!(rt; told.as_str(), wanted);
    Ok(())
}

#[test]
fn a_table_that_is_late_for_the_first_unit_is_for_the_last(rt: HostRuntime) -> Result<(), Fail> {
    // 31768 and the delay is the first unit's due tick.
    let told = jobs_told(rt.alloc(), "\"at\":100 => \"at\":31768")?;
    let wanted = "0 33954\n200 31767\n210 31767\n220 31767\n300 33954\n31768 33954\n";
    assert_eq!(rt; told.as_str(), wanted);
    Ok(())
}

#[test]
fn a_message_that_names_nothing_has_the_window(rt: HostRuntime) -> Result<(), Fail> {
    let told = jobs_told(rt.alloc(), "[[0,0]] => []")?;
    let wanted = "0 65536\n100 65636\n200 31767\n210 31767\n220 31767\n300 33954\n";
    assert_eq!(rt; told.as_str(), wanted);
    Ok(())
}

#[test]
fn units_in_one_packet_have_the_limit_of_the_first_due(rt: HostRuntime) -> Result<(), Fail> {
    let told = jobs_told(
        rt.alloc(),
        "\"length\":3000 => \"length\":300 && \"at\":300 => \"at\":200",
    )?;
    let wanted = "0 31767\n100 31767\n200 31767\n";
    assert_eq!(rt; told.as_str(), wanted);
    Ok(())
}

#[test]
fn a_packet_leaves_time_to_those_after_it(rt: HostRuntime) -> Result<(), Fail> {
    // The unit that is sent first is due last.
    let told = jobs_told(rt.alloc(), "\"at\":200 => \"at\":400")?;
    let wanted = "0 31767\n100 31767\n300 31767\n400 31767\n410 31767\n420 31767\n";
    assert_eq!(rt; told.as_str(), wanted);
    Ok(())
}

// A tick, counted from the plan's start.
fn counted(tick: u64) -> u64 {
    tick.wrapping_sub(65_536_000)
}

// The timestamps of a cast's packets, then the first and last ones of its units and table copies, and the ticks from
// which its MPUs are named.
fn ticks_told(alloc: Global, cast: &Cast) -> Result<String, Fail> {
    let mut told = String::new(alloc);
    for packet in cast.packets.as_slice() {
        let at = counted(packet.at.0);
        write!(told, "{at} ")?;
    }
    for unit in cast.units.as_slice() {
        let first = counted(unit.first.0);
        let last = counted(unit.last.0);
        write!(told, "unit {first} {last} ")?;
    }
    for copy in cast.copies.as_slice() {
        let first = counted(copy.first.0);
        let last = counted(copy.last.0);
        write!(told, "copy {first} {last} ")?;
    }
    for mpu in cast.mpus.as_slice() {
        let named = mpu.named_from.map_or(0, |tick| counted(tick.0));
        write!(told, "named {named}")?;
    }
    Ok(told)
}

// Why there is no schedule.
fn end_told(alloc: Global, end: NoSchedule) -> Result<String, Fail> {
    match end {
        NoSchedule::Overfull {
            from,
            to,
            jobs,
            slots,
        } => {
            let from = counted(from);
            let to = counted(to);
            Ok(format!(in alloc; "overfull {from} {to} {jobs} {slots}")?)
        }
        NoSchedule::OutOfMemory => Err("no memory")?,
    }
}

// What pacing a plan with changes gives.
fn paced_told(alloc: Global, changes: &str, step: u32) -> Result<String, Fail>
    requires { 1 ≤ step }
{
    let text = changed(alloc, WORKED, changes)?;
    let cast = cast_for(alloc, text.as_str())?;
    match pace_cast(alloc, &cast, step) {
        Ok(paced) => ticks_told(alloc, &paced),
        Err(end) => end_told(alloc, end),
    }
}

#[test]
fn packets_that_stand_on_slots_stay(rt: HostRuntime) -> Result<(), Fail> {
    let told = paced_told(rt.alloc(), "p1 => p1", 10)?;
    let wanted = "0 100 200 210 220 300 unit 200 220 unit 300 300 copy 100 100 named 100";
    assert_eq!(rt; told.as_str(), wanted);
    Ok(())
}

#[test]
fn packets_wait_for_the_next_slot(rt: HostRuntime) -> Result<(), Fail> {
    let told = paced_told(rt.alloc(), "p1 => p1", 1000)?;
    let wanted =
        "0 1000 2000 3000 4000 5000 unit 2000 4000 unit 5000 5000 copy 1000 1000 named 1000";
    assert_eq!(rt; told.as_str(), wanted);
    Ok(())
}

#[test]
fn the_longest_step_that_does(rt: HostRuntime) -> Result<(), Fail> {
    let told = paced_told(rt.alloc(), "p1 => p1", 6790)?;
    let wanted =
        "0 6790 13580 20370 27160 33950 unit 13580 27160 unit 33950 33950 copy 6790 6790 named 6790";
    assert_eq!(rt; told.as_str(), wanted);
    // A tick more, and five slots are left for six packets.
    let told = paced_told(rt.alloc(), "p1 => p1", 6791)?;
    assert_eq!(rt; told.as_str(), "overfull 0 33954 6 5");
    Ok(())
}

#[test]
fn five_packets_have_no_room_in_two_slots(rt: HostRuntime) -> Result<(), Fail> {
    // Slots stand at 0 and 16000, and five packets have to go by 31767.
    let told = paced_told(rt.alloc(), "p1 => p1", 16000)?;
    assert_eq!(rt; told.as_str(), "overfull 0 31767 5 2");
    Ok(())
}

#[test]
fn of_equal_deadlines_the_first_place_goes_first(rt: HostRuntime) -> Result<(), Fail> {
    // The second unit goes after the first part of the first one, and by the deadline of the other two, so the four have
    // one deadline.
    let told = paced_told(rt.alloc(), "\"at\":300 => \"at\":200", 5000)?;
    let wanted =
        "0 5000 10000 15000 20000 25000 unit 10000 25000 unit 15000 15000 copy 5000 5000 named 5000";
    assert_eq!(rt; told.as_str(), wanted);
    Ok(())
}

//! Large casts.

use crate::samples::{Sample, mpu, packet, unit, wrong_row};
use mmt_model::Carries;
use std::alloc::Global;
use std::test::Fail;

// The worked cast with so many MPUs, all named from the tick at which its table copy ends and with a last
// due tick after it.
fn with_mpus(alloc: Global, count: u32) -> Result<Sample, Fail> {
    let mut sample = Sample::worked(alloc)?;
    for _ in 1..count {
        let one = mpu(65_568_768, 65_536_101, Some(65_536_100));
        sample.mpus.push(one)?;
    }
    Ok(sample)
}

// What is told of as many MPUs with a change. The bound comes before rule A7, and the keys after it. An
// MPU whose last due tick is the copy's end is not live, nor is one that is named later. A copy of two
// packets counts at its last.
const LIVE: &str = "\
1024 bound 4000 @ admitted
1025 bound 4000 @ not admitted: A7 0 1025 1024
1025 bound 3688 @ not admitted: A6 5 3689 3688
1025 key 1 1 1 0 @ not admitted: A7 0 1025 1024
1025 mpu-last 7 65536100 @ admitted
1025 mpu-from 7 65536101 @ admitted
1025 copy-first 0 65536050 @ not admitted: A7 0 1025 1024";

#[test]
fn live_mpus_are_at_most_1024(rt: HostRuntime) -> Result<(), Fail> {
    for row in LIVE.lines() {
        let (changes, want) = row.split_once(" @ ").ok_or("no row")?;
        let (count, change) = changes.split_once(" ").ok_or("no change")?;
        let count = count.parse::<u32>().ok().ok_or("no count")?;
        let mut sample = with_mpus(rt.alloc(), count)?;
        sample.change(rt.alloc(), change)?;
        assert_eq!(rt; sample.told(rt.alloc())?.as_str(), want, "{row}");
    }
    Ok(())
}

// A cast of so many MPUs, each named 100 ticks after the one before it and live for so many ticks, with a
// table copy where each is named that names it.
fn with_many(alloc: Global, count: u32, ticks: u32) -> Result<Sample, Fail> {
    let mut sample = Sample::worked(alloc)?;
    for m in 1..count {
        let tick = 65_536_100 + m as u64 * 100;
        let last = tick + ticks as u64;
        sample.mpus.push(mpu(last, last, Some(tick)))?;
        sample.change(alloc, format!(in alloc; "copy {tick}")?.as_str())?;
        sample.change(alloc, format!(in alloc; "copy-names {m} {m}")?.as_str())?;
    }
    Ok(sample)
}

#[test]
fn mpus_that_follow_each_other_are_counted_where_they_are_live(
    rt: HostRuntime,
) -> Result<(), Fail> {
    // 1,024 at a time, one more, and half as many, the worked cast's own MPU being live up to copy 348.
    for (ticks, want) in [
        (102_400, "admitted"),
        (102_401, "not admitted: A7 1025 1025 1024"),
        (51_200, "admitted"),
    ] {
        let sample = with_many(rt.alloc(), 2000, ticks)?;
        assert_eq!(rt; sample.told(rt.alloc())?.as_str(), want, "{ticks} ticks");
    }
    Ok(())
}

// A tick of 2^60, and a place after the MPUs.
const UNREADABLE: &str = "\
at 5 1152921504606846976 @ not readable
at 5 1152921504606846975 @ not admitted: A2 5 1152921504606846975 1139278043
copy-names 0 1 @ not readable";

#[test]
fn a_tick_of_2_to_the_60_may_not_be_asked_about(rt: HostRuntime) -> Result<(), Fail> {
    assert_eq!(rt; wrong_row(rt.alloc(), UNREADABLE)?.as_str(), "");
    Ok(())
}

#[test]
fn admit_1000000_packets(rt: HostRuntime) -> Result<(), Fail> {
    let mut sample = Sample::worked(rt.alloc())?;
    sample.params.bound = 1_073_741_824;
    for n in 0..999_994u32 {
        let at = 65_536_301 + n as u64;
        sample.packets.push(packet(at, 256, n + 4, 1400))?;
        sample.units.push(unit(n + 3, at, at, at + 30_000))?;
    }
    assert_eq!(rt; sample.packets.len(), 1_000_000);
    assert_eq!(rt; sample.told(rt.alloc())?.as_str(), "admitted");
    Ok(())
}

#[test]
fn the_last_of_1000000_packets_is_looked_at(rt: HostRuntime) -> Result<(), Fail> {
    let mut sample = Sample::empty(rt.alloc());
    sample.packets.push(packet(0, 0, 0, 0))?;
    for n in 1..999_999u32 {
        sample.packets.push(packet(n as u64, 7, n - 1, 0))?;
    }
    sample.packets.push(packet(999_999, 7, 999_999, 0))?;
    if let Some(first) = sample.packets.get_mut(0) {
        first.carries = Carries::Parameters { signal: 0 };
    }
    let told = sample.told(rt.alloc())?;
    assert_eq!(rt; told.as_str(), "not admitted: A3 999999 999999 999998");
    Ok(())
}

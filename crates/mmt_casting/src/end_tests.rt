//! Each reason why there is no cast, and what just has one.

use crate::refusing::first_end;
use crate::samples::{WORKED, changed, end_told, programme_of, told};
use std::alloc::Global;
use std::test::Fail;

// The first refusal of a plan, or no text.
fn refused(alloc: Global, plan: &str) -> Result<String, Fail> {
    let programme = programme_of(alloc, plan)?;
    match first_end(&programme) {
        Some(end) => end_told(alloc, end),
        None => Ok(String::new(alloc)),
    }
}

// The second access unit comes 2,002 of 60,000 of a second, 143,308,742.1 units of 2^-32 second, after the
// first; the first comes one of 60,000 of a second, 71,582.8 units, before the MPU's time.
const TIMES: &str = "\
4297114779648 => 18446744073566242873 @ 
4297114779648 => 18446744073566242874 @ time 0 0 1
4297114779648,\"decoding_offset\":1001 => 71583,\"decoding_offset\":1002 @ 
4297114779648,\"decoding_offset\":1001 => 71582,\"decoding_offset\":1002 @ time 0 0 0";

#[test]
fn times_are_within_64_bits(rt: HostRuntime) -> Result<(), Fail> {
    for row in TIMES.lines() {
        let (changes, want) = row.split_once(" @ ").ok_or("no row")?;
        let plan = changed(rt.alloc(), WORKED, changes)?;
        assert_eq!(rt; refused(rt.alloc(), plan.as_str())?.as_str(), want, "{row}");
    }
    Ok(())
}

// The worked plan with 245 MPUs that its table names, all with 60 access units but for the last, which has so
// many.
fn with_mpus(alloc: Global, last: usize) -> Result<String, Fail> {
    let mut names = String::new(alloc);
    let mut mpus = String::new(alloc);
    for m in 0..245u32 {
        let count = if m == 244 { last } else { 60 };
        let mut aus = String::new(alloc);
        for n in 0..count {
            aus.push_str(if n == 0 { "[1,1]" } else { ",[1,1]" })?;
        }
        let comma = if m == 0 { "" } else { "," };
        names.push_str(format!(in alloc; "{comma}[0,{m}]")?.as_str())?;
        let head = format!(in alloc;
            "{comma}{{\"number\":{m},\"time\":1000000,\"decoding_offset\":0,\"aus\":[{aus}],"
        )?;
        mpus.push_str(head.as_str())?;
        mpus.push_str(
            "\"units\":[{\"at\":0,\"from\":0,\"length\":1,\"movie_fragment\":1,\"sample\":1,\"offset\":0,\"priority\":0,\"dependency\":0}]}",
        )?;
    }
    let (before, rest) = WORKED.split_once("[[0,0]]").ok_or("no names")?;
    let (middle, _) = rest.split_once("{\"number\":7").ok_or("no MPU")?;
    Ok(format!(in alloc; "{before}[{names}]{middle}{mpus}]}}]}}")?)
}

#[test]
fn a_table_has_at_most_65535_bytes(rt: HostRuntime) -> Result<(), Fail> {
    // 29 bytes of the table and its asset, 12 timestamp descriptors of 3 bytes and 12 for each MPU, 256 for
    // each of 244 extended descriptors, and 16 and 4 for each access unit of the last: 65,533 with 12.
    let short = with_mpus(rt.alloc(), 12)?;
    assert_eq!(rt; refused(rt.alloc(), short.as_str())?.as_str(), "");
    let long = with_mpus(rt.alloc(), 13)?;
    assert_eq!(rt; refused(rt.alloc(), long.as_str())?.as_str(), "table 1");
    Ok(())
}

// The worked plan with 64 units of 262,144 packets each but for the last, which has N bytes.
fn with_units(alloc: Global, last: u32) -> Result<String, Fail> {
    let mut units = String::new(alloc);
    for u in 0..64u32 {
        let length = if u == 63 { last } else { 16_777_216 };
        let comma = if u == 0 { "" } else { "," };
        let head = format!(in alloc; "{comma}{{\"at\":0,\"from\":0,\"length\":{length},")?;
        units.push_str(head.as_str())?;
        units.push_str(
            "\"movie_fragment\":1,\"sample\":1,\"offset\":0,\"priority\":0,\"dependency\":0}",
        )?;
    }
    let plan = changed(alloc, WORKED, "\"limit\":1400 => \"limit\":64")?;
    let (before, _) = plan.as_str().split_once("\"units\":[").ok_or("no units")?;
    Ok(format!(in alloc; "{before}\"units\":[{units}]}}]}}]}}")?)
}

#[test]
fn a_cast_has_at_most_16777216_packets(rt: HostRuntime) -> Result<(), Fail> {
    // A buffer message, a table in two parts, 63 times 262,144 parts, and 262,141 of the last unit.
    let few = with_units(rt.alloc(), 262_141 * 64)?;
    assert_eq!(rt; refused(rt.alloc(), few.as_str())?.as_str(), "");
    let many = with_units(rt.alloc(), 262_141 * 64 + 1)?;
    assert_eq!(rt;
        refused(rt.alloc(), many.as_str())?.as_str(),
        "packets 16777217"
    );
    Ok(())
}

#[test]
fn a_time_is_refused_before_the_number_of_packets(rt: HostRuntime) -> Result<(), Fail> {
    let many = with_units(rt.alloc(), 262_141 * 64 + 1)?;
    assert_eq!(rt;
        told(rt.alloc(), many.as_str())?.as_str(),
        "packets 16777217"
    );
    let change = "4297114779648 => 18446744073566242874";
    let late = changed(rt.alloc(), many.as_str(), change)?;
    assert_eq!(rt; told(rt.alloc(), late.as_str())?.as_str(), "time 0 0 1");
    Ok(())
}

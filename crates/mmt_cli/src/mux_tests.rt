//! The command `mux` over files in memory: the stream of the worked plan, and the first reason against other plans.

use crate::delivery_tests::{delivered, file, long_unit};
use crate::run::run;
use crate::status::Status;
use crate::take_tests::{Units, Wanted, takes};
use crate::tests::words;
use crate::worked::{LENGTH, stream};
use mmt_io::{CallKind, FailAt, MemoryPort, MemoryShelf};
use std::alloc::Global;
use std::test::Fail;

// The worked plan.
const PLAN: &str = r#"{"flow":"ff0e0000000000000000000000000101:51300",
"source":"20010db8000000000000000000000001:51300",
"context":1,"full_every":3,"limit":1400,"spacing":10,"package":"p1",
"bound":4000,"window":65536,"delay":1000,"start":65536000,
"signalling":[
{"at":0,"kind":"parameters"},
{"at":100,"kind":"table","names":[[0,0]]}],
"assets":[{"packet_id":256,"id":"v","type":"hev1","timed":true,"timescale":60000,"file":"v.bin",
"mpus":[{"number":7,"time":4297114779648,"decoding_offset":1001,
"aus":[[1001,1001],[2002,0]],
"units":[
{"at":200,"from":0,"length":3000,"movie_fragment":1,"sample":1,"offset":0,"priority":0,"dependency":0},
{"at":300,"from":3000,"length":500,"movie_fragment":1,"sample":2,"offset":0,"priority":0,"dependency":0}]}]}]}"#;

// The shelf with the plan, one place of which is changed, and its file of N bytes. These reads fail.
pub fn shelf(
    alloc: Global,
    change: (&str, &str),
    length: usize,
    failing: &[u64],
) -> Result<MemoryShelf, Fail> {
    let mut file = Vec::new(alloc);
    for place in 0..length {
        file.push((place % 251) as u8)?;
    }
    let (before, after) = PLAN.split_once(change.0).ok_or("not there")?;
    let changed = change.1;
    let plan = format!(in alloc; "{before}{changed}{after}")?;
    let mut shelf = MemoryShelf::new(alloc, Vec::from_slice(alloc, failing)?);
    shelf.put("plan.json", plan.into_bytes())?;
    shelf.put("v.bin", file)?;
    Ok(shelf)
}

// A port without input and with room for N bytes, in which these calls fail.
fn roomy(alloc: Global, bytes: u32, failing: &[FailAt]) -> Result<MemoryPort, Fail> {
    let failing = Vec::from_slice(alloc, failing)?;
    Ok(MemoryPort::new(alloc, Vec::new(alloc), 1_000, bytes, failing)?)
}

// The same with room for 10,000 bytes.
fn port(alloc: Global, failing: &[FailAt]) -> Result<MemoryPort, Fail> {
    roomy(alloc, 10_000, failing)
}

#[test]
fn sends_the_worked_plan(rt: HostRuntime) -> Result<(), Fail> {
    let alloc = rt.alloc();
    let mut shelf = shelf(alloc, ("", ""), 3500, &[])?;
    let mut port = port(alloc, &[])?;
    let words = words(alloc, &["mux", "plan.json"])?;
    assert_eq!(rt; run(alloc, &words, &mut port, &mut shelf), Status::Done);
    assert_eq!(rt; port.written().len(), LENGTH);
    let worked = stream(alloc)?;
    assert_eq!(rt; port.written(), worked.as_slice());
    assert_eq!(rt; port.noted().len(), 0);
    Ok(())
}

#[test]
fn take_gives_back_what_was_sent(rt: HostRuntime) -> Result<(), Fail> {
    let alloc = rt.alloc();
    let mut shelf = shelf(alloc, ("", ""), 3500, &[])?;
    let mut port = port(alloc, &[])?;
    let words = words(alloc, &["mux", "plan.json"])?;
    assert_eq!(rt; run(alloc, &words, &mut port, &mut shelf), Status::Done);
    let sent = Vec::from_slice(alloc, port.written())?;
    let wanted = Wanted {
        status: Status::Done,
        units: Units::Both,
        notes: "units 2 bytes 3500 peak 3689\n",
    };
    assert!(rt; takes(alloc, &["take"], sent, wanted)?);
    Ok(())
}

/// The plan with a third message, a table, while the units play.
pub const ONE_MORE_TABLE: &str = r#"[[0,0]]},{"at":32800,"kind":"table","names":[[0,0]]}],"#;

// The plan with a third message: a later table.
const LATER: &str = r#"[[0,0]]},{"at":33955,"kind":"table","names":[[0,0]]}],"#;

// The plan with a table and a unit of a further MPU 18 hours later, and nothing in between.
const HOURS_LATER: &str = r#"[[0,0]]},{"at":4294967396,"kind":"table","names":[[0,1]]}],
"assets":[{"packet_id":256,"id":"v","type":"hev1","timed":true,"timescale":60000,"file":"v.bin",
"mpus":[{"number":7,"time":4297114779648,"decoding_offset":1001,
"aus":[[1001,1001],[2002,0]],
"units":[
{"at":200,"from":0,"length":3000,"movie_fragment":1,"sample":1,"offset":0,"priority":0,"dependency":0},
{"at":300,"from":3000,"length":500,"movie_fragment":1,"sample":2,"offset":0,"priority":0,"dependency":0}]},
{"number":8,"time":285772091490304,"decoding_offset":1001,"aus":[[1001,1001]],
"units":[{"at":4294967496,"from":0,"length":500,"movie_fragment":2,"sample":1,"offset":0,"priority":0,"dependency":0}]}]}]}"#;

// The plan with one unit of 16,777,216 bytes.
const LONG_UNIT: &str = r#"{"flow":"ff0e0000000000000000000000000101:51300",
"source":"20010db8000000000000000000000001:51300",
"context":1,"full_every":3,"limit":60000,"spacing":10,"package":"p1",
"bound":20000000,"window":65536,"delay":1000,"start":65536000,
"signalling":[
{"at":0,"kind":"parameters"},
{"at":100,"kind":"table","names":[[0,0]]}],
"assets":[{"packet_id":256,"id":"v","type":"hev1","timed":true,"timescale":60000,"file":"v.bin",
"mpus":[{"number":7,"time":4297114779648,"decoding_offset":1001,
"aus":[[1001,1001]],
"units":[
{"at":200,"from":0,"length":16777216,"movie_fragment":1,"sample":1,"offset":0,"priority":0,"dependency":0}]}]}]}"#;

// What is there, what stands in its place, the length of the file, and the text of the status.
const AGAINST: &str = r#""bound" @ "bounds" @ 3500 @ plan: missing at top 0 0 0 field 8
hev1 @ hev @ 3500 @ plan: value at asset 0 0 0 field 3
[[0,0]] @ [[0,1]] @ 3500 @ plan: no-such-mpu at signal 1 0 0 field 3
v.bin @ w.bin @ 3500 @ plan: file-absent at asset 0 0 0 field 6
65536, @ 65536, @ 3499 @ plan: unit-short at unit 0 0 1 field 3
65536, @ 32567, @ 3500 @ not admitted: A4 0 65568768 65568767
65536, @ 32568, @ 3500 @ not admitted: A4 1 65570955 65568868
4000 @ 3688 @ 3500 @ not admitted: A6 5 3689 3688
{"at":0,"kind":"parameters"}, @  @ 3500 @ not admitted: A9 0 5 0
"at":300 @ "at":205 @ 3500 @ not admitted: A3 3 3 1
"at":100, @ "at":32800, @ 3500 @ not admitted: A10 0 65569800 65568767
4297114779648 @ 18446744073709551615 @ 3500 @ plan: time-range at au 0 0 1 field 0"#;

// The text of the status of a plan that is changed, or another text where anything was written.
fn told(alloc: Global, change: (&str, &str), length: usize) -> Result<String, Fail> {
    let words = words(alloc, &["mux", "plan.json"])?;
    let mut shelf = shelf(alloc, change, length, &[])?;
    let mut port = port(alloc, &[])?;
    let status = run(alloc, &words, &mut port, &mut shelf);
    let written = port.written().len();
    if written == 0 {
        return Ok(format!(in alloc; "{status}")?);
    }
    Ok(format!(in alloc; "{status}, and {written} bytes")?)
}

#[test]
fn tells_the_first_reason_and_writes_nothing(rt: HostRuntime) -> Result<(), Fail> {
    for row in AGAINST.lines() {
        let (old, rest) = row.split_once(" @ ").ok_or("no row")?;
        let (new, rest) = rest.split_once(" @ ").ok_or("no row")?;
        let (length, text) = rest.split_once(" @ ").ok_or("no row")?;
        let length = length.parse::<u16>().ok().ok_or("length")?;
        let told = told(rt.alloc(), (old, new), usize::from(length))?;
        assert_eq!(rt; told.as_str(), text);
    }
    Ok(())
}

#[test]
fn tells_a_table_that_is_too_late_and_a_long_silence(rt: HostRuntime) -> Result<(), Fail> {
    let late = told(rt.alloc(), ("[[0,0]]}],", LATER), 3500)?;
    assert_eq!(rt; late.as_str(), "not admitted: A5 1 65570955 65570954");
    let (signalling, _) = PLAN.split_once("[[0,0]]}],").ok_or("no table")?;
    let plan = format!(in rt.alloc(); "{signalling}{HOURS_LATER}")?;
    let silent = told(rt.alloc(), (PLAN, plan.as_str()), 3500)?;
    assert_eq!(rt; silent.as_str(), "not admitted: A2 6 4360503396 1139278123");
    Ok(())
}

#[test]
fn sends_a_unit_of_16_777_216_bytes(rt: HostRuntime) -> Result<(), Fail> {
    let alloc = rt.alloc();
    let mut shelf = shelf(alloc, (PLAN, LONG_UNIT), 16_777_216, &[])?;
    let mut port = roomy(alloc, 17_000_000, &[])?;
    let words = words(alloc, &["mux", "plan.json"])?;
    assert_eq!(rt; run(alloc, &words, &mut port, &mut shelf), Status::Done);
    let file = file(alloc)?;
    let wanted = delivered(alloc, &long_unit(alloc, &file)?, "0-281")?;
    assert_eq!(rt; port.written().len(), 16_792_779);
    assert_eq!(rt; port.written() == wanted.as_slice(), true);
    Ok(())
}

#[test]
fn tells_a_plan_that_is_absent(rt: HostRuntime) -> Result<(), Fail> {
    let alloc = rt.alloc();
    let mut shelf = MemoryShelf::new(alloc, Vec::new(alloc));
    let mut port = port(alloc, &[])?;
    let words = words(alloc, &["mux", "plan.json"])?;
    let status = run(alloc, &words, &mut port, &mut shelf);
    let told = format!(in alloc; "{status}")?;
    assert_eq!(rt; told.as_str(), "plan: plan-absent at top 0 0 0 field 0");
    assert_eq!(rt; status.number(), 5);
    Ok(())
}

#[test]
fn a_read_that_fails_leaves_whole_packets(rt: HostRuntime) -> Result<(), Fail> {
    let alloc = rt.alloc();
    let words = words(alloc, &["mux", "plan.json"])?;
    let worked = stream(alloc)?;
    let mut seen = [false; 5];
    for call in 0..20_u64 {
        let mut shelf = shelf(alloc, ("", ""), 3500, &[call])?;
        let mut port = port(alloc, &[])?;
        let status = run(alloc, &words, &mut port, &mut shelf);
        if status == Status::Done {
            break;
        }
        assert_eq!(rt; status, Status::ReadFault);
        let count = port.written().len();
        assert_eq!(rt; Some(port.written()), worked.get(..count));
        for (place, length) in [0, 181, 1622, 3105, 3346].iter().enumerate() {
            if count == *length {
                *seen.get_mut(place).ok_or("place")? = true;
            }
        }
    }
    // Nothing, and what stands before each packet that carries a unit or a part of one.
    assert_eq!(rt; seen, [true; 5]);
    Ok(())
}

#[test]
fn a_write_that_fails_leaves_a_prefix(rt: HostRuntime) -> Result<(), Fail> {
    let alloc = rt.alloc();
    let words = words(alloc, &["mux", "plan.json"])?;
    let worked = stream(alloc)?;
    for (number, through, count) in [(0, 0, 0), (0, 1, 1), (2, 7, 188), (5, 540, 3886)] {
        let fail = FailAt {
            kind: CallKind::Write,
            number,
            through,
        };
        let mut shelf = shelf(alloc, ("", ""), 3500, &[])?;
        let mut port = port(alloc, &[fail])?;
        let status = run(alloc, &words, &mut port, &mut shelf);
        assert_eq!(rt; status, Status::WriteFault);
        assert_eq!(rt; Some(port.written()), worked.get(..count));
    }
    Ok(())
}

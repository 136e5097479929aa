//! What is expected of deliveries of worked plans. The numbers were worked out from the plans by hand.

ghost use Rattle.std.specs.Prelude.{◌≡◌, None, IsTrue, IfOk, OnOk};
ghost use Rattle.mmt_admit.specs.Faults.{IsReadable};
ghost use Rattle.mmt_cast.specs.Casting.{cast_of as cast_by};
ghost use Rattle.mmt_cast.specs.Refusing.{refusal};
ghost use Rattle.mmt_model.specs.Right.{IsRight};
ghost use Rattle.mmt_model.specs.Survival.{AreOf};

use crate::expected_units;
use mmt_admit::{admit, is_readable};
use mmt_casting::cast_of;
use mmt_io::MemoryShelf;
use mmt_model::{Cast, Programme, Sent};
use mmt_plan::read_plan;
use std::alloc::Global;
use std::test::Fail;

// The worked plan, in parts: what comes before its delay, its signalling after the delay, and its assets.
const HEAD: &str = r#"{"flow":"ff0e0000000000000000000000000101:51300",
"source":"20010db8000000000000000000000001:51300",
"context":1,"full_every":3,"limit":1400,"spacing":10,"package":"p1",
"bound":4000,"window":65536,"delay":"#;

const SIGNALLING: &str = r#","start":65536000,"signalling":[{"at":0,"kind":"parameters"},
{"at":100,"kind":"table","names":[[0,0]]}"#;

const ASSETS: &str = r#"],"assets":[{"packet_id":256,"id":"v","type":"hev1","timed":true,
"timescale":60000,"file":"v.bin","mpus":[{"number":7,
"time":4297114779648,"decoding_offset":1001,"aus":[[1001,1001],[2002,0]],"units":[
{"at":200,"from":0,"length":3000,"movie_fragment":1,"sample":1,"offset":0,"priority":0,"dependency":0},
{"at":300,"from":3000,"length":500,"movie_fragment":1,"sample":2,"offset":0,"priority":0,"dependency":0}]}]}]}"#;

// A second table, which names the MPU while it plays.
const SECOND_TABLE: &str = r#",{"at":32800,"kind":"table","names":[[0,0]]}"#;

// The programme of the worked plan with a delay and further signalling.
fn programme_of(alloc: Global, delay: &str, signalling: &str) -> Result<Programme, Fail>
    ensures { IfOk result IsRight }
{
    let mut text = String::new(alloc);
    for part in [HEAD, delay, SIGNALLING, signalling, ASSETS] {
        text.push_str(part)?;
    }
    let mut shelf = MemoryShelf::new(alloc, Vec::new(alloc));
    shelf.put("plan", text.as_bytes().to_vec(alloc)?)?;
    match read_plan(alloc, &mut shelf, "plan") {
        Ok(programme) => Ok(programme),
        Err(_) => Err("no plan")?,
    }
}

// The cast of a programme.
fn cast_for(alloc: Global, programme: &Programme) -> Result<Cast, Fail>
    requires { IsRight programme.now }
    ensures cast { IfOk result (λ cast. cast ≡ cast_by programme.now) }
    ensures none { OnOk result (refusal programme.now ≡ None) }
    ensures readable { IfOk result IsReadable }
{
    match cast_of(alloc, programme) {
        Ok(cast) => {
            if is_readable(&cast) {
                Ok(cast)
            } else {
                Err("not readable")?
            }
        }
        Err(_) => Err("no cast")?,
    }
}

// Whether each place of a list is one of a cast.
fn are_of(packets: &[Sent], list: &[u32]) -> bool
    ensures { IsTrue result → AreOf packets.now list.now }
{
    for i in 0..list.len() {
        if list[i] as usize >= packets.len() {
            return false;
        }
    }
    true
}

// How many units are expected of a list of deliveries.
fn expected_of(alloc: Global, delay: &str, signalling: &str, list: &[u32]) -> Result<u64, Fail> {
    let programme = programme_of(alloc, delay, signalling)?;
    let cast = cast_for(alloc, &programme)?;
    if !are_of(cast.packets.as_slice(), list) {
        Err("no place")?;
    }
    match admit(&cast) {
        Ok(_) => Ok(expected_units(alloc, &programme, &cast, list)?),
        Err(_) => Err("not admitted")?,
    }
}

#[test]
fn counts_units_with_all_packets_and_a_table(rt: HostRuntime) -> Result<(), Fail> {
    let alloc = rt.alloc();
    for (list, wanted) in [
        ([0, 1, 2, 3, 4, 5].as_slice(), 2),
        // The middle part of a unit is lost.
        ([0, 1, 2, 4, 5].as_slice(), 1),
        // The table is.
        ([0, 2, 3, 4, 5].as_slice(), 0),
        // A packet comes before the buffer message, and not again.
        ([3, 0, 1, 2, 4, 5].as_slice(), 1),
        // A buffer message comes before the first full header, and none comes later.
        ([1, 2, 3, 4, 5].as_slice(), 0),
        // Each comes twice, and the other way round the second time.
        ([0, 1, 2, 3, 4, 5, 5, 4, 3, 2, 1, 0].as_slice(), 2),
        ([].as_slice(), 0),
    ] {
        assert_eq!(rt; expected_of(alloc, "1000", "", list)?, wanted);
    }
    Ok(())
}

#[test]
fn counts_no_unit_with_a_packet_that_is_overtaken(rt: HostRuntime) -> Result<(), Fail> {
    let alloc = rt.alloc();
    // Packet 5 is 100 and 90 ticks ahead of the first parts, and 80 ahead of the last.
    for (list, delay, wanted) in [
        ([0, 1, 5, 2, 3, 4].as_slice(), "80", 1),
        ([0, 1, 5, 2, 3, 4].as_slice(), "100", 2),
        ([0, 1, 5, 2, 3, 4].as_slice(), "99", 1),
    ] {
        assert_eq!(rt; expected_of(alloc, delay, "", list)?, wanted);
    }
    Ok(())
}

#[test]
fn counts_no_unit_that_is_named_too_late(rt: HostRuntime) -> Result<(), Fail> {
    let alloc = rt.alloc();
    for (list, wanted) in [
        ([0, 1, 2, 3, 4, 5, 6].as_slice(), 2),
        // The second table comes at a tick after that of the first unit, and before that of the second.
        ([0, 2, 3, 4, 5, 6].as_slice(), 1),
    ] {
        assert_eq!(rt; expected_of(alloc, "1000", SECOND_TABLE, list)?, wanted);
    }
    Ok(())
}

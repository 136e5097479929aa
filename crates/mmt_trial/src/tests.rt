//! Trials of deliveries of worked plans. The numbers were worked out from the plans by a plain program and by hand.

ghost use Rattle.std.specs.Prelude.{◌≡◌, None, IsTrue, IfOk, OnOk};
ghost use Rattle.mmt_admit.specs.Faults.{IsReadable};
ghost use Rattle.mmt_cast.specs.Casting.{cast_of as cast_by};
ghost use Rattle.mmt_cast.specs.Refusing.{refusal};
ghost use Rattle.mmt_model.specs.Right.{IsRight};
ghost use Rattle.mmt_model.specs.Survival.{AreOf};

use crate::{TrialEnd, Tried, trial};
use mmt_admit::{admit, is_readable};
use mmt_casting::cast_of;
use mmt_io::MemoryShelf;
use mmt_model::{Cast, List, Programme, Sent};
use mmt_plan::read_plan;
use std::alloc::Global;
use std::test::Fail;

// The worked plan, in parts: what comes before its delay, its signalling after the delay, and its assets.
const HEAD: &str = r#"{"flow":"ff0e0000000000000000000000000101:51300",
"source":"20010db8000000000000000000000001:51300",
"context":1,"full_every":3,"limit":1400,"spacing":10,"package":"p1",
"bound":4000,"window":65536,"delay":"#;

const SIGNALLING: &str = r#","start":65536000,"signalling":[{"at":0,"kind":"parameters"},
{"at":100,"kind":"table","names":[[0,0]]}"#;

const ASSETS: &str = r#"],"assets":[{"packet_id":256,"id":"v","type":"hev1","timed":true,
"timescale":60000,"file":"v.bin","mpus":[{"number":7,
"time":4297114779648,"decoding_offset":1001,"aus":[[1001,1001],[2002,0]],"units":[
{"at":200,"from":0,"length":3000,"movie_fragment":1,"sample":1,"offset":0,"priority":0,"dependency":0},
{"at":300,"from":3000,"length":500,"movie_fragment":1,"sample":2,"offset":0,"priority":0,"dependency":0}]}"#;

const END: &str = "]}]}";

// A second table, which names the MPU while it plays.
const SECOND_TABLE: &str = r#",{"at":32800,"kind":"table","names":[[0,0]]}"#;

// Buffer messages through 18 hours, and the table of an MPU after them.
const LONG_SIGNALLING: &str =
    r#",{"at":536870912,"kind":"parameters"},{"at":1073741824,"kind":"parameters"},
{"at":1610612736,"kind":"parameters"},{"at":2147483648,"kind":"parameters"},{"at":2684354560,"kind":"parameters"},
{"at":3221225472,"kind":"parameters"},{"at":3758096384,"kind":"parameters"},{"at":4294967296,"kind":"parameters"},
{"at":4294967396,"kind":"table","names":[[0,1]]}"#;

// That MPU.
const LATE_MPU: &str =
    r#",{"number":8,"time":285772091490304,"decoding_offset":1001,"aus":[[1001,1001]],"units":[
{"at":4294967496,"from":0,"length":500,"movie_fragment":2,"sample":1,"offset":0,"priority":0,"dependency":0}]}"#;

// What a trial is of: a delay, further signalling and MPUs, how many bytes the file has, and the reads that fail.
#[derive(Clone, Copy)]
struct Desk<'a> {
    delay: &'a str,
    signalling: &'a str,
    mpus: &'a str,
    bytes: usize,
    failing: &'a [u64],
}

// The worked plan as it is, with its file.
const PLAIN: Desk<'static> = Desk {
    delay: "1000",
    signalling: "",
    mpus: "",
    bytes: 3500,
    failing: &[],
};

// The programme of a desk.
fn programme_of(alloc: Global, desk: &Desk<'_>) -> Result<Programme, Fail>
    ensures { IfOk result IsRight }
{
    let mut text = String::new(alloc);
    for part in [
        HEAD,
        desk.delay,
        SIGNALLING,
        desk.signalling,
        ASSETS,
        desk.mpus,
        END,
    ] {
        text.push_str(part)?;
    }
    let mut shelf = MemoryShelf::new(alloc, Vec::new(alloc));
    shelf.put("plan", text.as_bytes().to_vec(alloc)?)?;
    match read_plan(alloc, &mut shelf, "plan") {
        Ok(programme) => Ok(programme),
        Err(_) => Err("no plan")?,
    }
}

// The cast of a programme.
fn cast_for(alloc: Global, programme: &Programme) -> Result<Cast, Fail>
    requires { IsRight programme.now }
    ensures cast { IfOk result (λ cast. cast ≡ cast_by programme.now) }
    ensures none { OnOk result (refusal programme.now ≡ None) }
    ensures readable { IfOk result IsReadable }
{
    match cast_of(alloc, programme) {
        Ok(cast) => {
            if is_readable(&cast) {
                Ok(cast)
            } else {
                Err("not readable")?
            }
        }
        Err(_) => Err("no cast")?,
    }
}

// Whether each place of a list is one of a cast.
fn are_of(packets: &[Sent], list: &[u32]) -> bool
    ensures { IsTrue result → AreOf packets.now list.now }
{
    for i in 0..list.len() {
        if list[i] as usize >= packets.len() {
            return false;
        }
    }
    true
}

// The shelf of a desk: byte p of the file is p modulo 251.
fn shelf_of(alloc: Global, desk: &Desk<'_>) -> Result<MemoryShelf, Fail> {
    let mut bytes = Vec::new(alloc);
    for p in 0..desk.bytes {
        bytes.push((p % 251) as u8)?;
    }
    let mut shelf = MemoryShelf::new(alloc, desk.failing.to_vec(alloc)?);
    shelf.put("v.bin", bytes)?;
    Ok(shelf)
}

// A trial of a list of deliveries.
fn tried(alloc: Global, desk: &Desk<'_>, places: &[u32]) -> Result<Result<Tried, TrialEnd>, Fail> {
    let programme = programme_of(alloc, desk)?;
    let cast = cast_for(alloc, &programme)?;
    let mut shelf = shelf_of(alloc, desk)?;
    let list = List::from_vec(places.to_vec(alloc)?);
    if !are_of(cast.packets.as_slice(), list.as_slice()) {
        Err("no place")?;
    }
    if list.len() > 100 {
        Err("a long list")?;
    }
    match admit(&cast) {
        Ok(admitted) => Ok(trial(alloc, &programme, &admitted, &mut shelf, &list)),
        Err(_) => Err("not admitted")?,
    }
}

#[test]
fn a_unit_is_lost_with_its_middle_part(rt: HostRuntime) -> Result<(), Fail> {
    let alloc = rt.alloc();
    let wanted = Tried {
        sent: 6,
        delivered: 5,
        units: 1,
        expected: 1,
        bytes: 500,
        peak: 2267,
        bound: 4000,
        late: 0,
        repeat: 0,
        full: 0,
    };
    assert_eq!(rt; tried(alloc, &PLAIN, &[0, 1, 2, 4, 5])?, Ok(wanted));
    Ok(())
}

#[test]
fn parts_that_are_overtaken_are_late(rt: HostRuntime) -> Result<(), Fail> {
    let alloc = rt.alloc();
    let desk = Desk {
        delay: "80",
        ..PLAIN
    };
    let wanted = Tried {
        sent: 6,
        delivered: 6,
        units: 1,
        expected: 1,
        bytes: 500,
        peak: 845,
        bound: 4000,
        late: 2,
        repeat: 0,
        full: 0,
    };
    assert_eq!(rt; tried(alloc, &desk, &[0, 1, 5, 2, 3, 4])?, Ok(wanted));
    Ok(())
}

#[test]
fn a_packet_before_the_first_header_is_lost(rt: HostRuntime) -> Result<(), Fail> {
    let alloc = rt.alloc();
    let wanted = Tried {
        sent: 6,
        delivered: 6,
        units: 1,
        expected: 1,
        bytes: 500,
        peak: 2267,
        bound: 4000,
        late: 0,
        repeat: 0,
        full: 0,
    };
    assert_eq!(rt; tried(alloc, &PLAIN, &[3, 0, 1, 2, 4, 5])?, Ok(wanted));
    Ok(())
}

#[test]
fn repeats_are_counted_and_kept_once(rt: HostRuntime) -> Result<(), Fail> {
    let alloc = rt.alloc();
    let wanted = Tried {
        sent: 6,
        delivered: 9,
        units: 2,
        expected: 2,
        bytes: 3500,
        peak: 3689,
        bound: 4000,
        late: 0,
        repeat: 3,
        full: 0,
    };
    assert_eq!(rt;
        tried(alloc, &PLAIN, &[0, 1, 4, 4, 2, 2, 3, 3, 5])?,
        Ok(wanted)
    );
    Ok(())
}

#[test]
fn nothing_comes_out_of_an_empty_list(rt: HostRuntime) -> Result<(), Fail> {
    let alloc = rt.alloc();
    let wanted = Tried {
        sent: 6,
        delivered: 0,
        units: 0,
        expected: 0,
        bytes: 0,
        peak: 0,
        bound: 4000,
        late: 0,
        repeat: 0,
        full: 0,
    };
    assert_eq!(rt; tried(alloc, &PLAIN, &[])?, Ok(wanted));
    Ok(())
}

#[test]
fn two_tables_name_a_playing_mpu(rt: HostRuntime) -> Result<(), Fail> {
    let alloc = rt.alloc();
    let desk = Desk {
        signalling: SECOND_TABLE,
        ..PLAIN
    };
    let both = Tried {
        sent: 7,
        delivered: 7,
        units: 2,
        expected: 2,
        bytes: 3500,
        peak: 3771,
        bound: 4000,
        late: 0,
        repeat: 0,
        full: 0,
    };
    assert_eq!(rt; tried(alloc, &desk, &[0, 1, 2, 3, 4, 5, 6])?, Ok(both));
    // The second table comes after the due tick of the first unit, and before that of the second.
    let second = Tried {
        delivered: 6,
        units: 1,
        expected: 1,
        bytes: 500,
        peak: 3689,
        ..both
    };
    assert_eq!(rt; tried(alloc, &desk, &[0, 2, 3, 4, 5, 6])?, Ok(second));
    Ok(())
}

#[test]
fn a_list_that_is_not_near_loses_an_expected_unit(rt: HostRuntime) -> Result<(), Fail> {
    let alloc = rt.alloc();
    let desk = Desk {
        signalling: LONG_SIGNALLING,
        mpus: LATE_MPU,
        ..PLAIN
    };
    let whole = Tried {
        sent: 16,
        delivered: 16,
        units: 3,
        expected: 3,
        bytes: 4000,
        peak: 3689,
        bound: 4000,
        late: 0,
        repeat: 0,
        full: 0,
    };
    let places = [0, 1, 2, 3, 4, 5, 6, 7, 8, 9, 10, 11, 12, 13, 14, 15];
    assert_eq!(rt; tried(alloc, &desk, &places)?, Ok(whole));
    // The last table is 2^32 ticks ahead, and looks 200 ticks old.
    let jump = Tried {
        delivered: 8,
        units: 2,
        bytes: 3500,
        peak: 3767,
        full: 1,
        ..whole
    };
    assert_eq!(rt; tried(alloc, &desk, &[0, 1, 2, 3, 4, 5, 14, 15])?, Ok(jump));
    Ok(())
}

#[test]
fn a_read_that_fails_ends_the_trial(rt: HostRuntime) -> Result<(), Fail> {
    let alloc = rt.alloc();
    for number in [0u64, 1, 2, 3] {
        let failing = [number];
        let desk = Desk {
            failing: &failing,
            ..PLAIN
        };
        assert_eq!(rt;
            tried(alloc, &desk, &[0, 1, 2, 3, 4, 5])?,
            Err(TrialEnd::ReadFault),
            "read {number}"
        );
    }
    Ok(())
}

#[test]
fn a_short_file_ends_the_trial_whatever_is_delivered(rt: HostRuntime) -> Result<(), Fail> {
    let alloc = rt.alloc();
    let desk = Desk {
        bytes: 3499,
        ..PLAIN
    };
    let short = TrialEnd::UnitShort {
        unit: 1,
        length: 500,
        got: 499,
    };
    assert_eq!(rt; tried(alloc, &desk, &[0, 1, 2, 3, 4, 5])?, Err(short));
    // The unit's packet is not in the list.
    assert_eq!(rt; tried(alloc, &desk, &[0, 1])?, Err(short));
    Ok(())
}

//! The casts of worked plans, list by list.

use crate::cast_of;
use crate::samples::{WORKED, changed, packet_told, programme_of, told};
use std::test::Fail;

const CAST_1: &str = "\
65536000 0 0 19 parameters 0
65536100 0 1 82 table 1
65536200 256 0 1422 rap fragment 0 0
65536210 256 1 1422 fragment 0 1
65536220 256 2 222 fragment 0 2
65536300 256 3 522 unit 1
unit 0 0 0 65568768 65536200 65536220 0 3
unit 0 0 1 65570955 65536300 65536300 3 1
mpu 0 0 65568768 65570955 65536100
copy 1 65536100 65536100 1 1 names 0
";

#[test]
fn a_unit_is_cut_and_another_is_whole(rt: HostRuntime) -> Result<(), Fail> {
    assert_eq!(rt; told(rt.alloc(), WORKED)?.as_str(), CAST_1);
    Ok(())
}

// A further table, and an MPU that no table names.
const PLAN_3: &str = r#"[[0,0]]} => [[0,0]]},{"at":32800,"kind":"table","names":[[0,0]]}
 && }]}]}]} => }]},{"number":8,"time":0,"decoding_offset":0,"aus":[],"units":[{"at":300,"from":0,"length":1,"movie_fragment":2,"sample":1,"offset":0,"priority":0,"dependency":0}]}]}]}"#;

const CAST_3: &str = "\
65536000 0 0 19 parameters 0
65536100 0 1 82 table 1
65536200 256 0 1422 rap fragment 0 0
65536210 256 1 1422 fragment 0 1
65536220 256 2 222 fragment 0 2
65536300 256 3 522 unit 1
65536300 256 4 23 rap unit 2
65568800 0 2 82 table 2
unit 0 0 0 65568768 65536200 65536220 0 3
unit 0 0 1 65570955 65536300 65536300 3 1
unit 0 1 0 0 65536300 65536300 4 1
mpu 0 0 65568768 65570955 65536100
mpu 0 1 0 0 0
copy 1 65536100 65536100 1 1 names 0
copy 2 65568800 65568800 2 1 names 0
";

#[test]
fn an_mpu_is_named_from_its_first_table(rt: HostRuntime) -> Result<(), Fail> {
    let plan = changed(rt.alloc(), WORKED, PLAN_3)?;
    assert_eq!(rt; told(rt.alloc(), plan.as_str())?.as_str(), CAST_3);
    Ok(())
}

// A limit of 100 bytes, and a second table that is sent before the first. Of the first MPU two short units are
// gathered, the one of the later sample first; a cut one follows, and two short ones of different ticks. The
// next MPU has a short unit of the last tick, which is not gathered with that of the MPU before it. A second
// asset has three items of one tick, the third of which does not go into the payload of the first two.
const MIXED_PLAN: &str = r#""limit":1400 => "limit":100
 && [[0,0]]} => [[0,0],[0,1],[1,0]]},{"at":50,"kind":"table","names":[[1,0]]}
 && {"at":200,"from":0,"length":3000,"movie_fragment":1,"sample":1 => {"at":300,"from":0,"length":20,"movie_fragment":1,"sample":2,"offset":0,"priority":0,"dependency":0},{"at":300,"from":20,"length":30,"movie_fragment":1,"sample":1,"offset":0,"priority":0,"dependency":0},{"at":300,"from":50,"length":250,"movie_fragment":1,"sample":3
 && "from":3000,"length":500 => "from":300,"length":10
 && }]}]}]} => },{"at":310,"from":310,"length":10,"movie_fragment":1,"sample":3,"offset":0,"priority":0,"dependency":0}]},{"number":8,"time":4297114779648,"decoding_offset":0,"aus":[],"units":[{"at":310,"from":320,"length":10,"movie_fragment":2,"sample":1,"offset":0,"priority":0,"dependency":0}]}]},{"packet_id":255,"id":"w","type":"aapp","timed":false,"timescale":1,"file":"v.bin","mpus":[{"number":1,"time":4297114779649,"decoding_offset":0,"aus":[],"units":[{"at":300,"from":0,"length":44,"item":1},{"at":300,"from":44,"length":44,"item":2},{"at":300,"from":88,"length":1,"item":3}]}]}]}"#;

const MIXED_CAST: &str = "\
65536000 0 0 19 parameters 0
65536050 0 3 76 table 2
65536100 0 1 102 part 1 0
65536110 0 2 27 part 1 1
65536300 255 0 108 rap group 6 2
65536300 255 1 13 unit 8
65536300 256 0 90 rap group 0 2
65536300 256 1 122 fragment 2 0
65536300 256 4 32 unit 3
65536310 256 2 122 fragment 2 1
65536310 256 5 32 unit 4
65536310 256 6 32 rap unit 5
65536320 256 3 72 fragment 2 2
unit 0 0 0 65570955 65536300 65536300 0 1
unit 0 0 1 65568768 65536300 65536300 0 1
unit 0 0 2 65568768 65536300 65536320 1 3
unit 0 0 3 65570955 65536300 65536300 4 1
unit 0 0 4 65568768 65536310 65536310 5 1
unit 0 1 0 65568768 65536310 65536310 6 1
unit 1 0 0 65568769 65536300 65536300 0 1
unit 1 0 1 65568769 65536300 65536300 0 1
unit 1 0 2 65568769 65536300 65536300 1 1
mpu 0 0 65568768 65570955 65536110
mpu 0 1 65568768 65568768 65536110
mpu 1 0 65568769 65568769 65536050
copy 1 65536100 65536110 1 2 names 0 1 2
copy 2 65536050 65536050 3 1 names 2
";

#[test]
fn units_are_gathered_and_numbers_follow_the_plan(rt: HostRuntime) -> Result<(), Fail> {
    let plan = changed(rt.alloc(), WORKED, MIXED_PLAN)?;
    assert_eq!(rt; told(rt.alloc(), plan.as_str())?.as_str(), MIXED_CAST);
    Ok(())
}

// Four long units, each in 262,144 parts of 64 bytes that are sent 10 ticks apart, and a unit in 8 parts.
const LONG_UNITS: &str = r#""limit":1400 => "limit":64 && "length":3000 => "length":16777216
 && "units":[ => "units":[
{"at":200,"from":0,"length":16777216,"movie_fragment":1,"sample":3,"offset":0,"priority":0,"dependency":0},
{"at":300,"from":0,"length":16777216,"movie_fragment":1,"sample":4,"offset":0,"priority":0,"dependency":0},
{"at":400,"from":0,"length":16777216,"movie_fragment":1,"sample":5,"offset":0,"priority":0,"dependency":0},"#;

#[test]
fn a_cast_of_a_million_packets(rt: HostRuntime) -> Result<(), Fail> {
    let plan = changed(rt.alloc(), WORKED, LONG_UNITS)?;
    let programme = programme_of(rt.alloc(), plan.as_str())?;
    let cast = cast_of(rt.alloc(), &programme).ok().ok_or("no cast")?;
    let packets = cast.packets.as_slice();
    let last = packets.last().ok_or("no packet")?;
    // A buffer message, and a table in 2 parts.
    assert_eq!(rt; packets.len(), 3 + 4 * 262_144 + 8);
    // The last part of the third unit, after those of two others.
    assert_eq!(rt;
        packet_told(rt.alloc(), last)?.as_str(),
        "68157830 256 786431 86 fragment 2 262143"
    );
    Ok(())
}

// Buffer messages 2^29 ticks apart, and a table and an MPU after 2^32 ticks.
const LONG_PLAN: &str =
    r#"[[0,0]]} => [[0,0]]},{"at":2147483648,"kind":"parameters"},{"at":4294967396,"kind":"table","names":[[0,1]]}
 && }]}]}]} => }]},{"number":8,"time":285772091490304,"decoding_offset":1001,"aus":[[1001,1001]],"units":[{"at":4294967496,"from":0,"length":500,"movie_fragment":2,"sample":1,"offset":0,"priority":0,"dependency":0}]}]}]}"#;

const LONG_CAST: &str = "\
65536000 0 0 19 parameters 0
65536100 0 1 82 table 1
65536200 256 0 1422 rap fragment 0 0
65536210 256 1 1422 fragment 0 1
65536220 256 2 222 fragment 0 2
65536300 256 3 522 unit 1
2213019648 0 2 19 parameters 2
4360503396 0 3 78 table 3
4360503496 256 4 522 rap unit 2
unit 0 0 0 65568768 65536200 65536220 0 3
unit 0 0 1 65570955 65536300 65536300 3 1
unit 0 1 0 4360536064 4360503496 4360503496 4 1
mpu 0 0 65568768 65570955 65536100
mpu 0 1 4360536064 4360536064 4360503396
copy 1 65536100 65536100 1 1 names 0
copy 3 4360503396 4360503396 3 1 names 1
";

#[test]
fn ticks_do_not_wrap(rt: HostRuntime) -> Result<(), Fail> {
    let plan = changed(rt.alloc(), WORKED, LONG_PLAN)?;
    assert_eq!(rt; told(rt.alloc(), plan.as_str())?.as_str(), LONG_CAST);
    Ok(())
}

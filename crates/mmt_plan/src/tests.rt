//! The worked plans, and texts of all kinds.

use crate::desk::{ITEMS, WORKED, changed, programme_of, read, replaced, told, wrong_row};
use mmt_base::{LongTick, Ntp};
use mmt_model::{Programme, Signal, Unit, UnitKey};
use std::alloc::Global;
use std::test::Fail;

// The tick of a signalling message of a programme.
fn tick_of(programme: &Programme, place: usize) -> Option<LongTick> {
    match programme.signals.get(place)? {
        Signal::Parameters { at } => Some(*at),
        Signal::Table { at, .. } => Some(*at),
    }
}

// The number and the time of an MPU of the first asset of a programme, and its last unit.
fn mpu_of(programme: &Programme, place: usize) -> Option<(u32, Ntp, Unit)> {
    let mpu = programme.assets.get(0)?.mpus.get(place)?;
    let unit = mpu.units.as_slice().last()?;
    Some((mpu.number, mpu.time, *unit))
}

#[test]
fn the_worked_plan_is_a_programme(rt: HostRuntime) -> Result<(), Fail> {
    let programme = programme_of(rt.alloc(), WORKED)?;
    let unit = Unit {
        at: LongTick(65_536_300),
        from: 3000,
        length: 500,
        key: UnitKey::Timed {
            movie_fragment: 1,
            sample: 2,
            offset: 0,
        },
        priority: 0,
        dependency: 0,
    };
    assert_eq!(rt;
        mpu_of(&programme, 0),
        Some((7, Ntp(4_297_114_779_648), unit))
    );
    assert_eq!(rt; tick_of(&programme, 1), Some(LongTick(65_536_100)));
    assert_eq!(rt;
        programme.source.address,
        0x2001_0db8_0000_0000_0000_0000_0000_0001
    );
    Ok(())
}

// What a plan of one long unit has instead of the worked plan's values and units.
const LONG_UNIT: &str = r#""limit":1400 => "limit":60000
 && "bound":4000 => "bound":20000000
 && ,[2002,0] =>  && "length":3000 => "length":16777216
 && ,{"at":300,"from":3000,"length":500,"movie_fragment":1,"sample":2,"offset":0,"priority":0,"dependency":0} => "#;

#[test]
fn a_plan_of_one_unit_of_16_mib(rt: HostRuntime) -> Result<(), Fail> {
    let text = changed(rt.alloc(), WORKED, LONG_UNIT)?;
    let programme = programme_of(rt.alloc(), text.as_str())?;
    assert_eq!(rt;
        (programme.limit, programme.params.bound),
        (60000, 20_000_000)
    );
    let (_, _, unit) = mpu_of(&programme, 0).ok_or("no MPU")?;
    assert_eq!(rt; (unit.from, unit.length), (0, 16_777_216));
    Ok(())
}

#[test]
fn a_plan_with_a_second_table(rt: HostRuntime) -> Result<(), Fail> {
    let text = changed(
        rt.alloc(),
        WORKED,
        r#"[[0,0]]} => [[0,0]]},{"at":32800,"kind":"table","names":[[0,0]]}"#,
    )?;
    let programme = programme_of(rt.alloc(), text.as_str())?;
    assert_eq!(rt; tick_of(&programme, 2), Some(LongTick(65_568_800)));
    Ok(())
}

// What a plan over 18 hours has instead of the end of the worked plan's table and of its MPU.
const OVER_HOURS: &str = r#"[[0,0]]} => [[0,0]]},
{"at":536870912,"kind":"parameters"},{"at":1073741824,"kind":"parameters"},
{"at":1610612736,"kind":"parameters"},{"at":2147483648,"kind":"parameters"},
{"at":2684354560,"kind":"parameters"},{"at":3221225472,"kind":"parameters"},
{"at":3758096384,"kind":"parameters"},{"at":4294967296,"kind":"parameters"},
{"at":4294967396,"kind":"table","names":[[0,1]]}
 && }]}]}]} => }]},
{"number":8,"time":285772091490304,"decoding_offset":1001,"aus":[[1001,1001]],"units":[
{"at":4294967496,"from":0,"length":500,"movie_fragment":2,"sample":1,"offset":0,"priority":0,"dependency":0}
]}]}]}"#;

#[test]
fn a_plan_that_is_more_than_2_to_32_ticks_long(rt: HostRuntime) -> Result<(), Fail> {
    let text = changed(rt.alloc(), WORKED, OVER_HOURS)?;
    let programme = programme_of(rt.alloc(), text.as_str())?;
    assert_eq!(rt; programme.signals.len(), 11);
    assert_eq!(rt; tick_of(&programme, 9), Some(LongTick(4_360_503_296)));
    let (number, time, unit) = mpu_of(&programme, 1).ok_or("no MPU")?;
    assert_eq!(rt; (number, time), (8, Ntp(285_772_091_490_304)));
    assert_eq!(rt; unit.at, LongTick(4_360_503_496));
    Ok(())
}

// The names of a programme's files and the numbers of its assets' files, with a space after each.
fn files_in(alloc: Global, programme: &Programme) -> Result<String, Fail> {
    let mut text = String::new(alloc);
    for file in programme.files.as_slice() {
        text.push_str(file.as_str())?;
        text.push_str(" ")?;
    }
    for asset in programme.assets.as_slice() {
        text.push_str(format!(in alloc; "{} ", asset.file)?.as_str())?;
    }
    Ok(text)
}

#[test]
fn files_are_numbered_as_they_are_first_seen(rt: HostRuntime) -> Result<(), Fail> {
    let alloc = rt.alloc();
    let mut changes = String::from_str(alloc, r#"[[0,0]] => [[5,0]] && "assets":[ => "assets":["#)?;
    for (id, file) in [(1, "b"), (2, "a"), (3, "b"), (4, "v.bin"), (5, "a")] {
        let asset = format!(in alloc;
            "{{\"packet_id\":{id},\"id\":\"w\",\"type\":\"aapp\",\"timed\":false,\"timescale\":1,\"file\":\"{file}\",\"mpus\":[{ITEMS}]}},"
        )?;
        changes.push_str(asset.as_str())?;
    }
    let text = changed(alloc, WORKED, changes.as_str())?;
    let programme = programme_of(alloc, text.as_str())?;
    assert_eq!(rt;
        files_in(alloc, &programme)?.as_str(),
        "b a v.bin 0 1 0 2 1 2 "
    );
    Ok(())
}

#[test]
fn a_name_has_escapes_and_characters_of_many_bytes(rt: HostRuntime) -> Result<(), Fail> {
    let text = changed(
        rt.alloc(),
        WORKED,
        r#""v.bin" => "\u0076\n\/\"é日\ud83d\ude00" && "p1" => "é""#,
    )?;
    let programme = programme_of(rt.alloc(), text.as_str())?;
    assert_eq!(rt; programme.package.as_slice(), [0xc3, 0xa9].as_slice());
    let name = programme.files.get(0).map(|name| name.as_str());
    assert_eq!(rt; name, Some("v\n/\"é日\u{1f600}"));
    Ok(())
}

#[test]
fn the_last_of_two_equal_members_counts(rt: HostRuntime) -> Result<(), Fail> {
    let rows = r#""limit":1400 => "limit":"x","l\u0069mit":64 @ right
"limit":1400 => "limit":1400,"limit":63 @ value at top 0 0 0 field 5"#;
    assert_eq!(rt; wrong_row(rt.alloc(), WORKED, rows)?.as_str(), "");
    Ok(())
}

// The worked plan's members moved in their objects, with white space.
const MOVED: &str = r#"{"at":0,"kind":"parameters"} =>  {
"kind" : "parameters" , "at":0}
 && "packet_id":256, =>  && "number":7, =>  && "at":200,"from":0, => "from":0,
 && "dependency":0} => "dependency":0,"at":200}
 && }]}]}]} => }],"number":7}],"packet_id":256}]}
 && {"flow":"ff0e0000000000000000000000000101:51300", => {
 && "assets" => "flow":"ff0e0000000000000000000000000101:51300","assets""#;

// The programme that a text is, written out.
fn shown(alloc: Global, text: &str) -> Result<String, Fail> {
    let programme = programme_of(alloc, text)?;
    let text = format!(in alloc; "{programme:?}")?;
    Ok(text)
}

#[test]
fn members_stand_in_any_order(rt: HostRuntime) -> Result<(), Fail> {
    let text = changed(rt.alloc(), WORKED, MOVED)?;
    let text = replaced(rt.alloc(), text.as_str(), "\"kind\" :", "\"kind\"\t:\r\n")?;
    let moved = shown(rt.alloc(), text.as_str())?;
    let same = shown(rt.alloc(), WORKED)?;
    assert_eq!(rt; moved.as_str(), same.as_str());
    Ok(())
}

// What is told of a text that is no JSON.
const NO_JSON: &str = "mmt: plan: not-json at top 0 0 0 field 0";

#[test]
fn each_prefix_of_a_plan_is_no_json(rt: HostRuntime) -> Result<(), Fail> {
    for end in 0..WORKED.len() {
        let plan = &WORKED.as_bytes()[..end];
        assert_eq!(rt; told(rt.alloc(), plan)?.as_str(), NO_JSON, "{end} bytes");
    }
    assert!(rt; read(rt.alloc(), WORKED.as_bytes())?.is_ok());
    Ok(())
}

#[test]
fn texts_that_are_no_json_are_told(rt: HostRuntime) -> Result<(), Fail> {
    let texts = "\n \n{}{}\n{'flow':1}\n{\"flow\":01}\n{\"flow\":1e999}\n{\"flow\":1,}\nnul";
    for text in texts.lines() {
        assert_eq!(rt;
            told(rt.alloc(), text.as_bytes())?.as_str(),
            NO_JSON,
            "{text}"
        );
    }
    assert_eq!(rt; told(rt.alloc(), b"{\"\xff\":1}")?.as_str(), NO_JSON);
    Ok(())
}

// The worked plan with a member that nests N arrays, in an object that is one level itself.
fn nested(alloc: Global, levels: usize) -> Result<String, Fail> {
    let open = String::from_utf8(vec![in alloc; b'['; levels]?)
        .ok()
        .ok_or("no text")?;
    let close = String::from_utf8(vec![in alloc; b']'; levels]?)
        .ok()
        .ok_or("no text")?;
    let change = format!(in alloc; "{{\"flow\" => {{\"deep\":{open}{close},\"flow\"")?;
    changed(alloc, WORKED, change.as_str())
}

#[test]
fn arrays_and_objects_nest_127_levels(rt: HostRuntime) -> Result<(), Fail> {
    for (levels, want) in [
        (126, "mmt: plan: unknown-key at top 0 0 0 field 0"),
        (127, NO_JSON),
        (100_000, NO_JSON),
    ] {
        let text = nested(rt.alloc(), levels)?;
        assert_eq!(rt;
            told(rt.alloc(), text.as_bytes())?.as_str(),
            want,
            "{levels} levels"
        );
    }
    Ok(())
}

//! Plans for each reason, at each kind of place, with what is told.

use crate::desk::{ITEMS, OF_ASSET, WORKED, changed, files_of, shelf_of, told, wrong_row};
use crate::{PlanEnd, read_plan};
use std::alloc::Global;
use std::test::Fail;

// The worked plan without one of its members.
const MISSING: &str = r#""flow": => "flow_": @ missing at top 0 0 0 field 1
"source": => "source_": @ missing at top 0 0 0 field 2
"context": => "context_": @ missing at top 0 0 0 field 3
"full_every": => "full_every_": @ missing at top 0 0 0 field 4
"limit": => "limit_": @ missing at top 0 0 0 field 5
"spacing": => "spacing_": @ missing at top 0 0 0 field 6
"package": => "package_": @ missing at top 0 0 0 field 7
"bound": => "bound_": @ missing at top 0 0 0 field 8
"window": => "window_": @ missing at top 0 0 0 field 9
"delay": => "delay_": @ missing at top 0 0 0 field 10
"start": => "start_": @ missing at top 0 0 0 field 11
"signalling": => "signalling_": @ missing at top 0 0 0 field 12
"assets": => "assets_": @ missing at top 0 0 0 field 13
"at":0 => "at_":0 @ missing at signal 0 0 0 field 1
"kind":"parameters" => "kind_":"parameters" @ missing at signal 0 0 0 field 2
"at":100 => "at_":100 @ missing at signal 1 0 0 field 1
"kind":"table" => "kind_":"table" @ missing at signal 1 0 0 field 2
"names": => "names_": @ missing at signal 1 0 0 field 3
"packet_id": => "packet_id_": @ missing at asset 0 0 0 field 1
"id": => "id_": @ missing at asset 0 0 0 field 2
"type": => "type_": @ missing at asset 0 0 0 field 3
"timed": => "timed_": @ missing at asset 0 0 0 field 4
"timescale": => "timescale_": @ missing at asset 0 0 0 field 5
"file": => "file_": @ missing at asset 0 0 0 field 6
"mpus": => "mpus_": @ missing at asset 0 0 0 field 7
"number": => "number_": @ missing at mpu 0 0 0 field 1
"time": => "time_": @ missing at mpu 0 0 0 field 2
"decoding_offset": => "decoding_offset_": @ missing at mpu 0 0 0 field 3
"aus": => "aus_": @ missing at mpu 0 0 0 field 4
"units": => "units_": @ missing at mpu 0 0 0 field 5
"at":200 => "at_":200 @ missing at unit 0 0 0 field 1
"from":3000 => "from_":3000 @ missing at unit 0 0 1 field 2
"length":500 => "length_":500 @ missing at unit 0 0 1 field 3
"movie_fragment": => "movie_fragment_": @ missing at unit 0 0 0 field 4
"sample":2 => "sample_":2 @ missing at unit 0 0 1 field 5
"offset":0 => "offset_":0 @ missing at unit 0 0 0 field 6"#;

// A value that is to be an object is none; a member is not of its type; the object does not have a
// member; and what the objects ask of each other.
const REFUSED: &str = r#"[{"at":0 => [[],{"at":0 @ not-object at signal 0 0 0 field 0
{"at":100 => null,{"at":100 @ not-object at signal 1 0 0 field 0
"assets":[ => "assets":[7, @ not-object at asset 0 0 0 field 0
"mpus":[ => "mpus":["x", @ not-object at mpu 0 0 0 field 0
}]}]}]} => }]},false]}]} @ not-object at mpu 0 1 0 field 0
"units":[ => "units":[[], @ not-object at unit 0 0 0 field 0
}]}]}]} => },1.5]}]}]} @ not-object at unit 0 0 2 field 0
"context":1 => "context":"1" @ value at top 0 0 0 field 3
"limit":1400 => "limit":1.4e3 @ value at top 0 0 0 field 5
"full_every":3 => "full_every":-0 @ value at top 0 0 0 field 4
"signalling":[ => "signalling":null,"s":[ @ value at top 0 0 0 field 12
"parameters" => "Parameters" @ value at signal 0 0 0 field 2
[[0,0]] => [[0,0,0]] @ value at signal 1 0 0 field 3
[[0,0]] => [0] @ value at signal 1 0 0 field 3
"timed":true => "timed":1 @ value at asset 0 0 0 field 4
"number":7 => "number":-1 @ value at mpu 0 0 0 field 1
[1001,1001] => [1001] @ value at au 0 0 0 field 0
[2002,0] => {} @ value at au 0 0 1 field 0
"sample":2 => "sample":null @ value at unit 0 0 1 field 5
{"flow" => {"":0,"flow" @ unknown-key at top 0 0 0 field 0
{"at":0, => {"at":0,"names":[], @ unknown-key at signal 0 0 0 field 0
{"at":100 => {"AT":0,"at":100 @ unknown-key at signal 1 0 0 field 0
{"packet_id" => {"item":0,"packet_id" @ unknown-key at asset 0 0 0 field 0
{"number" => {"x":0,"number" @ unknown-key at mpu 0 0 0 field 0
{"at":300 => {"item":0,"at":300 @ unknown-key at unit 0 0 1 field 0
[[0,0]] => [[0,1]] @ no-such-mpu at signal 1 0 0 field 3
[[0,0]] => [[0,0],[1,0]] @ no-such-mpu at signal 1 0 0 field 3
[[0,0]] => [[4294967295,4294967295]] @ no-such-mpu at signal 1 0 0 field 3"#;

// Plans with two faults or more, and the one that is told.
const FIRST: &str =
    r#""context":1 => "context":4096 && "source" => "x" @ missing at top 0 0 0 field 2
"context":1 => "context":4096 && "limit" => "x" @ value at top 0 0 0 field 3
{"flow" => {"x":0,"flow" && "priority":0 => "priority":256 @ value at unit 0 0 0 field 7
{"at":200 => {"x":0,"at":200 && "from":3000 => "from":-1 @ unknown-key at unit 0 0 0 field 0
{"number" => {"x":0,"number" && [2002,0] => [2002] @ value at au 0 0 1 field 0
"start":65536000 => "start":-1 && "at":0 => "at":-1 @ value at top 0 0 0 field 11
[[0,0]] => [[0,1]] && "dependency" => "x" @ missing at unit 0 0 0 field 8
"v.bin" => "" && "mpus":[ => "mpus":[0, @ value at asset 0 0 0 field 6"#;

// An item has a number, and its MPU no access units.
const OF_ITEMS: &str = r#""aus":[] => "aus":[] @ right
"aus":[] => "aus":[[0,0]] @ value at mpu 0 0 0 field 4
"aus":[] => "aus":[7] @ value at mpu 0 0 0 field 4
"item":1 => "item":4294967296 @ value at unit 0 0 0 field 4
"item":1 => "sample":1 @ missing at unit 0 0 0 field 4
"item":1 => "item":1,"priority":0 @ unknown-key at unit 0 0 0 field 0"#;

// Two MPUs of the first asset have one number: then packet ids are looked at first, and what a table
// names last.
const TWICE: &str = r#""time":0 => "time":1 @ mpu-twice at mpu 0 1 0 field 1
"packet_id":256 => "packet_id":257 @ packet-id-twice at asset 1 0 0 field 1
[[0,0]] => [[2,0]] @ mpu-twice at mpu 0 1 0 field 1"#;

#[test]
fn a_member_that_is_not_there_is_missing(rt: HostRuntime) -> Result<(), Fail> {
    assert_eq!(rt; wrong_row(rt.alloc(), WORKED, MISSING)?.as_str(), "");
    Ok(())
}

#[test]
fn each_refusal_has_its_place(rt: HostRuntime) -> Result<(), Fail> {
    assert_eq!(rt; wrong_row(rt.alloc(), WORKED, REFUSED)?.as_str(), "");
    for text in ["[]", "null", "\"plan\"", "1", "true"] {
        let top = "mmt: plan: not-object at top 0 0 0 field 0";
        assert_eq!(rt; told(rt.alloc(), text.as_bytes())?.as_str(), top, "{text}");
    }
    Ok(())
}

#[test]
fn the_first_of_several_faults_is_told(rt: HostRuntime) -> Result<(), Fail> {
    assert_eq!(rt; wrong_row(rt.alloc(), WORKED, FIRST)?.as_str(), "");
    Ok(())
}

// The worked plan with an asset of items of these MPUs before its own.
fn with_items(alloc: Global, mpus: &str) -> Result<String, Fail> {
    let asset = format!(in alloc;
        "\"assets\":[ => \"assets\":[{{{OF_ASSET},\"file\":\"w\",\"mpus\":[{mpus}]}},"
    )?;
    changed(alloc, WORKED, asset.as_str())
}

#[test]
fn ids_and_numbers_stand_once(rt: HostRuntime) -> Result<(), Fail> {
    let mpus = format!(in rt.alloc(); "{ITEMS},{ITEMS}")?;
    let text = with_items(rt.alloc(), mpus.as_str())?;
    assert_eq!(rt; wrong_row(rt.alloc(), text.as_str(), TWICE)?.as_str(), "");
    Ok(())
}

#[test]
fn an_item_has_a_number_and_no_access_units(rt: HostRuntime) -> Result<(), Fail> {
    let text = with_items(rt.alloc(), ITEMS)?;
    assert_eq!(rt;
        wrong_row(rt.alloc(), text.as_str(), OF_ITEMS)?.as_str(),
        ""
    );
    Ok(())
}

#[test]
fn a_plan_is_there_and_not_too_long(rt: HostRuntime) -> Result<(), Fail> {
    let alloc = rt.alloc();
    let mut long = vec![in alloc; b' '; 16_777_217 - WORKED.len()]?;
    long.extend_from_slice(WORKED.as_bytes())?;
    let end = told(alloc, &long)?;
    assert_eq!(rt; end.as_str(), "mmt: plan: plan-long at top 0 0 0 field 0");
    assert_eq!(rt; told(alloc, &long[1..])?.as_str(), "mmt: plan: right");
    let mut shelf = shelf_of(alloc, WORKED.as_bytes(), None, &[])?;
    let end = read_plan(alloc, &mut shelf, "plan.json")
        .err()
        .ok_or("a programme")?;
    let end = format!(in alloc; "mmt: {end}")?;
    assert_eq!(rt; end.as_str(), "mmt: plan: plan-absent at top 0 0 0 field 0");
    Ok(())
}

#[test]
fn a_read_that_fails_ends_the_reading(rt: HostRuntime) -> Result<(), Fail> {
    for failing in [0, 1] {
        let mut shelf = shelf_of(rt.alloc(), WORKED.as_bytes(), None, &[failing])?;
        let end = read_plan(rt.alloc(), &mut shelf, "plan").err();
        assert_eq!(rt; end, Some(PlanEnd::ReadFault), "read {failing}");
    }
    Ok(())
}

// The first row of a table that is wrong, with what is printed, or no text. A row is `LENGTH PRINTED`:
// what is printed for the files of a plan where `v.bin` has N bytes.
fn wrong_length(alloc: Global, text: &str, rows: &str) -> Result<String, Fail> {
    for row in rows.lines() {
        let (length, want) = row.split_once(" ").ok_or("no row")?;
        let length = length.parse::<u32>().ok().ok_or("no length")?;
        let file = vec![in alloc; 0u8; length as usize]?;
        let end = files_of(alloc, text, Some(&file), &[])?;
        if end.as_str() != want {
            return Ok(format!(in alloc; "{row}, and not {end}")?);
        }
    }
    Ok(String::new(alloc))
}

// Lengths of the file of the worked plan.
const LENGTHS: &str = "\
3500 right
3499 mmt: plan: unit-short at unit 0 0 1 field 3
3000 mmt: plan: unit-short at unit 0 0 1 field 3
2999 mmt: plan: unit-short at unit 0 0 0 field 3
0 mmt: plan: unit-short at unit 0 0 0 field 3";

#[test]
fn a_file_is_long_enough(rt: HostRuntime) -> Result<(), Fail> {
    assert_eq!(rt; wrong_length(rt.alloc(), WORKED, LENGTHS)?.as_str(), "");
    Ok(())
}

#[test]
fn a_file_is_there(rt: HostRuntime) -> Result<(), Fail> {
    let end = files_of(rt.alloc(), WORKED, None, &[])?;
    assert_eq!(rt;
        end.as_str(),
        "mmt: plan: file-absent at asset 0 0 0 field 6"
    );
    Ok(())
}

// The worked plan with a second asset of one item in this file.
fn with_file(alloc: Global, file: &str) -> Result<String, Fail> {
    let asset = format!(in alloc;
        "}}]}}]}}]}} => }}]}}]}},{{{OF_ASSET},\"file\":\"{file}\",\"mpus\":[{ITEMS}]}}]}}"
    )?;
    changed(alloc, WORKED, asset.as_str())
}

// Lengths of the first asset's file, where that of the second is not there.
const FIRST_LENGTHS: &str = "\
3499 mmt: plan: unit-short at unit 0 0 1 field 3
3500 mmt: plan: file-absent at asset 1 0 0 field 6";

#[test]
fn files_are_tried_asset_by_asset(rt: HostRuntime) -> Result<(), Fail> {
    let text = with_file(rt.alloc(), "w")?;
    let wrong = wrong_length(rt.alloc(), text.as_str(), FIRST_LENGTHS)?;
    assert_eq!(rt; wrong.as_str(), "");
    Ok(())
}

#[test]
fn a_file_that_is_long_enough_is_asked_once_an_asset(rt: HostRuntime) -> Result<(), Fail> {
    let alloc = rt.alloc();
    let file = vec![in alloc; 0u8; 3500]?;
    let text = with_file(alloc, "v.bin")?;
    for failing in [0, 1] {
        let end = files_of(alloc, text.as_str(), Some(&file), &[failing])?;
        assert_eq!(rt; end.as_str(), "mmt: read fault", "read {failing}");
    }
    let end = files_of(alloc, text.as_str(), Some(&file), &[2, 3, 4, 5])?;
    assert_eq!(rt; end.as_str(), "right");
    Ok(())
}

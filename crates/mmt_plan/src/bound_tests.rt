//! Numbers, texts and lists at and past each bound.

use crate::desk::{WORKED, changed, replaced, wrong_row};
use std::alloc::Global;
use std::test::Fail;

// The worked plan with a value that is just in its range.
const RIGHT: &str =
    r#""ff0e0000000000000000000000000101:51300" => "00000000000000000000000000000000:1" @ right
"ff0e0000000000000000000000000101:51300" => "ffffffffffffffffffffffffffffffff:65535" @ right
"ff0e0000000000000000000000000101:51300" => "ff0e0000000000000000000000000101:124" @ right
"20010db8000000000000000000000001:51300" => "20010db8000000000000000000000001:65535" @ right
"context":1 => "context":0 @ right
"context":1 => "context":4095 @ right
"full_every":3 => "full_every":0 @ right
"full_every":3 => "full_every":65535 @ right
"limit":1400 => "limit":64 @ right
"limit":1400 => "limit":60000 @ right
"spacing":10 => "spacing":0 @ right
"spacing":10 => "spacing":65535 @ right
"bound":4000 => "bound":0 @ right
"bound":4000 => "bound":4294967295 @ right
"window":65536 => "window":0 @ right
"window":65536 => "window":4294967295 @ right
"delay":1000 => "delay":0 @ right
"delay":1000 => "delay":4294967295 @ right
"start":65536000 => "start":0 @ right
"start":65536000 => "start":140737488355328 @ right
"at":0 => "at":140737488355328 @ right
[[0,0]] => [] @ right
"packet_id":256 => "packet_id":1 @ right
"packet_id":256 => "packet_id":65535 @ right
"hev1" => "    " @ right
"hev1" => "~~~~" @ right
"timescale":60000 => "timescale":1 @ right
"timescale":60000 => "timescale":4294967295 @ right
"number":7 => "number":0 @ right
"number":7 => "number":4294967295 @ right
"time":4297114779648 => "time":0 @ right
"time":4297114779648 => "time":18446744073709551615 @ right
"decoding_offset":1001 => "decoding_offset":65535 @ right
[1001,1001] => [0,65535] @ right
[1001,1001] => [65535,0] @ right
"at":300 => "at":0 @ right
"at":300 => "at":140737488355328 @ right
"from":3000 => "from":1099511627776 @ right
"length":500 => "length":1 @ right
"length":500 => "length":16777216 @ right
"movie_fragment":1 => "movie_fragment":4294967295 @ right
"sample":2 => "sample":4294967295 @ right
"offset":0 => "offset":4294967295 @ right
"priority":0 => "priority":255 @ right
"dependency":0 => "dependency":255 @ right"#;

// The worked plan with a value that is just out of its range.
const WRONG: &str =
    r#""ff0e0000000000000000000000000101:51300" => "ff0e0000000000000000000000000101:0" @ value at top 0 0 0 field 1
"ff0e0000000000000000000000000101:51300" => "ff0e0000000000000000000000000101:65536" @ value at top 0 0 0 field 1
"ff0e0000000000000000000000000101:51300" => "ff0e0000000000000000000000000101:123" @ value at top 0 0 0 field 1
"ff0e0000000000000000000000000101:51300" => "ff0e0000000000000000000000000101:0124" @ value at top 0 0 0 field 1
"ff0e0000000000000000000000000101:51300" => "ff0e0000000000000000000000000101:" @ value at top 0 0 0 field 1
"ff0e0000000000000000000000000101:51300" => "FF0E0000000000000000000000000101:124" @ value at top 0 0 0 field 1
"ff0e0000000000000000000000000101:51300" => "f0e0000000000000000000000000101:124" @ value at top 0 0 0 field 1
"ff0e0000000000000000000000000101:51300" => "" @ value at top 0 0 0 field 1
"20010db8000000000000000000000001:51300" => "20010db8000000000000000000000001:123" @ value at top 0 0 0 field 2
"20010db8000000000000000000000001:51300" => 1 @ value at top 0 0 0 field 2
"context":1 => "context":4096 @ value at top 0 0 0 field 3
"full_every":3 => "full_every":65536 @ value at top 0 0 0 field 4
"limit":1400 => "limit":63 @ value at top 0 0 0 field 5
"limit":1400 => "limit":60001 @ value at top 0 0 0 field 5
"spacing":10 => "spacing":65536 @ value at top 0 0 0 field 6
"bound":4000 => "bound":4294967296 @ value at top 0 0 0 field 8
"window":65536 => "window":4294967296 @ value at top 0 0 0 field 9
"delay":1000 => "delay":4294967296 @ value at top 0 0 0 field 10
"start":65536000 => "start":140737488355329 @ value at top 0 0 0 field 11
"start":65536000 => "start":18446744073709551616 @ value at top 0 0 0 field 11
"at":0 => "at":140737488355329 @ value at signal 0 0 0 field 1
[[0,0]] => [[0,4294967296]] @ value at signal 1 0 0 field 3
[[0,0]] => [[4294967296,0]] @ value at signal 1 0 0 field 3
[[0,0]] => [[0,0],[0,0]] @ value at signal 1 0 0 field 3
[[0,0]] => [[0,1],[0,0]] @ value at signal 1 0 0 field 3
[[0,0]] => [[1,0],[0,1]] @ value at signal 1 0 0 field 3
[[0,0]] => [[0,-1]] @ value at signal 1 0 0 field 3
"packet_id":256 => "packet_id":0 @ value at asset 0 0 0 field 1
"packet_id":256 => "packet_id":65536 @ value at asset 0 0 0 field 1
"hev1" => "hev" @ value at asset 0 0 0 field 3
"hev1" => "hevc1" @ value at asset 0 0 0 field 3
"hev1" => "hev\u007f" @ value at asset 0 0 0 field 3
"hev1" => "éé" @ value at asset 0 0 0 field 3
"hev1" => "h\u001fv1" @ value at asset 0 0 0 field 3
"timescale":60000 => "timescale":0 @ value at asset 0 0 0 field 5
"timescale":60000 => "timescale":4294967296 @ value at asset 0 0 0 field 5
"number":7 => "number":4294967296 @ value at mpu 0 0 0 field 1
"time":4297114779648 => "time":18446744073709551616 @ value at mpu 0 0 0 field 2
"decoding_offset":1001 => "decoding_offset":65536 @ value at mpu 0 0 0 field 3
[1001,1001] => [65536,0] @ value at au 0 0 0 field 0
[1001,1001] => [0,65536] @ value at au 0 0 0 field 0
[1001,1001] => [-1,0] @ value at au 0 0 0 field 0
[1001,1001] => [0,1.0] @ value at au 0 0 0 field 0
"at":300 => "at":140737488355329 @ value at unit 0 0 1 field 1
"from":3000 => "from":1099511627777 @ value at unit 0 0 1 field 2
"length":500 => "length":0 @ value at unit 0 0 1 field 3
"length":500 => "length":16777217 @ value at unit 0 0 1 field 3
"movie_fragment":1 => "movie_fragment":4294967296 @ value at unit 0 0 0 field 4
"sample":2 => "sample":4294967296 @ value at unit 0 0 1 field 5
"offset":0 => "offset":4294967296 @ value at unit 0 0 0 field 6
"priority":0 => "priority":256 @ value at unit 0 0 0 field 7
"dependency":0 => "dependency":256 @ value at unit 0 0 0 field 8"#;

// The worked plan with an empty list.
const EMPTY: &str = r#""mpus": => "mpus":[],"x": @ value at asset 0 0 0 field 7
"units": => "units":[],"x": @ value at mpu 0 0 0 field 5
{"at":0,"kind":"parameters"}, =>  && {"at":100,"kind":"table","names":[[0,0]]} =>  @ right
[[1001,1001],[2002,0]] => [] @ right"#;

#[test]
fn a_value_is_right_up_to_its_bounds(rt: HostRuntime) -> Result<(), Fail> {
    assert_eq!(rt; wrong_row(rt.alloc(), WORKED, RIGHT)?.as_str(), "");
    Ok(())
}

#[test]
fn a_value_past_its_bounds_is_refused(rt: HostRuntime) -> Result<(), Fail> {
    assert_eq!(rt; wrong_row(rt.alloc(), WORKED, WRONG)?.as_str(), "");
    Ok(())
}

#[test]
fn an_asset_has_an_mpu_and_an_mpu_a_unit(rt: HostRuntime) -> Result<(), Fail> {
    assert_eq!(rt; wrong_row(rt.alloc(), WORKED, EMPTY)?.as_str(), "");
    Ok(())
}

// A text N times.
fn repeated(alloc: Global, text: &str, times: u32) -> Result<String, Fail> {
    let mut all = String::new(alloc);
    for _ in 0..times {
        all.push_str(text)?;
    }
    Ok(all)
}

#[test]
fn texts_have_1_to_255_bytes(rt: HostRuntime) -> Result<(), Fail> {
    let alloc = rt.alloc();
    let text = repeated(alloc, "x", 255)?;
    for (name, place) in [
        ("p1", "top 0 0 0 field 7"),
        ("v", "asset 0 0 0 field 2"),
        ("v.bin", "asset 0 0 0 field 6"),
    ] {
        let rows = format!(in alloc;
            "\"{name}\" => \"{text}\" @ right\n\"{name}\" => \"{text}x\" @ value at {place}\n\"{name}\" => \"\" @ value at {place}"
        )?;
        assert_eq!(rt; wrong_row(alloc, WORKED, rows.as_str())?.as_str(), "");
    }
    Ok(())
}

#[test]
fn an_mpu_has_60_access_units_at_most(rt: HostRuntime) -> Result<(), Fail> {
    let alloc = rt.alloc();
    let aus = repeated(alloc, ",[0,0]", 58)?;
    // The length is looked at before the items.
    let rows = format!(in alloc;
        "[2002,0] => [2002,0]{aus} @ right\n[2002,0] => [2002,0]{aus},7 @ value at mpu 0 0 0 field 4"
    )?;
    assert_eq!(rt; wrong_row(alloc, WORKED, rows.as_str())?.as_str(), "");
    Ok(())
}

#[test]
fn a_plan_has_1_to_255_assets(rt: HostRuntime) -> Result<(), Fail> {
    let alloc = rt.alloc();
    let (_, asset) = WORKED.split_once("\"assets\":[").ok_or("no assets")?;
    let asset = asset.strip_suffix("]}").ok_or("no end")?;
    let mut assets = String::from_str(alloc, "\"assets\":[ => \"assets\":[")?;
    for id in 1001..1255 {
        let number = format!(in alloc; "\"packet_id\":{id}")?;
        assets.push_str(replaced(alloc, asset, "\"packet_id\":256", number.as_str())?.as_str())?;
        assets.push_str(",")?;
    }
    let most = changed(alloc, WORKED, assets.as_str())?;
    let rows = r#"[[0,0]] => [[254,0]] @ right
"assets":[ => "assets":[0, @ value at top 0 0 0 field 13
"assets": => "assets":[],"assets_": @ value at top 0 0 0 field 13"#;
    assert_eq!(rt; wrong_row(alloc, most.as_str(), rows)?.as_str(), "");
    Ok(())
}

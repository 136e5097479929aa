//! A worked plan, plans that differ from it, and what is told of their casts.

ghost use Rattle.std.specs.Prelude.{IfOk};
ghost use Rattle.mmt_model.specs.Right.{IsRight};

use crate::{CastEnd, cast_of};
use mmt_io::MemoryShelf;
use mmt_model::{Carries, Cast, Programme, Sent, TableCopy};
use mmt_plan::read_plan;
use std::alloc::Global;
use std::test::Fail;

// Two units, the first of which is cut.
pub const WORKED: &str =
    "{\"flow\":\"ff0e0000000000000000000000000101:51300\",\"source\":\"20010db8000000000000000000000001:51300\",\"context\":1,\"full_every\":3,\"limit\":1400,\"spacing\":10,\"package\":\"p1\",\"bound\":4000,\"window\":65536,\"delay\":1000,\"start\":65536000,\"signalling\":[{\"at\":0,\"kind\":\"parameters\"},{\"at\":100,\"kind\":\"table\",\"names\":[[0,0]]}],\"assets\":[{\"packet_id\":256,\"id\":\"v\",\"type\":\"hev1\",\"timed\":true,\"timescale\":60000,\"file\":\"v.bin\",\"mpus\":[{\"number\":7,\"time\":4297114779648,\"decoding_offset\":1001,\"aus\":[[1001,1001],[2002,0]],\"units\":[{\"at\":200,\"from\":0,\"length\":3000,\"movie_fragment\":1,\"sample\":1,\"offset\":0,\"priority\":0,\"dependency\":0},{\"at\":300,\"from\":3000,\"length\":500,\"movie_fragment\":1,\"sample\":2,\"offset\":0,\"priority\":0,\"dependency\":0}]}]}]}";

// The programme that a text is.
pub fn programme_of(alloc: Global, text: &str) -> Result<Programme, Fail>
    ensures { IfOk result IsRight }
{
    let mut shelf = MemoryShelf::new(alloc, Vec::new(alloc));
    shelf.put("plan", text.as_bytes().to_vec(alloc)?)?;
    match read_plan(alloc, &mut shelf, "plan") {
        Ok(programme) => Ok(programme),
        Err(_) => Err("refused")?,
    }
}

// A text with changes in it, one after the other: each is `FROM => TO`, and ` && ` stands between them.
pub fn changed(alloc: Global, text: &str, changes: &str) -> Result<String, Fail> {
    let mut text = String::from_str(alloc, text)?;
    for change in changes.split(" && ") {
        let (from, to) = change.split_once(" => ").ok_or("no change")?;
        let (before, after) = text.as_str().split_once(from).ok_or("not there")?;
        text = format!(in alloc; "{before}{to}{after}")?;
    }
    Ok(text)
}

// What a packet carries.
fn carried(alloc: Global, packet: &Sent) -> Result<String, Fail> {
    let text = match packet.carries {
        Carries::Whole { unit } => format!(in alloc; "unit {unit}")?,
        Carries::Fragment { unit, number } => format!(in alloc; "fragment {unit} {number}")?,
        Carries::Group { first, count } => format!(in alloc; "group {first} {count}")?,
        Carries::Parameters { signal } => format!(in alloc; "parameters {signal}")?,
        Carries::Table { signal } => format!(in alloc; "table {signal}")?,
        Carries::TablePart { signal, number } => format!(in alloc; "part {signal} {number}")?,
    };
    Ok(text)
}

// A packet: timestamp, packet id, number, bytes of payload, the flag R, and what it carries.
pub fn packet_told(alloc: Global, packet: &Sent) -> Result<String, Fail> {
    let rap = if packet.rap { "rap " } else { "" };
    let carries = carried(alloc, packet)?;
    let (at, id) = (packet.at.0, packet.packet_id);
    let (number, length) = (packet.number, packet.length);
    Ok(format!(in alloc; "{at} {id} {number} {length} {rap}{carries}")?)
}

// A table copy: the message, its MPUs, and its packets.
fn copy_told(alloc: Global, copy: &TableCopy) -> Result<String, Fail> {
    let mut names = String::new(alloc);
    for name in copy.names.as_slice() {
        names.push_str(format!(in alloc; " {name}")?.as_str())?;
    }
    let (first, last) = (copy.first.0, copy.last.0);
    let (signal, number, count) = (copy.signal, copy.first_number, copy.count);
    Ok(format!(in alloc; "copy {signal} {first} {last} {number} {count} names{names}")?)
}

// The packets, units, MPUs and table copies of a cast, a line each.
fn lists_told(alloc: Global, cast: &Cast) -> Result<String, Fail> {
    let mut text = String::new(alloc);
    for packet in cast.packets.as_slice() {
        let line = packet_told(alloc, packet)?;
        text.push_str(format!(in alloc; "{line}\n")?.as_str())?;
    }
    for u in cast.units.as_slice() {
        let (first, last, due) = (u.first.0, u.last.0, u.due.0);
        let place = format!(in alloc; "unit {} {} {}", u.asset, u.mpu, u.unit)?;
        let line = format!(in alloc;
            "{place} {due} {first} {last} {} {}\n",
            u.first_number, u.count
        )?;
        text.push_str(line.as_str())?;
    }
    for m in cast.mpus.as_slice() {
        let named = m.named_from.map_or(0, |tick| tick.0);
        let (least, last) = (m.least.0, m.last.0);
        let line = format!(in alloc; "mpu {} {} {least} {last} {named}\n", m.asset, m.mpu)?;
        text.push_str(line.as_str())?;
    }
    for copy in cast.copies.as_slice() {
        let line = copy_told(alloc, copy)?;
        text.push_str(format!(in alloc; "{line}\n")?.as_str())?;
    }
    Ok(text)
}

// Why there is no cast.
pub fn end_told(alloc: Global, end: CastEnd) -> Result<String, Fail> {
    let text = match end {
        CastEnd::TimeRange { asset, mpu, au } => format!(in alloc; "time {asset} {mpu} {au}")?,
        CastEnd::TableLong { signal } => format!(in alloc; "table {signal}")?,
        CastEnd::CastLong { packets } => format!(in alloc; "packets {packets}")?,
        CastEnd::OutOfMemory => format!(in alloc; "memory")?,
    };
    Ok(text)
}

// What is told of the cast of a plan.
pub fn told(alloc: Global, text: &str) -> Result<String, Fail> {
    let programme = programme_of(alloc, text)?;
    match cast_of(alloc, &programme) {
        Ok(cast) => lists_told(alloc, &cast),
        Err(end) => end_told(alloc, end),
    }
}

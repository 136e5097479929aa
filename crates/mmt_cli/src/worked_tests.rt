//! The commands over the worked stream.

use crate::run::run;
use crate::status::Status;
use crate::tests::words;
use crate::worked::{LENGTH, PACKETS, packet, stream};
use mmt_io::{MemoryPort, MemoryShelf};
use std::alloc::Global;
use std::test::Fail;

/// The first packet: a full header, and the buffer message.
const FIRST: &[u8] =
    b"\x7f\x03\x00\x4c\x00\x10\x60\x60\x00\x00\x00\x11\x40\x20\x01\x0d\xb8\x00\x00\x00\x00\x00\x00\x00\x00\x00\x00\x00\x01\xff\x0e\x00\x00\x00\x00\x00\x00\x00\x00\x00\x00\x00\x00\x01\x01\xc8\x64\xc8\x64\x00\x02\x00\x00\x03\xe8\x00\x00\x00\x00\x00\x00\x00\x00\xf1\x00\x00\x00\x0c\x00\x00\x0f\xa0\x00\x01\x00\x00\x00\x00\x03\xe8";

const TABLE: &[u8] =
    b"80 ctx 97 | cid 1 seq 1 short | mmtp id 0 type 2 time 65536100 number 1 rap 0 payload 82 | sig part 0 messages 1 [pa 1 [mpt 1 [name 256 7 4297114779648 times 4297114779648 4297258088390]]]";

const FEC: &[u8] = b"181 ctx 1437 | cid 1 seq 2 short | refused 188 mmtp-fec 1";

const CTX_KIND: &[u8] = b"181 ctx 1437 | refused 187 ctx-kind 32";

// What a command writes, where it does its work.
fn written(alloc: Global, texts: &[&str], input: Vec<u8>) -> Result<Vec<u8>, Fail> {
    let words = words(alloc, texts)?;
    let mut port = MemoryPort::new(alloc, input, 100, 10_000, Vec::new(alloc))?;
    let mut shelf = MemoryShelf::new(alloc, Vec::new(alloc));
    match run(alloc, &words, &mut port, &mut shelf) {
        Status::Done => Ok(Vec::from_slice(alloc, port.written())?),
        _ => Err("not done")?,
    }
}

// One line of a text, counted from 0, without its line feed.
fn line(text: &[u8], number: usize) -> Option<&[u8]> {
    let mut rest = text;
    for _ in 0..number {
        let end = rest.iter().position(|byte| *byte == b'\n')?;
        rest = rest.get(end.checked_add(1)?..)?;
    }
    let end = rest.iter().position(|byte| *byte == b'\n')?;
    rest.get(..end)
}

// The worked stream with another byte at a place.
fn damaged(alloc: Global, place: usize, byte: u8) -> Result<Vec<u8>, Fail> {
    let mut bytes = stream(alloc)?;
    *bytes.get_mut(place).ok_or("short")? = byte;
    Ok(bytes)
}

#[test]
fn the_worked_stream_has_its_packets(rt: HostRuntime) -> Result<(), Fail> {
    let alloc = rt.alloc();
    let all = stream(alloc)?;
    assert_eq!(rt; all.len(), LENGTH);
    let mut end = 0;
    for number in 0..PACKETS.len() {
        let (place, length) = PACKETS.get(number).copied().ok_or("packet")?;
        assert_eq!(rt; place, end);
        assert_eq!(rt; packet(alloc, number)?.len(), length);
        end = place + length;
    }
    assert_eq!(rt; end, LENGTH);
    assert_eq!(rt; packet(alloc, 0)?.as_slice(), FIRST);
    Ok(())
}

#[test]
fn peak_of_the_worked_stream(rt: HostRuntime) -> Result<(), Fail> {
    let alloc = rt.alloc();
    let words = [
        "peak", "--delay", "1000", "--window", "65536", "--bound", "3688",
    ];
    let told = written(alloc, &words, stream(alloc)?)?;
    let want = b"heard 6 stored 5 late 0 repeat 0 full 1 refused 0 peak 3167\n";
    assert_eq!(rt; told.as_slice(), want.as_slice());
    Ok(())
}

#[test]
fn lists_the_worked_table(rt: HostRuntime) -> Result<(), Fail> {
    let alloc = rt.alloc();
    let told = written(alloc, &["list"], stream(alloc)?)?;
    assert_eq!(rt; line(&told, 1).ok_or("line")?, TABLE);
    Ok(())
}

#[test]
fn lists_damaged_packets(rt: HostRuntime) -> Result<(), Fail> {
    let alloc = rt.alloc();
    let fec = written(alloc, &["list"], damaged(alloc, 188, 0x08)?)?;
    assert_eq!(rt; line(&fec, 2).ok_or("line")?, FEC);
    let kind = written(alloc, &["list"], damaged(alloc, 187, 0x20)?)?;
    assert_eq!(rt; line(&kind, 2).ok_or("line")?, CTX_KIND);
    Ok(())
}

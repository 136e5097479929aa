//! The command `peak` over ports in memory.

use crate::run::run;
use crate::status::Status;
use crate::tests::{port, words};
use mmt_io::MemoryShelf;
use std::alloc::{AllocError, Global};
use std::test::Fail;

// From 2001:db8::1 to ff0e::101, both by port 51300.
const HEADERS: [u8; 52] = [
    0x7F, 0x02, 0, 0, 0x60, 0, 0, 0, 0, 0, 17, 64, 0x20, 0x01, 0x0D, 0xB8, 0, 0, 0, 0, 0, 0, 0, 0,
    0, 0, 0, 1, 0xFF, 0x0E, 0, 0, 0, 0, 0, 0, 0, 0, 0, 0, 0, 0, 0x01, 0x01, 0xC8, 0x64, 0xC8, 0x64,
    0, 0, 0, 0,
];

// Adds an MPU packet with a first byte, a timestamp, a number, and a payload of N zeros.
fn add(out: &mut Vec<u8>, first: u8, time: u16, number: u8, size: u8) -> Result<(), AllocError> {
    let mut bytes = HEADERS;
    bytes[3] = 60_u8.saturating_add(size);
    bytes[9] = 20_u8.saturating_add(size);
    bytes[49] = 20_u8.saturating_add(size);
    out.extend_from_slice(&bytes)?;
    let [high, low] = time.to_be_bytes();
    out.extend_from_slice(&[first, 0, 1, 0, 0, 0, high, low, 0, 0, 0, number])?;
    for _ in 0..size {
        out.push(0)?;
    }
    Ok(())
}

// Words that hear the flow of `HEADERS` alone.
const ONE: [&str; 9] = [
    "peak",
    "--delay",
    "300",
    "--window",
    "1000",
    "--bound",
    "35",
    "--flow",
    "ff0e0000000000000000000000000101:51300",
];

// What `peak` answers and writes.
fn peaks(alloc: Global, texts: &[&str], input: &[u8], line: &str) -> Result<bool, Fail> {
    let words = words(alloc, texts)?;
    let mut port = port(alloc, input, &[])?;
    let mut shelf = MemoryShelf::new(alloc, Vec::new(alloc));
    let status = run(alloc, &words, &mut port, &mut shelf);
    Ok(status == Status::Done && port.written() == line.as_bytes())
}

#[test]
fn counts_what_a_buffer_holds(rt: HostRuntime) -> Result<(), Fail> {
    let alloc = rt.alloc();
    let mut input = Vec::new(alloc);
    add(&mut input, 0, 1000, 0, 10)?;
    add(&mut input, 0, 1000, 0, 10)?;
    add(&mut input, 0, 1500, 1, 20)?;
    add(&mut input, 0, 1100, 2, 5)?;
    add(&mut input, 0, 1300, 3, 6)?;
    add(&mut input, 0, 2000, 4, 15)?;
    add(&mut input, 8, 2000, 5, 1)?;
    let words = [
        "peak", "--delay", "300", "--window", "1000", "--bound", "35",
    ];
    let line = "heard 6 stored 3 late 1 repeat 1 full 1 refused 1 peak 35\n";
    assert!(rt; peaks(alloc, &words, &input, line)?);
    let mut one = ONE;
    assert!(rt; peaks(alloc, &one, &input, line)?);
    one[8] = "ff0e0000000000000000000000000101:51301";
    let unheard = "heard 0 stored 0 late 0 repeat 0 full 0 refused 0 peak 0\n";
    assert!(rt; peaks(alloc, &one, &input, unheard)?);
    let least = ["peak", "--delay", "1", "--window", "2", "--bound", "1"];
    let none = "heard 0 stored 0 late 0 repeat 0 full 0 refused 0 peak 0\n";
    assert!(rt; peaks(alloc, &least, &[], none)?);
    let most = [
        "peak",
        "--delay",
        "16777215",
        "--window",
        "16777216",
        "--bound",
        "1073741824",
    ];
    assert!(rt; peaks(alloc, &most, &[], none)?);
    Ok(())
}

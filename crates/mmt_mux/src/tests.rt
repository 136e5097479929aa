//! A stream with bytes from outside, and a file that changes while it is sent.

ghost use Rattle.std.specs.Prelude.{None, false};

use crate::{MuxEnd, mux};
use mmt_io::{MemoryPort, MemoryShelf, Shelf, ShelfFault};
use mmt_plan::{PlanPart, PlanPlace, Reason};
use std::alloc::Global;
use std::fmt::Write;
use std::test::Fail;

// A plan of one item, in plain IPv6.
const PLAN: &str = r#"{"flow":"ff0e0000000000000000000000000101:51300",
"source":"20010db8000000000000000000000001:51300",
"context":0,"full_every":0,"limit":1400,"spacing":10,"package":"p",
"bound":4000,"window":65536,"delay":1000,"start":65536000,
"signalling":[{"at":0,"kind":"parameters"},{"at":100,"kind":"table","names":[[0,0]]}],
"assets":[{"packet_id":257,"id":"d","type":"aapp","timed":false,"timescale":1,"file":"d.bin",
"mpus":[{"number":7,"time":4299262263296,"decoding_offset":0,"aus":[],
"units":[{"at":200,"from":2,"length":3,"item":9}]}]}]}"#;

// Its stream: the buffer message, the table and the item, each in a packet of its own. The bytes are by a plain program.
const STREAM: &str = "\
7f02004f600000000027114020010db8000000000000000000000001ff0e0000000000000000000000000101c864c864\
0027b70e0002000003e80000000000000000f10000000c00000fa000010000000003e87f02007560000000004d114020\
010db8000000000000000000000001ff0e0000000000000000000000000101c864c864004d2b350002000003e8006400\
000001000000000000000030012000002b20000027fc01700000010000000000016461617070fe01000101000f00010c\
00000007000003e9000000007f02004b600000000023114020010db8000000000000000000000001ff0e000000000000\
0000000000000101c864c8640023043c0100010103e800c800000000000d200000000007000000090a0b0c";

// A shelf with the plan and its file.
fn shelf(alloc: Global) -> Result<MemoryShelf, Fail> {
    let mut shelf = MemoryShelf::new(alloc, Vec::new(alloc));
    shelf.put("plan.json", PLAN.as_bytes().to_vec(alloc)?)?;
    shelf.put("d.bin", [8, 9, 10, 11, 12].to_vec(alloc)?)?;
    Ok(shelf)
}

// A port without input.
fn port(alloc: Global) -> Result<MemoryPort, Fail> {
    Ok(MemoryPort::new(alloc, Vec::new(alloc), 10, 1000, Vec::new(alloc))?)
}

#[test]
fn sends_an_item_in_plain_packets(rt: HostRuntime) -> Result<(), Fail> {
    let alloc = rt.alloc();
    let mut port = port(alloc)?;
    let mut shelf = shelf(alloc)?;
    assert_eq!(rt; mux(alloc, "plan.json", &mut shelf, &mut port), Ok(()));
    let mut hex = String::new(alloc);
    for byte in port.written() {
        write!(hex, "{byte:02x}")?;
    }
    assert_eq!(rt; hex.as_str(), STREAM);
    Ok(())
}

// A shelf whose files have a byte less from a call on.
#[derive(Drop)]
struct Shrinking {
    files: MemoryShelf,
    calls: u32,
    from: u32,
    faults: u64,
}

impl Shelf for Shrinking {
    ghost tells = { λ _. false };

    ghost file = { λ _ _. None };

    ghost faults = { λ s. s.faults };

    fn read_at(&mut self, name: &str, at: u64, buf: &mut [u8]) -> Result<usize, ShelfFault> {
        self.calls = self.calls.saturating_add(1);
        match self.files.read_at(name, at, buf) {
            Ok(count) if self.calls > self.from => Ok(count.saturating_sub(1)),
            Ok(count) => Ok(count),
            Err(ShelfFault::Absent) => Err(ShelfFault::Absent),
            Err(ShelfFault::Failed) => {
                self.faults = self.faults.saturating_add(1);
                Err(ShelfFault::Failed)
            }
        }
    }
}

#[test]
fn a_file_that_shrinks_has_a_short_unit(rt: HostRuntime) -> Result<(), Fail> {
    let alloc = rt.alloc();
    // Two reads of the plan, the second of which finds its end, and one of the file's last byte.
    let mut shelf = Shrinking {
        files: shelf(alloc)?,
        calls: 0,
        from: 3,
        faults: 0,
    };
    let mut port = port(alloc)?;
    let wanted = MuxEnd::Refused {
        reason: Reason::UnitShort,
        place: PlanPlace {
            part: PlanPart::Unit,
            a: 0,
            b: 0,
            c: 0,
            field: 3,
        },
    };
    assert_eq!(rt; mux(alloc, "plan.json", &mut shelf, &mut port), Err(wanted));
    // The two messages were sent.
    assert_eq!(rt; port.written().len(), 204);
    Ok(())
}

// The plan with N tables, a hundred ticks apart, and the item after 258 of them.
fn plan_of(alloc: Global, tables: u32) -> Result<String, Fail> {
    let (before, rest) = PLAN.split_once("\"bound\":4000").ok_or("no bound")?;
    let (between, rest) = rest.split_once("{\"at\":100,").ok_or("no table")?;
    let (entry, rest) = rest.split_once("}").ok_or("no end of it")?;
    let (assets, item) = rest.split_once("\"at\":200").ok_or("no item")?;
    let mut plan = format!(in alloc; "{before}\"bound\":40000{between}")?;
    for number in 0..tables {
        if number > 0 {
            plan.push(',')?;
        }
        let at = number.wrapping_add(1).wrapping_mul(100);
        write!(plan, "{{\"at\":{at},{entry}}}")?;
    }
    write!(plan, "{assets}\"at\":30000{item}")?;
    Ok(plan)
}

#[test]
fn the_version_of_a_table_goes_from_255_to_0(rt: HostRuntime) -> Result<(), Fail> {
    let alloc = rt.alloc();
    let plan = plan_of(alloc, 258)?;
    let mut shelf = shelf(alloc)?;
    shelf.put("plan.json", plan.into_bytes())?;
    let mut port = MemoryPort::new(alloc, Vec::new(alloc), 260, 40_000, Vec::new(alloc))?;
    assert_eq!(rt; mux(alloc, "plan.json", &mut shelf, &mut port), Ok(()));
    let written = port.written();
    assert_eq!(rt; written.len(), 83 + 258 * 121 + 79);
    // After the buffer message and the tables stands the item.
    let tables = written.get(83..83 + 258 * 121).ok_or("no tables")?;
    let mut number = 0u32;
    for packet in tables.chunks(121) {
        let version = (number % 256) as u8;
        // The version stands in the message's directory and in the table.
        assert_eq!(rt; packet.get(75), Some(&version), "table {number}");
        assert_eq!(rt; packet.get(79), Some(&version), "table {number}");
        number = number.wrapping_add(1);
    }
    assert_eq!(rt; number, 258);
    Ok(())
}

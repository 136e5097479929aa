//! The stream of the worked plan, and where it ends.

ghost use Rattle.std.specs.Prelude.{◌≡◌, None, IfOk, OnOk};
ghost use Rattle.mmt_admit.specs.Faults.{IsReadable};
ghost use Rattle.mmt_cast.specs.Casting.{cast_of as cast_by};
ghost use Rattle.mmt_cast.specs.Refusing.{refusal};
ghost use Rattle.mmt_model.specs.Right.{IsRight};

use crate::{SendEnd, send};
use mmt_admit::{admit, is_readable};
use mmt_casting::cast_of;
use mmt_io::{CallKind, FailAt, MemoryPort, MemoryShelf};
use mmt_model::{Cast, Programme};
use mmt_plan::read_plan;
use std::alloc::Global;
use std::test::Fail;

const PLAN: &str =
    "{\"flow\":\"ff0e0000000000000000000000000101:51300\",\"source\":\"20010db8000000000000000000000001:51300\",\"context\":1,\"full_every\":3,\"limit\":1400,\"spacing\":10,\"package\":\"p1\",\"bound\":4000,\"window\":65536,\"delay\":1000,\"start\":65536000,\"signalling\":[{\"at\":0,\"kind\":\"parameters\"},{\"at\":100,\"kind\":\"table\",\"names\":[[0,0]]}],\"assets\":[{\"packet_id\":256,\"id\":\"v\",\"type\":\"hev1\",\"timed\":true,\"timescale\":60000,\"file\":\"v.bin\",\"mpus\":[{\"number\":7,\"time\":4297114779648,\"decoding_offset\":1001,\"aus\":[[1001,1001],[2002,0]],\"units\":[{\"at\":200,\"from\":0,\"length\":3000,\"movie_fragment\":1,\"sample\":1,\"offset\":0,\"priority\":0,\"dependency\":0},{\"at\":300,\"from\":3000,\"length\":500,\"movie_fragment\":1,\"sample\":2,\"offset\":0,\"priority\":0,\"dependency\":0}]}]}]}";

// The packets of the worked plan's stream (examples/two_units.tlv), each by the bytes before those of the file, and
// which bytes of the file follow: from where, and how many.
const STREAM: [(&str, usize, usize); 6] = [
    (
        "7f03004c00106060000000114020010db8000000000000000000000001ff0e0000000000000000000000000101c864c8\
     640002000003e80000000000000000f10000000c00000fa000010000000003e8",
        0,
        0,
    ),
    (
        "7f0300610011610002000003e8006400000001000000000000000049012000004420000040fc02703100000100000000\
     00017668657631fe01000100002700010c00000007000003e880000000802615fd0000ea60000000073f03e90203e903\
     e907d20000",
        0,
        0,
    ),
    (
        "7f03059d0012610100010003e800c800000000058c2a02000000070000000100000001000000000000",
        0,
        1400,
    ),
    (
        "7f0305c700136060000000114020010db8000000000000000000000001ff0e0000000000000000000000000101c864c8\
     640000010003e800d200000001058c2c01000000070000000100000001000000000000",
        1400,
        1400,
    ),
    (
        "7f0300ed0014610000010003e800dc0000000200dc2e00000000070000000100000001000000000000",
        2800,
        200,
    ),
    (
        "7f0302190015610000010003e8012c0000000302082800000000070000000100000002000000000000",
        3000,
        500,
    ),
];

// The same as plain IPv6, with the checksums of a plain program.
const PLAIN: [(&str, usize, usize); 6] = [
    (
        "7f02004f600000000027114020010db8000000000000000000000001ff0e0000000000000000000000000101c864c864\
     0027b70e0002000003e80000000000000000f10000000c00000fa000010000000003e8",
        0,
        0,
    ),
    (
        "7f02008e600000000066114020010db8000000000000000000000001ff0e0000000000000000000000000101c864c864\
     006603450002000003e8006400000001000000000000000049012000004420000040fc02703100000100000000000176\
     68657631fe01000100002700010c00000007000003e880000000802615fd0000ea60000000073f03e90203e903e907d2\
     0000",
        0,
        0,
    ),
    (
        "7f0205ca6000000005a2114020010db8000000000000000000000001ff0e0000000000000000000000000101c864c864\
     05a2d3d80100010003e800c800000000058c2a02000000070000000100000001000000000000",
        0,
        1400,
    ),
    (
        "7f0205ca6000000005a2114020010db8000000000000000000000001ff0e0000000000000000000000000101c864c864\
     05a2cac60000010003e800d200000001058c2c01000000070000000100000001000000000000",
        1400,
        1400,
    ),
    (
        "7f02011a6000000000f2114020010db8000000000000000000000001ff0e0000000000000000000000000101c864c864\
     00f2ec490000010003e800dc0000000200dc2e00000000070000000100000001000000000000",
        2800,
        200,
    ),
    (
        "7f02024660000000021e114020010db8000000000000000000000001ff0e0000000000000000000000000101c864c864\
     021ef0da0000010003e8012c0000000302082800000000070000000100000002000000000000",
        3000,
        500,
    ),
];

// The stream where the two units have 100 and 500 bytes and one tick, so that one packet has both.
const GATHERED: [(&str, usize, usize); 4] = [
    (
        "7f03004c00106060000000114020010db8000000000000000000000001ff0e0000000000000000000000000101c864c8\
     640002000003e80000000000000000f10000000c00000fa000010000000003e8",
        0,
        0,
    ),
    (
        "7f0300610011610002000003e8006400000001000000000000000049012000004420000040fc02703100000100000000\
     00017668657631fe01000100002700010c00000007000003e880000000802615fd0000ea60000000073f03e90203e903\
     e907d20000",
        0,
        0,
    ),
    (
        "7f03028f0012610100010003e800c800000000027e29000000000700720000000100000001000000000000",
        0,
        100,
    ),
    ("02020000000100000002000000000000", 3000, 500),
];

// How a stream ended, and what was written of it.
#[derive(Drop)]
struct Outcome {
    end: Result<(), SendEnd>,
    written: Vec<u8>,
}

// The first bytes of the worked plan's file: byte i is i modulo 251.
fn file(alloc: Global, length: usize) -> Result<Vec<u8>, Fail> {
    let mut bytes = Vec::new(alloc);
    for i in 0..length {
        bytes.push((i % 251) as u8)?;
    }
    Ok(bytes)
}

// The bytes of a table of packets.
fn joined(alloc: Global, packets: &[(&str, usize, usize)]) -> Result<Vec<u8>, Fail> {
    let file = file(alloc, 3500)?;
    let mut bytes = Vec::new(alloc);
    for (head, from, length) in packets {
        match hex::decode(alloc, *head) {
            Ok(head) => bytes.extend_from_slice(head.as_slice())?,
            Err(_) => Err("no bytes")?,
        }
        let rest = file.as_slice().get(*from..).ok_or("no place")?;
        bytes.extend_from_slice(rest.get(..*length).ok_or("no bytes")?)?;
    }
    Ok(bytes)
}

// The programme of a plan.
fn programme_of(alloc: Global, plan: &str) -> Result<Programme, Fail>
    ensures { IfOk result IsRight }
{
    let bytes = plan.as_bytes().to_vec(alloc)?;
    let mut shelf = MemoryShelf::new(alloc, Vec::new(alloc));
    shelf.put("plan", bytes)?;
    match read_plan(alloc, &mut shelf, "plan") {
        Ok(programme) => Ok(programme),
        Err(_) => Err("no plan")?,
    }
}

// The cast of a programme.
fn cast_for(alloc: Global, programme: &Programme) -> Result<Cast, Fail>
    requires { IsRight programme.now }
    ensures cast { IfOk result (λ cast. cast ≡ cast_by programme.now) }
    ensures none { OnOk result (refusal programme.now ≡ None) }
    ensures readable { IfOk result IsReadable }
{
    match cast_of(alloc, programme) {
        Ok(cast) => {
            if is_readable(&cast) {
                Ok(cast)
            } else {
                Err("not readable")?
            }
        }
        Err(_) => Err("no cast")?,
    }
}

// A shelf that perhaps has the file, where these reads fail.
fn shelf_of(alloc: Global, file: Option<&[u8]>, reads: &[u64]) -> Result<MemoryShelf, Fail> {
    let mut shelf = MemoryShelf::new(alloc, reads.to_vec(alloc)?);
    if let Some(bytes) = file {
        let bytes = bytes.to_vec(alloc)?;
        shelf.put("v.bin", bytes)?;
    }
    Ok(shelf)
}

// The stream of a plan, with these first bytes of its file, where these reads of it and these writes fail.
fn sent_of(
    alloc: Global,
    plan: &str,
    file: Option<&[u8]>,
    reads: &[u64],
    writes: &[FailAt],
) -> Result<Outcome, Fail> {
    let programme = programme_of(alloc, plan)?;
    let cast = cast_for(alloc, &programme)?;
    let mut shelf = shelf_of(alloc, file, reads)?;
    let mut port = MemoryPort::new(alloc, Vec::new(alloc), 16, 8192, writes.to_vec(alloc)?)?;
    let end = match admit(&cast) {
        Ok(admitted) => send(alloc, &programme, &admitted, &mut shelf, &mut port),
        Err(_) => Err("not admitted")?,
    };
    let written = port.written().to_vec(alloc)?;
    Ok(Outcome { end, written })
}

// A plan with a part of it replaced.
fn changed(alloc: Global, plan: &str, from: &str, to: &str) -> Result<String, Fail> {
    let (before, after) = plan.split_once(from).ok_or("not there")?;
    let text = format!(in alloc; "{before}{to}{after}")?;
    Ok(text)
}

#[test]
fn the_worked_plan_is_sent_byte_for_byte(rt: HostRuntime) -> Result<(), Fail> {
    let alloc = rt.alloc();
    let bytes = file(alloc, 3500)?;
    let run = sent_of(alloc, PLAN, Some(bytes.as_slice()), &[], &[])?;
    let want = joined(alloc, &STREAM)?;
    assert_eq!(rt; run.end, Ok(()));
    assert_eq!(rt; run.written.len(), 3887);
    assert!(rt; run.written.as_slice() == want.as_slice());
    Ok(())
}

#[test]
fn without_full_headers_packets_are_plain_with_their_checksums(
    rt: HostRuntime,
) -> Result<(), Fail> {
    let alloc = rt.alloc();
    let bytes = file(alloc, 3500)?;
    let plan = changed(alloc, PLAN, "\"full_every\":3", "\"full_every\":0")?;
    let run = sent_of(alloc, plan.as_str(), Some(bytes.as_slice()), &[], &[])?;
    let want = joined(alloc, &PLAIN)?;
    assert_eq!(rt; run.end, Ok(()));
    assert!(rt; run.written.as_slice() == want.as_slice());
    Ok(())
}

#[test]
fn short_units_of_one_tick_go_into_one_packet(rt: HostRuntime) -> Result<(), Fail> {
    let alloc = rt.alloc();
    let bytes = file(alloc, 3500)?;
    let plan = changed(alloc, PLAN, "\"length\":3000", "\"length\":100")?;
    let plan = changed(alloc, plan.as_str(), "\"at\":300", "\"at\":200")?;
    let run = sent_of(alloc, plan.as_str(), Some(bytes.as_slice()), &[], &[])?;
    let want = joined(alloc, &GATHERED)?;
    assert_eq!(rt; run.end, Ok(()));
    assert!(rt; run.written.as_slice() == want.as_slice());
    Ok(())
}

#[test]
fn each_read_that_fails_leaves_the_packets_before_it(rt: HostRuntime) -> Result<(), Fail> {
    let alloc = rt.alloc();
    let bytes = file(alloc, 3500)?;
    let want = joined(alloc, &STREAM)?;
    for (read, written) in [(0, 181), (1, 1622), (2, 3105), (3, 3346)] {
        let run = sent_of(alloc, PLAN, Some(bytes.as_slice()), &[read], &[])?;
        assert_eq!(rt; run.end, Err(SendEnd::ReadFault), "read {read}");
        assert_eq!(rt; run.written.len(), written, "read {read}");
        assert!(rt; want.as_slice().starts_with(run.written.as_slice()));
    }
    Ok(())
}

#[test]
fn each_write_that_fails_leaves_a_front_of_its_packet(rt: HostRuntime) -> Result<(), Fail> {
    let alloc = rt.alloc();
    let bytes = file(alloc, 3500)?;
    let want = joined(alloc, &STREAM)?;
    for (number, written) in [(0, 7), (1, 87), (2, 188), (3, 1629), (4, 3112), (5, 3353)] {
        let fail = FailAt {
            kind: CallKind::Write,
            number,
            through: 7,
        };
        let run = sent_of(alloc, PLAN, Some(bytes.as_slice()), &[], &[fail])?;
        assert_eq!(rt; run.end, Err(SendEnd::WriteFault), "write {number}");
        assert_eq!(rt; run.written.len(), written, "write {number}");
        assert!(rt; want.as_slice().starts_with(run.written.as_slice()));
    }
    Ok(())
}

#[test]
fn a_unit_is_short_where_its_file_ends_before_it(rt: HostRuntime) -> Result<(), Fail> {
    let alloc = rt.alloc();
    let rows = [
        (3499, 3346, 1, 500, 499),
        (3000, 3346, 1, 500, 0),
        (2999, 3105, 0, 3000, 2999),
        (1400, 1622, 0, 3000, 1400),
        (0, 181, 0, 3000, 0),
    ];
    for (there, written, unit, length, got) in rows {
        let bytes = file(alloc, there)?;
        let run = sent_of(alloc, PLAN, Some(bytes.as_slice()), &[], &[])?;
        let end = SendEnd::UnitShort { unit, length, got };
        assert_eq!(rt; run.end, Err(end), "{there} bytes");
        assert_eq!(rt; run.written.len(), written, "{there} bytes");
    }
    Ok(())
}

#[test]
fn an_absent_file_has_no_bytes_of_a_unit(rt: HostRuntime) -> Result<(), Fail> {
    let run = sent_of(rt.alloc(), PLAN, None, &[], &[])?;
    let end = SendEnd::UnitShort {
        unit: 0,
        length: 3000,
        got: 0,
    };
    assert_eq!(rt; run.end, Err(end));
    assert_eq!(rt; run.written.len(), 181);
    Ok(())
}

//! The lines of packets of each kind, and of each refusal.
ghost use Rattle.std.specs.Prelude.{◌<◌, ◌^◌, length, IfOk};
ghost use Rattle.mmt_tlv.specs.Cutting.{IsPacket};

use crate::Lister;
use mmt_base::OutOfMemory;
use mmt_tlv::{Tlv, write_tlv};
use std::alloc::Global;
use std::test::Fail;

// An IPv6 packet with the payload `abc`.
const PLAIN: [u8; 51] = [
    0x60, 0, 0, 0, 0, 11, 17, 64, 0x20, 1, 0x0D, 0xB8, 0, 0, 0, 0, 0, 0, 0, 0, 0, 0, 0, 1, 0xFF,
    0x0E, 0, 0, 0, 0, 0, 0, 0, 0, 0, 0, 0, 0, 1, 1, 0xC8, 0x64, 0xC8, 0x64, 0, 11, 0x7C, 0xE2,
    0x61, 0x62, 0x63,
];

// The header of a compressed packet: context 1, sequence number 2, and the same ends.
const FULL: &[u8] =
    b"\x00\x12\x60\x60\x00\x00\x00\x11\x40\x20\x01\x0d\xb8\x00\x00\x00\x00\x00\x00\x00\x00\x00\x00\x00\x01\xff\x0e\x00\x00\x00\x00\x00\x00\x00\x00\x00\x00\x00\x00\x01\x01\xc8\x64\xc8\x64";

// The same header with port 123 as the destination's.
const NTP: &[u8] =
    b"\x00\x22\x60\x60\x00\x00\x00\x11\x40\x20\x01\x0d\xb8\x00\x00\x00\x00\x00\x00\x00\x00\x00\x00\x00\x01\xff\x0e\x00\x00\x00\x00\x00\x00\x00\x00\x00\x00\x00\x00\x01\x01\xc8\x64\x00\x7b";

// The header of a compressed packet without one, of context 1 and sequence number 3.
const SHORT: &[u8] = b"\x00\x13\x61";

// The same, and the MMTP header of an MPU packet.
const MPU: &[u8] = b"\x00\x13\x61\x00\x00\x00\x10\x00\x01\x00\x00\x00\x00\x00\x05";

// The same, and the MMTP header of a signalling packet.
const SIGNALLING: &[u8] = b"\x00\x13\x61\x00\x02\x00\x00\x00\x01\x00\x00\x00\x00\x00\x05";

// An MMTP packet with a PA message, whose MPT names an MPU with two access units.
const TABLE: &[u8] =
    b"\x00\x02\x00\x00\x03\xe8\x00\x64\x00\x00\x00\x01\x00\x00\x00\x00\x00\x00\x00\x00\x49\x01\x20\x00\x00\x44\x20\x00\x00\x40\xfc\x02\x70\x31\x00\x00\x01\x00\x00\x00\x00\x00\x01\x76\x68\x65\x76\x31\xfe\x01\x00\x01\x00\x00\x27\x00\x01\x0c\x00\x00\x00\x07\x00\x00\x03\xe8\x80\x00\x00\x00\x80\x26\x15\xfd\x00\x00\xea\x60\x00\x00\x00\x07\x3f\x03\xe9\x02\x03\xe9\x03\xe9\x07\xd2\x00\x00";

// A TLV packet of a type with a body.
fn packet(alloc: Global, kind: u8, body: &[u8]) -> Result<Vec<u8>, OutOfMemory>
    requires { length body.now < 2 ^ 16 }
    ensures { IfOk result (λ v. IsPacket v.items) }
{
    let mut out = Vec::new(alloc);
    write_tlv(&mut out, &Tlv { kind, body })?;
    Ok(out)
}

// The line of a packet at a place whose body is two lists of bytes, one after the other.
fn shown_at(
    alloc: Global,
    lister: &mut Lister,
    place: u64,
    kind: u8,
    front: &[u8],
    rest: &[u8],
) -> Result<Vec<u8>, OutOfMemory>
    requires { place < 2 ^ 63 }
{
    let mut body = Vec::new(alloc);
    body.extend_from_slice(front)?;
    body.extend_from_slice(rest)?;
    if body.len() >= 1000 {
        return Err(OutOfMemory);
    }
    let tlv = packet(alloc, kind, &body)?;
    let mut out = Vec::new(alloc);
    lister.line(&mut out, place, &tlv)?;
    Ok(out)
}

// The same at place 1000.
fn shown(
    alloc: Global,
    lister: &mut Lister,
    kind: u8,
    front: &[u8],
    rest: &[u8],
) -> Result<Vec<u8>, OutOfMemory> {
    shown_at(alloc, lister, 1000, kind, front, rest)
}

#[test]
fn kinds(rt: HostRuntime) -> Result<(), Fail> {
    let alloc = rt.alloc();
    let mut lister = Lister::new(alloc)?;
    let table: [(u8, &[u8]); 5] = [
        (0x01, b"1000 ip4 3\n"),
        (0xFE, b"1000 signal 3\n"),
        (0xFF, b"1000 null 3\n"),
        (0x2B, b"1000 other-2b 3\n"),
        (0xE0, b"1000 other-e0 3\n"),
    ];
    for (kind, line) in table {
        let found = shown(alloc, &mut lister, kind, b"abc", b"")?;
        assert_eq!(rt; found.as_slice(), line);
    }
    Ok(())
}

#[test]
fn a_plain_packet_whose_mmtp_version_is_refused(rt: HostRuntime) -> Result<(), Fail> {
    let alloc = rt.alloc();
    let mut lister = Lister::new(alloc)?;
    let tlv = packet(alloc, 2, &PLAIN)?;
    let mut out = Vec::new(alloc);
    lister.line(&mut out, 0, &tlv)?;
    let line: &[u8] =
        b"0 ip6 51 | 20010db8000000000000000000000001:51300 ff0e0000000000000000000000000101:51300 | refused 52 mmtp-version 1\n";
    assert_eq!(rt; out.as_slice(), line);
    Ok(())
}

#[test]
fn plain_packets_refused(rt: HostRuntime) -> Result<(), Fail> {
    let alloc = rt.alloc();
    let mut lister = Lister::new(alloc)?;
    let table: [(usize, u8, &[u8]); 5] = [
        (0, 0x40, b"1000 ip6 51 | refused 1004 ip-version 4\n"),
        (6, 6, b"1000 ip6 51 | refused 1010 ip-next 6\n"),
        (5, 12, b"1000 ip6 51 | refused 1008 ip-length\n"),
        (45, 12, b"1000 ip6 51 | refused 1048 ip-length\n"),
        (46, 0, b"1000 ip6 51 | refused 1050 ip-checksum\n"),
    ];
    for (at, byte, line) in table {
        let mut body = PLAIN;
        if at < 51 {
            body[at] = byte;
        }
        let found = shown(alloc, &mut lister, 2, &body, b"")?;
        assert_eq!(rt; found.as_slice(), line);
    }
    let found = shown(alloc, &mut lister, 2, b"\x60", b"")?;
    let line: &[u8] = b"1000 ip6 1 | refused 1004 ip-short\n";
    assert_eq!(rt; found.as_slice(), line);
    Ok(())
}

#[test]
fn a_plain_packet_with_an_mpu_unit(rt: HostRuntime) -> Result<(), Fail> {
    let alloc = rt.alloc();
    let mut lister = Lister::new(alloc)?;
    let mut head = PLAIN;
    head[5] = 45;
    head[45] = 45;
    head[46] = 0;
    head[47] = 0;
    let mmtp: &[u8] =
        b"\x00\x00\x00\x10\x00\x01\x00\x00\x00\x00\x00\x05\x00\x17\x28\x00\x00\x00\x00\x07\x00\x00\x00\x01\x00\x00\x00\x01\x00\x00\x00\x00\x00\x00abc";
    let found = shown(alloc, &mut lister, 2, &head[..48], mmtp)?;
    let line: &[u8] =
        b"1000 ip6 85 | 20010db8000000000000000000000001:51300 ff0e0000000000000000000000000101:51300 | mmtp id 16 type 0 time 65536 number 5 rap 0 payload 25 | mpu 7 timed 1 part 0 units 1 [1 1 0 3]\n";
    assert_eq!(rt; found.as_slice(), line);
    Ok(())
}

#[test]
fn compressed_packets(rt: HostRuntime) -> Result<(), Fail> {
    let alloc = rt.alloc();
    let mut lister = Lister::new(alloc)?;
    let table: [(&[u8], &[u8], &[u8]); 10] = [
        (b"\x00\x10", b"", b"1000 ctx 2 | refused 1004 ctx-short\n"),
        (
            b"\x00\x10\x20",
            b"",
            b"1000 ctx 3 | refused 1006 ctx-kind 32\n",
        ),
        (SHORT, b"", b"1000 ctx 3 | refused 1004 ctx-none 1\n"),
        (
            b"\x00\x10\x60\x40\x00\x00\x00\x11\x40\x20\x01\x0d\xb8\x00\x00\x00\x00\x00\x00\x00\x00\x00\x00\x00\x01\xff\x0e\x00\x00\x00\x00\x00\x00\x00\x00\x00\x00\x00\x00\x01\x01\xc8\x64\xc8\x64",
            b"",
            b"1000 ctx 45 | refused 1007 ip-version 4\n",
        ),
        (
            b"\x00\x10\x60\x60\x00\x00\x00\x06\x40\x20\x01\x0d\xb8\x00\x00\x00\x00\x00\x00\x00\x00\x00\x00\x00\x01\xff\x0e\x00\x00\x00\x00\x00\x00\x00\x00\x00\x00\x00\x00\x01\x01\xc8\x64\xc8\x64",
            b"",
            b"1000 ctx 45 | refused 1011 ip-next 6\n",
        ),
        (
            FULL,
            b"\x40",
            b"1000 ctx 46 | cid 1 seq 2 full 20010db8000000000000000000000001:51300 ff0e0000000000000000000000000101:51300 | refused 1049 mmtp-version 1\n",
        ),
        (
            SHORT,
            b"\x40",
            b"1000 ctx 4 | cid 1 seq 3 short | refused 1007 mmtp-version 1\n",
        ),
        (
            NTP,
            b"\x00\x00",
            b"1000 ctx 47 | cid 2 seq 2 full 20010db8000000000000000000000001:51300 ff0e0000000000000000000000000101:123 | ntp short\n",
        ),
        (
            b"\x00\x23\x61",
            b"0123456789012345678901234567890123456789\x00\x00\x00\x01\x00\x00\x00\x02",
            b"1000 ctx 51 | cid 2 seq 3 short | ntp 4294967298\n",
        ),
        (
            b"\x00\x23\x61",
            b"0123456789012345678901234567890123456789\x00\x00\x00\x01\x00\x00\x00",
            b"1000 ctx 50 | cid 2 seq 3 short | ntp short\n",
        ),
    ];
    for (front, rest, line) in table {
        let found = shown(alloc, &mut lister, 3, front, rest)?;
        assert_eq!(rt; found.as_slice(), line);
    }
    Ok(())
}

#[test]
fn mmtp_packets(rt: HostRuntime) -> Result<(), Fail> {
    let alloc = rt.alloc();
    let mut lister = Lister::new(alloc)?;
    shown(alloc, &mut lister, 3, FULL, b"")?;
    let table: [(&[u8], &[u8]); 8] = [
        (
            b"",
            b"1000 ctx 3 | cid 1 seq 3 short | refused 1007 mmtp-short\n",
        ),
        (
            b"\x08",
            b"1000 ctx 4 | cid 1 seq 3 short | refused 1007 mmtp-fec 1\n",
        ),
        (
            b"\x00\x03",
            b"1000 ctx 5 | cid 1 seq 3 short | refused 1008 mmtp-kind 3\n",
        ),
        (
            b"\x02\x00\x00\x10\x00\x01\x00\x00\x00\x00\x00\x05\x00\x00\x00\x05\x00\x01\x00\x01\x18",
            b"1000 ctx 24 | cid 1 seq 3 short | refused 1023 scrambled\n",
        ),
        (
            b"\x01\x01\x00\x10\x00\x01\x00\x00\x00\x00\x00\x05ab",
            b"1000 ctx 17 | cid 1 seq 3 short | mmtp id 16 type 1 time 65536 number 5 rap 1 payload 2\n",
        ),
        (
            b"\x00\x02\x00\x00\x00\x01\x00\x00\x00\x00\x00\x05a",
            b"1000 ctx 16 | cid 1 seq 3 short | mmtp id 0 type 2 time 65536 number 5 rap 0 payload 1 | refused 1019 sig-aggregated-part\n",
        ),
        (
            b"\x00\x00\x00\x10\x00\x01\x00\x00\x00\x00\x00\x05",
            b"1000 ctx 15 | cid 1 seq 3 short | mmtp id 16 type 0 time 65536 number 5 rap 0 payload 0 | refused 1019 mpu-short\n",
        ),
        (
            b"\x20\x00\x00\x10\x00\x01\x00\x00\x00\x00\x00\x05\x00\x00\x00\x09",
            b"1000 ctx 19 | cid 1 seq 3 short | mmtp id 16 type 0 time 65536 number 5 rap 0 payload 0 | refused 1023 mpu-short\n",
        ),
    ];
    for (rest, line) in table {
        let found = shown(alloc, &mut lister, 3, SHORT, rest)?;
        assert_eq!(rt; found.as_slice(), line);
    }
    Ok(())
}

#[test]
fn mpu_payloads(rt: HostRuntime) -> Result<(), Fail> {
    let alloc = rt.alloc();
    let mut lister = Lister::new(alloc)?;
    shown(alloc, &mut lister, 3, FULL, b"")?;
    let table: [(&[u8], &[u8]); 8] = [
        (b"\x00\x00\x01", b"3 | refused 1019 mpu-length\n"),
        (b"\x00\x01\x08", b"3 | refused 1021 mpu-metadata 0\n"),
        (b"\x00\x01\x38", b"3 | refused 1021 mpu-type 3\n"),
        (b"\x00\x01\x23", b"3 | refused 1021 mpu-aggregated-part\n"),
        (
            b"\x00\x08\x21\x00\x00\x00\x00\x07\x00\x09",
            b"10 | refused 1027 mpu-overrun\n",
        ),
        (
            b"\x00\x1c\x21\x05\x00\x00\x00\x09\x00\x05\x00\x00\x00\x01a\x00\x04\x00\x00\x00\x02\x00\x07\x00\x00\x00\x03bcd",
            b"30 | mpu 9 timed 0 part 0 units 3 [1 1] [2 0] [3 3]\n",
        ),
        (
            b"\x00\x06\x29\x00\x00\x00\x00\x07",
            b"8 | mpu 7 timed 1 part 0 units 0\n",
        ),
        (
            b"\x00\x16\x2e\x00\x00\x00\x00\x07\x00\x00\x00\x01\x00\x00\x00\x02\x00\x00\x01\x00\x00\x00ab",
            b"24 | mpu 7 timed 1 part 3 units 1 [1 2 256 2]\n",
        ),
    ];
    for (payload, end) in table {
        let found = shown(alloc, &mut lister, 3, MPU, payload)?;
        assert!(rt; found.as_slice().ends_with(end));
    }
    Ok(())
}

#[test]
fn table_in_a_plain_packet(rt: HostRuntime) -> Result<(), Fail> {
    let alloc = rt.alloc();
    let mut lister = Lister::new(alloc)?;
    let mut head = PLAIN;
    head[5] = 102;
    head[45] = 102;
    head[46] = 0;
    head[47] = 0;
    let found = shown_at(alloc, &mut lister, 0, 2, &head[..48], TABLE)?;
    let line: &[u8] =
        b"0 ip6 142 | 20010db8000000000000000000000001:51300 ff0e0000000000000000000000000101:51300 | mmtp id 0 type 2 time 65536100 number 1 rap 0 payload 82 | sig part 0 messages 1 [pa 1 [mpt 1 [name 256 7 4297114779648 times 4297114779648 4297258088390]]]\n";
    assert_eq!(rt; found.as_slice(), line);
    Ok(())
}

#[test]
fn parameters_and_table_in_compressed_packets(rt: HostRuntime) -> Result<(), Fail> {
    let alloc = rt.alloc();
    let mut lister = Lister::new(alloc)?;
    let first = shown_at(
        alloc,
        &mut lister,
        0,
        3,
        b"\x00\x10\x60\x60\x00\x00\x00\x11\x40\x20\x01\x0d\xb8\x00\x00\x00\x00\x00\x00\x00\x00\x00\x00\x00\x01\xff\x0e\x00\x00\x00\x00\x00\x00\x00\x00\x00\x00\x00\x00\x01\x01\xc8\x64\xc8\x64",
        b"\x00\x02\x00\x00\x03\xe8\x00\x00\x00\x00\x00\x00\x00\x00\xf1\x00\x00\x00\x0c\x00\x00\x0f\xa0\x00\x01\x00\x00\x00\x00\x03\xe8",
    )?;
    let line: &[u8] =
        b"0 ctx 76 | cid 1 seq 0 full 20010db8000000000000000000000001:51300 ff0e0000000000000000000000000101:51300 | mmtp id 0 type 2 time 65536000 number 0 rap 0 payload 19 | sig part 0 messages 1 [hrbm 4000 65536 1000]\n";
    assert_eq!(rt; first.as_slice(), line);
    let second = shown_at(alloc, &mut lister, 80, 3, b"\x00\x11\x61", TABLE)?;
    let line: &[u8] =
        b"80 ctx 97 | cid 1 seq 1 short | mmtp id 0 type 2 time 65536100 number 1 rap 0 payload 82 | sig part 0 messages 1 [pa 1 [mpt 1 [name 256 7 4297114779648 times 4297114779648 4297258088390]]]\n";
    assert_eq!(rt; second.as_slice(), line);
    Ok(())
}

#[test]
fn messages(rt: HostRuntime) -> Result<(), Fail> {
    let alloc = rt.alloc();
    let mut lister = Lister::new(alloc)?;
    shown(alloc, &mut lister, 3, FULL, b"")?;
    let table: [(&[u8], &[u8]); 8] = [
        (
            b"\x00\x00\xf1\x00\x00\x00\x0c\x00\x00\x0f\xa0\x00\x01\x00\x00\x00\x00\x03\xe8",
            b" payload 19 | sig part 0 messages 1 [hrbm 4000 65536 1000]\n",
        ),
        (
            b"\x00\x00\x12\x34\x61\x62",
            b" payload 6 | sig part 0 messages 1 [message 4660]\n",
        ),
        (
            b"\x40\x02\xf1\x00\x00",
            b" payload 5 | sig part 1 messages 1\n",
        ),
        (b"\x80\x01\xf1\x00", b" payload 4 | sig part 2 messages 1\n"),
        (b"\xc0\x00", b" payload 2 | sig part 3 messages 1\n"),
        (
            b"\x01\x00\x00\x02\x12\x34\x00\x03\x12\x35\xff",
            b" payload 11 | sig part 0 messages 2 [message 4660] [message 4661]\n",
        ),
        (
            b"\x03\x00\x00\x00\x00\x02\x12\x34",
            b" payload 8 | sig part 0 messages 1 [message 4660]\n",
        ),
        (b"\x01\x00", b" payload 2 | sig part 0 messages 0\n"),
    ];
    for (payload, end) in table {
        let found = shown(alloc, &mut lister, 3, SIGNALLING, payload)?;
        assert!(rt; found.as_slice().ends_with(end));
    }
    Ok(())
}

#[test]
fn messages_refused(rt: HostRuntime) -> Result<(), Fail> {
    let alloc = rt.alloc();
    let mut lister = Lister::new(alloc)?;
    shown(alloc, &mut lister, 3, FULL, b"")?;
    let table: [(&[u8], &[u8]); 4] = [
        (
            b"\x00\x00\xf1",
            b" payload 3 | sig part 0 messages 1 [refused message-short]\n",
        ),
        (
            b"\x00\x00\xf1\x00\x00\x00\x0b",
            b" payload 7 | sig part 0 messages 1 [refused message-length]\n",
        ),
        (
            b"\x00\x00\xf1\x00\x00\x00\x0c\x00\x00\x0f\xa0\x00\x00\x00\x05\x00\x00\x00\x05",
            b" payload 19 | sig part 0 messages 1 [refused hrbm-values]\n",
        ),
        (
            b"\x01\x00\x00\x01\xf1\x00\x02\x12\x35",
            b" payload 9 | sig part 0 messages 2 [refused message-short] [message 4661]\n",
        ),
    ];
    for (payload, end) in table {
        let found = shown(alloc, &mut lister, 3, SIGNALLING, payload)?;
        assert!(rt; found.as_slice().ends_with(end));
    }
    Ok(())
}

#[test]
fn tables_of_pa_messages(rt: HostRuntime) -> Result<(), Fail> {
    let alloc = rt.alloc();
    let mut lister = Lister::new(alloc)?;
    shown(alloc, &mut lister, 3, FULL, b"")?;
    let table: [(&[u8], &[u8]); 7] = [
        (
            b"\x00\x00\x00\x00\x00\x00\x00\x00\x01\x00",
            b" payload 10 | sig part 0 messages 1 [pa 0]\n",
        ),
        (
            b"\x00\x00\x00\x00\x00\x00\x00\x00\x16\x02\x81\x01\x00\x04\x20\x00\x00\x09\x81\x01\x00\x00\x20\x00\x00\x05\xfc\x00\x00\x00\x00",
            b" payload 31 | sig part 0 messages 1 [pa 2 [mpt 0]]\n",
        ),
        (
            b"\x00\x00\x00\x00\x00\x00\x00\x00\x16\x02\x20\x00\x00\x04\x20\x00\x00\x09\x20\x00\x00\x00\x20\x00\x00\x05\xfc\x00\x00\x00\x00",
            b" payload 31 | sig part 0 messages 1 [pa 2 [refused mpt-short] [mpt 0]]\n",
        ),
        (
            b"\x00\x00\x00\x00\x00\x00\x00\x00\x10\x01\x20\x00\x00\x0b\x20\x00\x00\x07\xfc\x00\x00\x05\x00\x01\x01",
            b" payload 25 | sig part 0 messages 1 [pa 1 [refused mpt-short]]\n",
        ),
        (
            b"\x00\x00\x00\x00\x00\x00\x00\x00\x0f\x01\x20\x00\x00\x0a\x20\x00\x00\x06\xfc\x00\x00\x00\x00\xaa",
            b" payload 24 | sig part 0 messages 1 [pa 1 [refused mpt-length]]\n",
        ),
        (
            b"\x00\x00\x00\x00\x00\x00\x00\x00\x1b\x01\x20\x00\x00\x16\x20\x00\x00\x12\xfc\x00\x00\x00\x01\x00\x00\x00\x00\x00\x00\x61\x61\x70\x70\x01\x00\x00",
            b" payload 36 | sig part 0 messages 1 [pa 1 [refused mpt-clock]]\n",
        ),
        (
            b"\x00\x00\x00\x00\x00\x00\x00\x00\x1d\x01\x20\x00\x00\x18\x20\x00\x00\x14\xfc\x00\x00\x00\x01\x00\x00\x00\x00\x00\x00\x61\x61\x70\x70\xfe\x01\x06\x00\x00",
            b" payload 38 | sig part 0 messages 1 [pa 1 [refused mpt-location]]\n",
        ),
    ];
    for (payload, end) in table {
        let found = shown(alloc, &mut lister, 3, SIGNALLING, payload)?;
        assert!(rt; found.as_slice().ends_with(end));
    }
    Ok(())
}

#[test]
fn packages_of_the_table_that_lists_services(rt: HostRuntime) -> Result<(), Fail> {
    let alloc = rt.alloc();
    let mut lister = Lister::new(alloc)?;
    shown(alloc, &mut lister, 3, FULL, b"")?;
    let table: [(&[u8], &[u8]); 2] = [
        (
            b"\x00\x00\x00\x00\x00\x00\x00\x00\x14\x01\x80\x00\x00\x0f\x80\x00\x00\x0b\x02\x01\x61\x00\x00\x10\x01\x62\x00\x00\x20",
            b" payload 29 | sig part 0 messages 1 [pa 1 [plt 2 16 32]]\n",
        ),
        (
            b"\x00\x00\x00\x00\x00\x00\x00\x00\x13\x01\x80\x00\x00\x0e\x80\x00\x00\x0a\x02\x01\x61\x05\x00\x01\x62\x00\x00\x20",
            b" payload 28 | sig part 0 messages 1 [pa 1 [plt 2 32]]\n",
        ),
    ];
    for (payload, end) in table {
        let found = shown(alloc, &mut lister, 3, SIGNALLING, payload)?;
        assert!(rt; found.as_slice().ends_with(end));
    }
    Ok(())
}

#[test]
fn tables_that_list_services_refused(rt: HostRuntime) -> Result<(), Fail> {
    let alloc = rt.alloc();
    let mut lister = Lister::new(alloc)?;
    shown(alloc, &mut lister, 3, FULL, b"")?;
    let table: [(&[u8], &[u8]); 2] = [
        (
            b"\x00\x00\x00\x00\x00\x00\x00\x00\x09\x01\x80\x00\x00\x04\x80\x00\x00\x00",
            b" payload 18 | sig part 0 messages 1 [pa 1 [refused plt-short]]\n",
        ),
        (
            b"\x00\x00\x00\x00\x00\x00\x00\x00\x0d\x01\x80\x00\x00\x08\x80\x00\x00\x04\x01\x01\x61\x06",
            b" payload 22 | sig part 0 messages 1 [pa 1 [refused plt-location]]\n",
        ),
    ];
    for (payload, end) in table {
        let found = shown(alloc, &mut lister, 3, SIGNALLING, payload)?;
        assert!(rt; found.as_slice().ends_with(end));
    }
    Ok(())
}

#[test]
fn signalling_payloads_refused(rt: HostRuntime) -> Result<(), Fail> {
    let alloc = rt.alloc();
    let mut lister = Lister::new(alloc)?;
    shown(alloc, &mut lister, 3, FULL, b"")?;
    let table: [(&[u8], &[u8]); 4] = [
        (b"", b" payload 0 | refused 1019 sig-short\n"),
        (b"\x00", b" payload 1 | refused 1020 sig-short\n"),
        (
            b"\x41\x00",
            b" payload 2 | refused 1019 sig-aggregated-part\n",
        ),
        (
            b"\x01\x00\x00\x05\x61",
            b" payload 5 | refused 1021 sig-overrun\n",
        ),
    ];
    for (payload, end) in table {
        let found = shown(alloc, &mut lister, 3, SIGNALLING, payload)?;
        assert!(rt; found.as_slice().ends_with(end));
    }
    Ok(())
}

#[test]
fn names_of_tables(rt: HostRuntime) -> Result<(), Fail> {
    let alloc = rt.alloc();
    let mut lister = Lister::new(alloc)?;
    shown(alloc, &mut lister, 3, FULL, b"")?;
    let table: [(&[u8], &[u8]); 4] = [
        (
            b"\x00\x00\x00\x00\x00\x00\x00\x00\x2e\x01\x20\x00\x00\x29\x20\x00\x00\x25\xfc\x00\x00\x00\x01\x00\x00\x00\x00\x00\x00\x61\x61\x70\x70\xfe\x01\x00\x01\x00\x00\x0f\x00\x01\x0c\x00\x00\x00\x07\x00\x00\x03\xe8\x80\x00\x00\x00",
            b" payload 55 | sig part 0 messages 1 [pa 1 [mpt 1 [name 256 7 4297114779648]]]\n",
        ),
        (
            b"\x00\x00\x00\x00\x00\x00\x00\x00\x3c\x01\x20\x00\x00\x37\x20\x00\x00\x33\xfc\x00\x00\x00\x01\x00\x00\x00\x00\x00\x00\x61\x61\x70\x70\xfe\x01\x00\x01\x00\x00\x1d\x00\x01\x0c\x00\x00\x00\x07\x00\x00\x03\xe8\x80\x00\x00\x00\x80\x26\x0b\x00\x00\x00\x00\x07\x00\x00\x00\x01\xaf\xc8",
            b" payload 69 | sig part 0 messages 1 [pa 1 [mpt 1 [name 256 7 4297114779648 times 4299262263296]]]\n",
        ),
        (
            b"\x00\x00\x00\x00\x00\x00\x00\x00\x36\x01\x20\x00\x00\x31\x20\x00\x00\x2d\xfc\x00\x00\x00\x01\x00\x00\x00\x00\x00\x00\x61\x61\x70\x70\xfe\x01\x00\x01\x00\x00\x17\x00\x01\x01\x00\x80\x26\x01\x06\x00\x01\x0c\x00\x00\x00\x07\x00\x00\x03\xe8\x80\x00\x00\x00",
            b" payload 63 | sig part 0 messages 1 [pa 1 [mpt 1 [name 256 7 4297114779648]]]\n",
        ),
        (
            b"\x00\x00\x00\x00\x00\x00\x00\x00\x4e\x01\x20\x00\x00\x49\x20\x00\x00\x45\xfc\x00\x00\x00\x02\x00\x00\x00\x00\x00\x00\x61\x61\x70\x70\xfe\x00\x00\x0f\x00\x01\x0c\x00\x00\x00\x07\x00\x00\x03\xe8\x80\x00\x00\x00\x00\x00\x00\x00\x00\x00\x61\x61\x70\x70\xfe\x02\x00\x01\x00\x00\x01\x10\x00\x0f\x00\x01\x0c\x00\x00\x00\x07\x00\x00\x03\xe8\x80\x00\x00\x00",
            b" payload 87 | sig part 0 messages 1 [pa 1 [mpt 2 [name 256 7 4297114779648] [name 272 7 4297114779648]]]\n",
        ),
    ];
    for (payload, end) in table {
        let found = shown(alloc, &mut lister, 3, SIGNALLING, payload)?;
        assert!(rt; found.as_slice().ends_with(end));
    }
    Ok(())
}

//! What `take` gives back of deliveries of worked plans, lost, repeated and reordered. The packets are those of
//! a plain sender that was written apart from this program; the units that are expected are worked out from
//! the plans alone, and so are their records.

use crate::run::run;
use crate::status::Status;
use crate::tests::words;
use mmt_io::{MemoryPort, MemoryShelf};
use std::alloc::{AllocError, Global};
use std::test::Fail;

// The packets of the worked plan, one a line: its first bytes in hexadecimal, and then its last, which are so
// many bytes of the plan's file from a place on.
const PACKETS: &str = "\
7f03004c00106060000000114020010db8000000000000000000000001ff0e0000000000000000000000000101c864c8640002000003e80000000000000000f10000000c00000fa000010000000003e8 0 0\n\
7f0300610011610002000003e8006400000001000000000000000049012000004420000040fc0270310000010000000000017668657631fe01000100002700010c00000007000003e880000000802615fd0000ea60000000073f03e90203e903e907d20000 0 0\n\
7f03059d0012610100010003e800c800000000058c2a02000000070000000100000001000000000000 0 1400\n\
7f0305c700136060000000114020010db8000000000000000000000001ff0e0000000000000000000000000101c864c8640000010003e800d200000001058c2c01000000070000000100000001000000000000 1400 1400\n\
7f0300ed0014610000010003e800dc0000000200dc2e00000000070000000100000001000000000000 2800 200\n\
7f0302190015610000010003e8012c0000000302082800000000070000000100000002000000000000 3000 500";

// With one more table, at tick 32,800.
const ONE_MORE_TABLE: &str = "\
7f03008b00166060000000114020010db8000000000000000000000001ff0e0000000000000000000000000101c864c8640002000003e8802000000002000000000000000049012001004420010040fc0270310000010000000000017668657631fe01000100002700010c00000007000003e880000000802615fd0000ea60000000073f03e90203e903e907d20000 0 0";

// With eight more buffer messages and, 18 hours later, a table and a unit of a further MPU.
const HOURS_LATER: &str = "\
7f03004c00166060000000114020010db8000000000000000000000001ff0e0000000000000000000000000101c864c8640002000023e80000000000020000f10000000c00000fa000010000000003e8 0 0\n\
7f0300220017610002000043e80000000000030000f10000000c00000fa000010000000003e8 0 0\n\
7f0300220018610002000063e80000000000040000f10000000c00000fa000010000000003e8 0 0\n\
7f03004c00196060000000114020010db8000000000000000000000001ff0e0000000000000000000000000101c864c8640002000083e80000000000050000f10000000c00000fa000010000000003e8 0 0\n\
7f030022001a6100020000a3e80000000000060000f10000000c00000fa000010000000003e8 0 0\n\
7f030022001b6100020000c3e80000000000070000f10000000c00000fa000010000000003e8 0 0\n\
7f03004c001c6060000000114020010db8000000000000000000000001ff0e0000000000000000000000000101c864c86400020000e3e80000000000080000f10000000c00000fa000010000000003e8 0 0\n\
7f030022001d610002000003e80000000000090000f10000000c00000fa000010000000003e8 0 0\n\
7f03005d001e610002000003e800640000000a00000000000000004501200100402001003cfc0270310000010000000000017668657631fe01000100002300010c00000008000103e880000000802611fd0000ea60000000083f03e90103e903e9 0 0\n\
7f030243001f6060000000114020010db8000000000000000000000001ff0e0000000000000000000000000101c864c8640100010003e800c80000000402082800000000080000000200000001000000000000 0 500";

// The messages of a plan with one unit of 16,777,216 bytes.
const LONG_UNIT_MESSAGES: &str = "\
7f03004c00106060000000114020010db8000000000000000000000001ff0e0000000000000000000000000101c864c8640002000003e80000000000000000f10000000c01312d0000010000000003e8 0 0\n\
7f03005d0011610002000003e800640000000100000000000000004501200000402000003cfc0270310000010000000000017668657631fe01000100002300010c00000007000003e880000000802611fd0000ea60000000073f03e90103e903e9 0 0";

// The units of these plans, one a line: the number of the MPU, the movie fragment and the sample, the time, and
// the place and the length in the file.
const UNITS: &str = "\
7 1 1 4297114779648 0 3000\n\
7 1 2 4297258088390 3000 500\n\
8 2 1 285772091490304 0 500\n\
7 1 1 4297114779648 0 16777216";

// Deliveries of the worked plan: the packets in their order, the units that are expected in the order of
// handing out, and the notes. Each packet is lost, each comes twice, each two change places; and others.
const WORKED: &str = "\
0-5 @ 0 1 @ units 2 bytes 3500 peak 3689\n\
1-5 @ none @ 4 ctx-none 1, 105 ctx-none 1, units 0 bytes 0 peak 0\n\
0 2-5 @ none @ units 0 bytes 0 peak 3607\n\
0 1 3-5 @ 1 @ units 1 bytes 500 peak 2267\n\
0-2 4 5 @ 1 @ units 1 bytes 500 peak 2267\n\
0-3 5 @ 1 @ units 1 bytes 500 peak 3467\n\
0-4 @ 0 @ units 1 bytes 3000 peak 3167\n\
0 0-5 @ 0 1 @ 129 repeat, units 2 bytes 3500 peak 3689\n\
0 1 1-5 @ 0 1 @ 188 repeat, units 2 bytes 3500 peak 3689\n\
0-2 2-5 @ 0 1 @ 1629 repeat, units 2 bytes 3500 peak 3689\n\
0-3 3-5 @ 0 1 @ 3154 repeat, units 2 bytes 3500 peak 3689\n\
0-4 4 5 @ 0 1 @ 3353 repeat, units 2 bytes 3500 peak 3689\n\
0-5 5 @ 0 1 @ 3894 repeat, units 2 bytes 3500 peak 3689\n\
1 0 2-5 @ none @ 4 ctx-none 1, units 0 bytes 0 peak 3607\n\
2 1 0 3-5 @ none @ 4 ctx-none 1, 1445 ctx-none 1, units 0 bytes 0 peak 2185\n\
3 1 2 0 4 5 @ none @ units 0 bytes 0 peak 763\n\
4 1-3 0 5 @ none @ 4 ctx-none 1, 245 ctx-none 1, 346 ctx-none 1, units 0 bytes 0 peak 541\n\
5 1-4 0 @ none @ 4 ctx-none 1, 545 ctx-none 1, 646 ctx-none 1, units 0 bytes 0 peak 19\n\
0 2 1 3-5 @ 0 1 @ units 2 bytes 3500 peak 3689\n\
0 3 2 1 4 5 @ 0 1 @ units 2 bytes 3500 peak 3689\n\
0 4 2 3 1 5 @ 0 1 @ units 2 bytes 3500 peak 3689\n\
0 5 2-4 1 @ 0 1 @ units 2 bytes 3500 peak 3689\n\
0 1 3 2 4 5 @ 0 1 @ units 2 bytes 3500 peak 3689\n\
0 1 4 3 2 5 @ 0 1 @ units 2 bytes 3500 peak 3689\n\
0 1 5 3 4 2 @ 0 1 @ units 2 bytes 3500 peak 3689\n\
0-2 4 3 5 @ 0 1 @ units 2 bytes 3500 peak 3689\n\
0-2 5 4 3 @ 0 1 @ units 2 bytes 3500 peak 3689\n\
0-3 5 4 @ 0 1 @ units 2 bytes 3500 peak 3689\n\
0 1 4 4 2 2 3 3 5 @ 0 1 @ 429 repeat, 2111 repeat, 5077 repeat, units 2 bytes 3500 peak 3689\n\
1 0-5 @ 0 1 @ 4 ctx-none 1, units 2 bytes 3500 peak 3689\n\
3 0-2 4 5 @ 1 @ units 1 bytes 500 peak 2267\n\
0-5 0-5 @ 0 1 @ 3936 repeat, 3974 repeat, 4075 repeat, 5558 repeat, 6999 repeat, 7240 repeat, units 2 bytes 3500 peak 3689\n\
1 2 4 5 @ none @ 4 ctx-none 1, 105 ctx-none 1, 1546 ctx-none 1, 1787 ctx-none 1, units 0 bytes 0 peak 0\n\
5 4 3 2 1 0 @ none @ 4 ctx-none 1, 545 ctx-none 1, units 0 bytes 0 peak 19";

// The same with one more table.
const WITH_ONE_MORE_TABLE: &str = "\
0-6 @ 0 1 @ units 2 bytes 3500 peak 3771\n\
1-6 @ none @ 4 ctx-none 1, 105 ctx-none 1, units 0 bytes 0 peak 0\n\
0 2-6 @ 1 @ units 1 bytes 500 peak 3689\n\
0 1 3-6 @ 1 @ units 1 bytes 500 peak 2349\n\
0-2 4-6 @ 1 @ units 1 bytes 500 peak 2349\n\
0-3 5 6 @ 1 @ units 1 bytes 500 peak 3549\n\
0-4 6 @ 0 @ units 1 bytes 3000 peak 3249\n\
0-5 @ 0 1 @ units 2 bytes 3500 peak 3689\n\
0 0-6 @ 0 1 @ 129 repeat, units 2 bytes 3500 peak 3771\n\
0 1 1-6 @ 0 1 @ 188 repeat, units 2 bytes 3500 peak 3771\n\
0-2 2-6 @ 0 1 @ 1629 repeat, units 2 bytes 3500 peak 3771\n\
0-3 3-6 @ 0 1 @ 3154 repeat, units 2 bytes 3500 peak 3771\n\
0-4 4-6 @ 0 1 @ 3353 repeat, units 2 bytes 3500 peak 3771\n\
0-5 5 6 @ 0 1 @ 3894 repeat, units 2 bytes 3500 peak 3771\n\
0-6 6 @ 0 1 @ 4079 repeat, units 2 bytes 3500 peak 3771\n\
1 0 2-6 @ 1 @ 4 ctx-none 1, units 1 bytes 500 peak 3689\n\
2 1 0 3-6 @ 1 @ 4 ctx-none 1, 1445 ctx-none 1, units 1 bytes 500 peak 2267\n\
3 1 2 0 4-6 @ 1 @ units 1 bytes 500 peak 845\n\
4 1-3 0 5 6 @ 1 @ 4 ctx-none 1, 245 ctx-none 1, 346 ctx-none 1, units 1 bytes 500 peak 623\n\
5 1-4 0 6 @ none @ 4 ctx-none 1, 545 ctx-none 1, 646 ctx-none 1, units 0 bytes 0 peak 101\n\
6 1-5 0 @ none @ units 0 bytes 0 peak 19\n\
0 2 1 3-6 @ 0 1 @ units 2 bytes 3500 peak 3771\n\
0 3 2 1 4-6 @ 0 1 @ units 2 bytes 3500 peak 3771\n\
0 4 2 3 1 5 6 @ 0 1 @ units 2 bytes 3500 peak 3771\n\
0 5 2-4 1 6 @ 0 1 @ units 2 bytes 3500 peak 3771\n\
0 6 2-5 1 @ none @ 230 late 65568800, 1713 late 65568800, 3154 late 65568800, 3395 late 65568800, 3936 late 65568800, units 0 bytes 0 peak 101\n\
0 1 3 2 4-6 @ 0 1 @ units 2 bytes 3500 peak 3771\n\
0 1 4 3 2 5 6 @ 0 1 @ units 2 bytes 3500 peak 3771\n\
0 1 5 3 4 2 6 @ 0 1 @ units 2 bytes 3500 peak 3771\n\
0 1 6 3-5 2 @ none @ 373 late 65568800, 1814 late 65568800, 2055 late 65568800, 2596 late 65568800, units 0 bytes 0 peak 183\n\
0-2 4 3 5 6 @ 0 1 @ units 2 bytes 3500 peak 3771\n\
0-2 5 4 3 6 @ 0 1 @ units 2 bytes 3500 peak 3771\n\
0-2 6 4 5 3 @ none @ 1772 late 65568800, 2013 late 65568800, 2596 late 65568800, units 0 bytes 0 peak 1605\n\
0-3 5 4 6 @ 0 1 @ units 2 bytes 3500 peak 3771\n\
0-3 6 5 4 @ none @ 3255 late 65568800, 3796 late 65568800, units 0 bytes 0 peak 3027\n\
0-4 6 5 @ 0 @ 3496 late 65568800, units 1 bytes 3000 peak 3249\n\
0 2-6 1 @ 1 @ 3936 late 65568800, units 1 bytes 500 peak 3689\n\
6 0-5 @ 0 1 @ units 2 bytes 3500 peak 3689\n\
0 6 1-5 @ none @ 230 late 65568800, 331 late 65568800, 1814 late 65568800, 3255 late 65568800, 3496 late 65568800, units 0 bytes 0 peak 101";

// The same over 18 hours, where packets that stand side by side change places.
const OVER_HOURS: &str = "\
0-15 @ 0 1 2 @ units 3 bytes 4000 peak 3689\n\
13-15 @ none @ 4 ctx-none 1, 42 ctx-none 1, units 0 bytes 0 peak 0\n\
1-15 @ 2 @ 4 ctx-none 1, 105 ctx-none 1, units 1 bytes 500 peak 619\n\
0 2-15 @ 2 @ units 1 bytes 500 peak 3607\n\
0 1 3-15 @ 1 2 @ units 2 bytes 1000 peak 2267\n\
0-2 4-15 @ 1 2 @ units 2 bytes 1000 peak 2267\n\
0-3 5-15 @ 1 2 @ units 2 bytes 1000 peak 3467\n\
0-4 6-15 @ 0 2 @ units 2 bytes 3500 peak 3167\n\
0-5 7-15 @ 0 1 2 @ units 3 bytes 4000 peak 3689\n\
0-6 8-15 @ 0 1 2 @ units 3 bytes 4000 peak 3689\n\
0-7 9-15 @ 0 1 2 @ units 3 bytes 4000 peak 3689\n\
0-8 10-15 @ 0 1 2 @ units 3 bytes 4000 peak 3689\n\
0-9 11-15 @ 0 1 2 @ units 3 bytes 4000 peak 3689\n\
0-10 12-15 @ 0 1 2 @ units 3 bytes 4000 peak 3689\n\
0-11 13-15 @ 0 1 2 @ units 3 bytes 4000 peak 3689\n\
0-12 14 15 @ 0 1 2 @ units 3 bytes 4000 peak 3689\n\
0-13 15 @ 0 1 @ units 2 bytes 3500 peak 3689\n\
0-14 @ 0 1 @ units 2 bytes 3500 peak 3689\n\
0 0-15 @ 0 1 2 @ 129 repeat, units 3 bytes 4000 peak 3689\n\
0 1 1-15 @ 0 1 2 @ 188 repeat, units 3 bytes 4000 peak 3689\n\
0-2 2-15 @ 0 1 2 @ 1629 repeat, units 3 bytes 4000 peak 3689\n\
0-3 3-15 @ 0 1 2 @ 3154 repeat, units 3 bytes 4000 peak 3689\n\
0-4 4-15 @ 0 1 2 @ 3353 repeat, units 3 bytes 4000 peak 3689\n\
0-5 5-15 @ 0 1 2 @ 3894 repeat, units 3 bytes 4000 peak 3689\n\
0-6 6-15 @ 0 1 2 @ 4016 repeat, units 3 bytes 4000 peak 3689\n\
0-7 7-15 @ 0 1 2 @ 4012 repeat, units 3 bytes 4000 peak 3689\n\
0-8 8-15 @ 0 1 2 @ 4050 repeat, units 3 bytes 4000 peak 3689\n\
0-9 9-15 @ 0 1 2 @ 4172 repeat, units 3 bytes 4000 peak 3689\n\
0-10 10-15 @ 0 1 2 @ 4168 repeat, units 3 bytes 4000 peak 3689\n\
0-11 11-15 @ 0 1 2 @ 4206 repeat, units 3 bytes 4000 peak 3689\n\
0-12 12-15 @ 0 1 2 @ 4328 repeat, units 3 bytes 4000 peak 3689\n\
0-13 13-15 @ 0 1 2 @ 4324 repeat, units 3 bytes 4000 peak 3689\n\
0-14 14 15 @ 0 1 2 @ 4421 repeat, units 3 bytes 4000 peak 3689\n\
0-15 15 @ 0 1 2 @ 5046 repeat, units 3 bytes 4000 peak 3689\n\
1 0 2-15 @ 2 @ 4 ctx-none 1, units 1 bytes 500 peak 3607\n\
0 2 1 3-15 @ 0 1 2 @ units 3 bytes 4000 peak 3689\n\
0 1 3 2 4-15 @ 0 1 2 @ units 3 bytes 4000 peak 3689\n\
0-2 4 3 5-15 @ 0 1 2 @ units 3 bytes 4000 peak 3689\n\
0-3 5 4 6-15 @ 0 1 2 @ units 3 bytes 4000 peak 3689\n\
0-4 6 5 7-15 @ 0 2 @ 3433 late 602406912, units 2 bytes 3500 peak 3167\n\
0-5 7 6 8-15 @ 0 1 2 @ 3974 late 1139277824, units 3 bytes 4000 peak 3689\n\
0-6 8 7 9-15 @ 0 1 2 @ 4012 late 1676148736, units 3 bytes 4000 peak 3689\n\
0-7 9 8 10-15 @ 0 1 2 @ 4092 late 2213019648, units 3 bytes 4000 peak 3689\n\
0-8 10 9 11-15 @ 0 1 2 @ 4130 late 2749890560, units 3 bytes 4000 peak 3689\n\
0-9 11 10 12-15 @ 0 1 2 @ 4168 late 3286761472, units 3 bytes 4000 peak 3689\n\
0-10 12 11 13-15 @ 0 1 2 @ 4248 late 3823632384, units 3 bytes 4000 peak 3689\n\
0-11 13 12 14 15 @ 0 1 2 @ 4286 late 65536000, units 3 bytes 4000 peak 3689\n\
0-12 14 13 15 @ 0 1 2 @ units 3 bytes 4000 peak 3689\n\
0-13 15 14 @ 0 1 2 @ units 3 bytes 4000 peak 3689";

// A delivery over 18 hours that is not near, of which more is kept at once than the 4,000 bytes that are signalled.
const NOT_NEAR: &str = "0-5 14 15 @ 0 1 2 @ units 3 bytes 4000 peak 4289";

// The full header of these packets: compressed IPv6 and UDP, from the source to the flow.
const FULL_HEADER: &str =
    "6060000000114020010db8000000000000000000000001ff0e0000000000000000000000000101c864c864";

// The same of a long unit in 280 parts: a part in the middle is lost, and two that are 1,000 ticks apart, the
// plan's delay, change places.
const OF_A_LONG_UNIT: &str = "\
0-140 142-281 @ none @ units 0 bytes 0 peak 16723451\n\
0-99 200 101-199 100 201-281 @ 3 @ units 1 bytes 16777216 peak 16783473";

// The first bytes of the plans' file, of which the one at p is p modulo 251.
pub fn file(alloc: Global) -> Result<Vec<u8>, AllocError> {
    let mut out = Vec::new(alloc);
    for place in 0..60_251u32 {
        out.push((place % 251) as u8)?;
    }
    Ok(out)
}

// Adds N bytes of the plans' file from a place on.
fn add_file(out: &mut Vec<u8>, file: &[u8], from: u64, length: u64) -> Result<(), Fail> {
    for k in 0..length.saturating_add(59_999) / 60_000 {
        let done = k.saturating_mul(60_000);
        let start = (from.saturating_add(done) % 251) as usize;
        let more = length.saturating_sub(done).min(60_000) as usize;
        let bytes = file.get(start..start.saturating_add(more)).ok_or("file")?;
        out.extend_from_slice(bytes)?;
    }
    Ok(())
}

// The value of a hexadecimal digit.
fn digit(glyph: u8) -> Option<u8> {
    match glyph {
        b'0'..=b'9' => Some(glyph - b'0'),
        b'a'..=b'f' => Some(glyph - b'a' + 10),
        _ => None,
    }
}

// A number in decimal digits.
fn number(text: Option<&str>) -> Result<u64, Fail> {
    Ok(
        text.ok_or("no number")?
            .parse::<u64>()
            .ok()
            .ok_or("number")?,
    )
}

// A number's low 32 bits.
fn low(n: u64) -> u32 {
    (n % 4_294_967_296) as u32
}

// Adds the bytes of this text, two hexadecimal digits each.
fn add_hex(bytes: &mut Vec<u8>, text: &str) -> Result<(), Fail> {
    for pair in text.as_bytes().chunks(2) {
        let high = digit(*pair.first().ok_or("digit")?).ok_or("digit")?;
        let low = digit(*pair.get(1).ok_or("digit")?).ok_or("digit")?;
        bytes.push(high % 16 * 16 + low % 16)?;
    }
    Ok(())
}

// The bytes of a packet's line.
fn packet(alloc: Global, file: &[u8], line: &str) -> Result<Vec<u8>, Fail> {
    let mut parts = line.split(" ");
    let mut bytes = Vec::new(alloc);
    add_hex(&mut bytes, parts.next().ok_or("no bytes")?)?;
    let from = number(parts.next())?;
    add_file(&mut bytes, file, from, number(parts.next())?)?;
    Ok(bytes)
}

// The packets of these texts, one after the other.
fn packets(alloc: Global, file: &[u8], texts: &[&str]) -> Result<Vec<Vec<u8>>, Fail> {
    let mut packets = Vec::new(alloc);
    for text in texts {
        for line in text.lines() {
            packets.push(packet(alloc, file, line)?)?;
        }
    }
    Ok(packets)
}

// Adds a number in two bytes, the high one first.
fn add_two(out: &mut Vec<u8>, n: u32) -> Result<(), AllocError> {
    out.push((n / 256 % 256) as u8)?;
    Ok(out.push((n % 256) as u8)?)
}

// Part k of 280 of a unit of 16,777,216 bytes, of 60,000 bytes but for the last. It goes out as packet k of its packet id, 10
// ticks after the part before it, and as packet k + 2 of its stream, of which every third has a full header.
fn part(alloc: Global, file: &[u8], k: u32) -> Result<Vec<u8>, Fail> {
    let (from, place) = (k.saturating_mul(60_000), k.saturating_add(2));
    let length = 16_777_216u32.saturating_sub(from).min(60_000);
    let is_full = place % 3 == 0;
    let mut out = Vec::new(alloc);
    out.extend_from_slice(&[0x7f, 3])?;
    add_two(
        &mut out,
        length.saturating_add(if is_full { 79 } else { 37 }),
    )?;
    out.extend_from_slice(&[0, 0x10u8.saturating_add((place % 16) as u8)])?;
    if is_full {
        add_hex(&mut out, FULL_HEADER)?;
    } else {
        out.push(0x61)?;
    }
    out.extend_from_slice(&[if k == 0 { 1 } else { 0 }, 0, 1, 0])?;
    out.extend_from_slice(
        &k.saturating_mul(10)
            .saturating_add(65_536_200)
            .to_be_bytes(),
    )?;
    out.extend_from_slice(&k.to_be_bytes())?;
    add_two(&mut out, length.saturating_add(20))?;
    out.push(if k == 0 {
        0x2a
    } else if k == 279 {
        0x2e
    } else {
        0x2c
    })?;
    out.push(279u32.saturating_sub(k).min(255) as u8)?;
    add_hex(&mut out, "000000070000000100000001000000000000")?;
    add_file(&mut out, file, u64::from(from), u64::from(length))?;
    Ok(out)
}

// The packets of a plan with one unit of 16,777,216 bytes.
pub fn long_unit(alloc: Global, file: &[u8]) -> Result<Vec<Vec<u8>>, Fail> {
    let mut packets = packets(alloc, file, &[LONG_UNIT_MESSAGES])?;
    for k in 0..280 {
        packets.push(part(alloc, file, k)?)?;
    }
    Ok(packets)
}

// The bytes of a delivery: the packets at these places, where `2-4` are 2, 3 and 4.
pub fn delivered(alloc: Global, packets: &[Vec<u8>], places: &str) -> Result<Vec<u8>, Fail> {
    let mut out = Vec::new(alloc);
    for word in places.split(" ") {
        let (first, last) = word.split_once("-").unwrap_or((word, word));
        let (first, last) = (number(Some(first))?, number(Some(last))?);
        for place in first..last.saturating_add(1) {
            let packet = packets.get(place as usize).ok_or("no packet")?;
            out.extend_from_slice(packet)?;
        }
    }
    Ok(out)
}

// Adds the record of the unit on a line: the mark, timed media, packet id 256, the time, the numbers, no offset,
// no priority and no dependency, the length, and the bytes.
fn add_record(out: &mut Vec<u8>, file: &[u8], line: &str) -> Result<(), Fail> {
    let mut words = line.split(" ");
    let mpu = number(words.next())?;
    let fragment = number(words.next())?;
    let sample = number(words.next())?;
    let time = number(words.next())?;
    let from = number(words.next())?;
    let length = number(words.next())?;
    out.extend_from_slice(&[0x55, 1, 1, 0])?;
    out.extend_from_slice(&time.to_be_bytes())?;
    for value in [mpu, fragment, sample, 0] {
        out.extend_from_slice(&low(value).to_be_bytes())?;
    }
    out.extend_from_slice(&[0, 0])?;
    out.extend_from_slice(&low(length).to_be_bytes())?;
    add_file(out, file, from, length)
}

// The records of these units, in this order.
fn records(alloc: Global, file: &[u8], units: &str) -> Result<Vec<u8>, Fail> {
    let mut out = Vec::new(alloc);
    if units == "none" {
        return Ok(out);
    }
    for word in units.split(" ") {
        let unit = number(Some(word))?;
        add_record(
            &mut out,
            file,
            UNITS.lines().nth(unit as usize).ok_or("no unit")?,
        )?;
    }
    Ok(out)
}

// Whether `take` of a delivery writes the records of these units and notes these lines, each after a comma but
// the first.
fn gives_back(
    alloc: Global,
    file: &[u8],
    input: Vec<u8>,
    units: &str,
    notes: &str,
) -> Result<bool, Fail> {
    let words = words(alloc, &["take"])?;
    let room = low(input.len() as u64).saturating_add(10_000);
    let mut port = MemoryPort::new(alloc, input, 1_000, room, Vec::new(alloc))?;
    let mut shelf = MemoryShelf::new(alloc, Vec::new(alloc));
    let status = run(alloc, &words, &mut port, &mut shelf);
    let mut lines = Vec::new(alloc);
    for line in notes.split(", ") {
        lines.extend_from_slice(line.as_bytes())?;
        lines.push(b'\n')?;
    }
    let records = records(alloc, file, units)?;
    Ok(
        status == Status::Done
            && port.written() == records.as_slice()
            && port.noted() == lines.as_slice(),
    )
}

// The first row of a table that is wrong, or no text. A row is `PLACES @ UNITS @ NOTES`.
fn wrong_row<'a>(
    alloc: Global,
    file: &[u8],
    packets: &[Vec<u8>],
    rows: &'a str,
) -> Result<&'a str, Fail> {
    for row in rows.lines() {
        let (places, rest) = row.split_once(" @ ").ok_or("no row")?;
        let (units, notes) = rest.split_once(" @ ").ok_or("no row")?;
        let input = delivered(alloc, packets, places)?;
        if !gives_back(alloc, file, input, units, notes)? {
            return Ok(row);
        }
    }
    Ok("")
}

#[test]
fn gives_back_what_is_expected_of_the_worked_plan(rt: HostRuntime) -> Result<(), Fail> {
    let file = file(rt.alloc())?;
    let packets = packets(rt.alloc(), &file, &[PACKETS])?;
    assert_eq!(rt; wrong_row(rt.alloc(), &file, &packets, WORKED)?, "");
    Ok(())
}

#[test]
fn gives_back_what_is_expected_with_one_more_table(rt: HostRuntime) -> Result<(), Fail> {
    let file = file(rt.alloc())?;
    let packets = packets(rt.alloc(), &file, &[PACKETS, ONE_MORE_TABLE])?;
    assert_eq!(rt;
        wrong_row(rt.alloc(), &file, &packets, WITH_ONE_MORE_TABLE)?,
        ""
    );
    Ok(())
}

#[test]
fn gives_back_what_is_expected_over_hours(rt: HostRuntime) -> Result<(), Fail> {
    let file = file(rt.alloc())?;
    let packets = packets(rt.alloc(), &file, &[PACKETS, HOURS_LATER])?;
    assert_eq!(rt; wrong_row(rt.alloc(), &file, &packets, OVER_HOURS)?, "");
    Ok(())
}

#[test]
fn gives_back_what_is_expected_of_a_long_unit(rt: HostRuntime) -> Result<(), Fail> {
    let file = file(rt.alloc())?;
    let packets = long_unit(rt.alloc(), &file)?;
    assert_eq!(rt; wrong_row(rt.alloc(), &file, &packets, OF_A_LONG_UNIT)?, "");
    Ok(())
}

#[test]
fn keeps_more_than_is_signalled_of_a_delivery_that_is_not_near(
    rt: HostRuntime,
) -> Result<(), Fail> {
    let file = file(rt.alloc())?;
    let packets = packets(rt.alloc(), &file, &[PACKETS, HOURS_LATER])?;
    assert_eq!(rt; wrong_row(rt.alloc(), &file, &packets, NOT_NEAR)?, "");
    Ok(())
}

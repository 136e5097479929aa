//! Messages with bytes from outside.

ghost use Rattle.std.specs.Prelude.{◌≡◌, ◌<◌, [], ◌∷◌, ◌++◌, map, IfOk};
ghost use Rattle.mmt_model.specs.Carrying.{numbers};
ghost use Rattle.mmt_signals.specs.Sample.{plain_mpu, sample_assets, sample_names, short_mpu};
ghost use Rattle.mmt_cast.specs.PlanOne.{mpu_seven, plan_one, unit_with, usual_signals};

use crate::messages::put_pa;
use crate::put_message;
use mmt_base::{LongTick, Ntp, OutOfMemory};
use mmt_model::{Asset, Au, Flow, List, Mpu, Params, Programme, Signal, Text, Unit, UnitKey};
use std::alloc::Global;
use std::fmt::Write;
use std::test::Fail;

// The buffer message of the worked plan.
const PARAMETERS: [u8; 17] = [
    0xF1, 0, 0, 0, 12, 0, 0, 0x0F, 0xA0, 0, 1, 0, 0, 0, 0, 3, 0xE8,
];

// The PA message of the worked plan, as it stands in examples/two_units.tlv.
const TABLE: [u8; 80] = [
    0, 0, 0, 0, 0, 0, 0x49, 1, 0x20, 0, 0, 0x44, // the message, with its directory
    0x20, 0, 0, 0x40, 0xFC, 2, 0x70, 0x31, 0, 0, 1, // the table
    0, 0, 0, 0, 0, 1, 0x76, 0x68, 0x65, 0x76, 0x31, 0xFE, 1, 0, 1, 0, // the asset
    0, 0x27, 0, 1, 12, 0, 0, 0, 7, 0, 0, 3, 0xE8, 0x80, 0, 0, 0, // its MPU's time
    0x80, 0x26, 21, 0xFD, 0, 0, 0xEA, 0x60, 0, 0, 0, 7, 0x3F, 3, 0xE9, 2, 3, 0xE9, 3, 0xE9, 7,
    0xD2, 0, 0,
];

// The message with a table of version 255 of two assets: the first with two MPUs and the offsets of their access
// units, the second with 22 MPUs in two descriptors. Its bytes are by a plain program.
const TWO_ASSETS: &str = "\
000000000001850120ff018020ff017cfc027031000002000000000001766865\
7631fe0100010000430001180000000700000000000000070000000800000000\
00000008802611fd0000ea60000000073f00050100030004802611fd0000ea60\
000000083f000501000300040000000000016464617461fe01000101010e0001\
fc00000000000000000000000000000001000000000000000100000002000000\
0000000002000000030000000000000003000000040000000000000004000000\
0500000000000000050000000600000000000000060000000700000000000000\
070000000800000000000000080000000900000000000000090000000a000000\
000000000a0000000b000000000000000b0000000c000000000000000c000000\
0d000000000000000d0000000e000000000000000e0000000f00000000000000\
0f00000010000000000000001000000011000000000000001100000012000000\
000000001200000013000000000000001300000014000000000000001400010c\
000000150000000000000015";

/// A unit of timed media, N ticks after the start.
fn unit(tick: u32, from: u32, length: u32, sample: u32) -> Unit
    ensures { result ≡ unit_with tick from length 1 sample }
{
    Unit {
        at: LongTick(65_536_000 + tick as u64),
        from: from as u64,
        length,
        key: UnitKey::Timed {
            movie_fragment: 1,
            sample,
            offset: 0,
        },
        priority: 0,
        dependency: 0,
    }
}

/// A list with one more byte.
fn and(list: List<u8>, byte: u8) -> Result<List<u8>, OutOfMemory>
    ensures { IfOk result (λ more. more ≡ list ++ byte ∷ []) }
{
    let mut list = list;
    list.push(byte)?;
    Ok(list)
}

/// Its MPU.
fn mpu(alloc: Global) -> Result<Mpu, OutOfMemory>
    ensures { IfOk result (λ mpu. mpu ≡ mpu_seven 300) }
{
    let mut aus = List::new(alloc);
    aus.push(Au {
        dts_pts: 1001,
        pts: 1001,
    })?;
    aus.push(Au {
        dts_pts: 2002,
        pts: 0,
    })?;
    let mut units = List::new(alloc);
    units.push(unit(200, 0, 3000, 1))?;
    units.push(unit(300, 3000, 500, 2))?;
    Ok(Mpu {
        number: 7,
        time: Ntp(4_297_114_779_648),
        decoding_offset: 1001,
        aus,
        units,
    })
}

/// Its signalling.
fn signals(alloc: Global) -> Result<List<Signal>, OutOfMemory>
    ensures { IfOk result (λ signals. signals ≡ usual_signals) }
{
    let mut names = List::new(alloc);
    names.push((0, 0))?;
    let mut signals = List::new(alloc);
    signals.push(Signal::Parameters {
        at: LongTick(65_536_000),
    })?;
    signals.push(Signal::Table {
        at: LongTick(65_536_100),
        names,
    })?;
    Ok(signals)
}

/// Its asset.
fn assets(alloc: Global) -> Result<List<Asset>, OutOfMemory>
    ensures { IfOk result (λ assets. assets ≡ plan_one.assets) }
{
    let mut mpus = List::new(alloc);
    mpus.push(mpu(alloc)?)?;
    let mut assets = List::new(alloc);
    assets.push(Asset {
        packet_id: 256,
        id: and(List::new(alloc), 118)?,
        kind: 0x6865_7631,
        timed: true,
        timescale: 60_000,
        file: 0,
        mpus,
    })?;
    Ok(assets)
}

/// The name of its file.
fn files(alloc: Global) -> Result<List<Text>, OutOfMemory>
    ensures { IfOk result (λ files. files ≡ plan_one.files) }
{
    let mut files = List::new(alloc);
    files.push(Text::from_str(alloc, "v.bin")?)?;
    Ok(files)
}

/// The worked plan.
fn worked(alloc: Global) -> Result<Programme, OutOfMemory>
    ensures { IfOk result (λ programme. programme ≡ plan_one) }
{
    Ok(Programme {
        flow: Flow {
            address: 0xFF0E_0000_0000_0000_0000_0000_0000_0101,
            port: 51_300,
        },
        source: Flow {
            address: 0x2001_0DB8_0000_0000_0000_0000_0000_0001,
            port: 51_300,
        },
        context: 1,
        full_every: 3,
        limit: 1400,
        spacing: 10,
        package: and(and(List::new(alloc), 112)?, 49)?,
        params: Params {
            bound: 4000,
            window: 65_536,
            delay: 1000,
        },
        signals: signals(alloc)?,
        assets: assets(alloc)?,
        files: files(alloc)?,
    })
}

/// Message number `at` of the worked plan.
fn message(alloc: Global, at: usize) -> Result<Vec<u8>, Fail>
    requires { at < 2 }
{
    let programme = worked(alloc)?;
    let mut out = Vec::new(alloc);
    put_message(&mut out, &programme, at, 0)?;
    Ok(out)
}

#[test]
fn the_worked_plan_has_its_two_messages(rt: HostRuntime) -> Result<(), Fail> {
    let parameters = message(rt.alloc(), 0)?;
    assert_eq!(rt; parameters.as_slice(), PARAMETERS.as_slice());
    let table = message(rt.alloc(), 1)?;
    assert_eq!(rt; table.as_slice(), TABLE.as_slice());
    Ok(())
}

/// An MPU with one access unit.
fn short(alloc: Global, number: u32) -> Result<Mpu, OutOfMemory>
    ensures { IfOk result (λ mpu. mpu ≡ short_mpu number) }
{
    let mut aus = List::new(alloc);
    aus.push(Au { dts_pts: 3, pts: 4 })?;
    Ok(Mpu {
        number,
        time: Ntp(number as u64),
        decoding_offset: 5,
        aus,
        units: List::new(alloc),
    })
}

/// 22 MPUs without access units.
#[tactic(auto, using(crate::proofs::Sample::more_items), unfolding(mmt_model::specs::Carrying::numbers))]
fn items(alloc: Global) -> Result<List<Mpu>, OutOfMemory>
    ensures { IfOk result (λ mpus. mpus ≡ map plain_mpu (numbers 0 22)) }
{
    let mut mpus = List::new(alloc);
    for number in 0..22 {
        mpus.push(Mpu {
            number,
            time: Ntp(number as u64),
            decoding_offset: 0,
            aus: List::new(alloc),
            units: List::new(alloc),
        })?;
    }
    Ok(mpus)
}

/// The names of all MPUs.
#[tactic(auto, using(crate::proofs::Sample::more_names), unfolding(mmt_model::specs::Carrying::numbers))]
fn names(alloc: Global) -> Result<List<(u32, u32)>, OutOfMemory>
    ensures { IfOk result (λ names. names ≡ sample_names) }
{
    let mut names = List::new(alloc);
    names.push((0, 0))?;
    names.push((0, 1))?;
    for number in 0..22 {
        names.push((1, number))?;
    }
    Ok(names)
}

/// An asset with MPUs of access units, and one without.
fn two_assets(alloc: Global) -> Result<List<Asset>, OutOfMemory>
    ensures { IfOk result (λ assets. assets ≡ sample_assets) }
{
    let mut mpus = List::new(alloc);
    mpus.push(short(alloc, 7)?)?;
    mpus.push(short(alloc, 8)?)?;
    let mut assets = List::new(alloc);
    assets.push(Asset {
        packet_id: 256,
        id: and(List::new(alloc), 118)?,
        kind: 0x6865_7631,
        timed: true,
        timescale: 60_000,
        file: 0,
        mpus,
    })?;
    assets.push(Asset {
        packet_id: 257,
        id: and(List::new(alloc), 100)?,
        kind: 0x6461_7461,
        timed: false,
        timescale: 1,
        file: 0,
        mpus: items(alloc)?,
    })?;
    Ok(assets)
}

/// The message of a table that names all MPUs of the two assets.
fn table_of_two(alloc: Global, version: u8) -> Result<Vec<u8>, Fail> {
    let mut programme = worked(alloc)?;
    programme.assets = two_assets(alloc)?;
    let names = names(alloc)?;
    let mut out = Vec::new(alloc);
    put_pa(&mut out, &programme, version, names.as_slice())?;
    Ok(out)
}

#[test]
fn a_table_of_two_assets_has_21_mpus_a_descriptor(rt: HostRuntime) -> Result<(), Fail> {
    let message = table_of_two(rt.alloc(), 255)?;
    let mut hex = String::new(rt.alloc());
    for byte in message {
        write!(hex, "{byte:02x}")?;
    }
    assert_eq!(rt; hex.as_str(), TWO_ASSETS);
    Ok(())
}

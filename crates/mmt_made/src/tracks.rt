//! The media of the programme.

ghost use Rattle.std.specs.Prelude.{◌≡◌, ◌+◌, ◌*◌, ◌<◌, ◌≤◌, ◌^◌, map, IfOk};
ghost use Rattle.mmt_made.specs.Generator.{au_of, mpu_of, mpus_of, unit_of};
ghost use Rattle.mmt_model.specs.Carrying.{numbers};

use mmt_base::{LongTick, Ntp, OutOfMemory};
use mmt_model::{Au, List, Mpu, Unit, UnitKey};
use std::alloc::Global;

/// How many blocks of half a second the programme has; each is an MPU of each track.
pub const BLOCKS: u32 = 120;

/// The first tick of the programme.
pub const START: u64 = 65_536_000;

/// Timed media of units that are alike: how many an MPU has, how many bytes each has, how many units of the timescale lie
/// between two access units, and in how many ticks 15 units are sent.
#[derive(Clone, Copy, Debug)]
pub struct Track {
    pub per_mpu: u32,
    pub length: u32,
    pub period: u16,
    pub ticks: u32,
}

/// Unit `number` of a track.
fn unit(track: &Track, number: u32) -> Unit
    requires some { 1 ≤ track.now.per_mpu }
    requires length { track.now.length < 2 ^ 16 }
    requires ticks { track.now.ticks < 2 ^ 16 }
    ensures { result ≡ unit_of track.now number }
{
    Unit {
        at: LongTick(START + number as u64 * track.ticks as u64 / 15),
        from: track.length as u64 * number as u64,
        length: track.length,
        key: UnitKey::Timed {
            movie_fragment: 1,
            sample: number % track.per_mpu + 1,
            offset: 0,
        },
        priority: 0,
        dependency: 0,
    }
}

/// The units of an MPU of a track.
fn units(alloc: Global, track: &Track, mpu: u32) -> Result<List<Unit>, OutOfMemory>
    requires some { 1 ≤ track.now.per_mpu }
    requires few { track.now.per_mpu < 2 ^ 8 }
    requires length { track.now.length < 2 ^ 16 }
    requires ticks { track.now.ticks < 2 ^ 16 }
    requires mpu { mpu < 2 ^ 8 }
    ensures { IfOk result (λ list. list ≡ map (unit_of track.now) (numbers (mpu * track.now.per_mpu) track.now.per_mpu)) }
{
    let first = mpu * track.per_mpu;
    let mut list = List::new(alloc);
    for k in 0..track.per_mpu {
        match list.push(unit(track, first + k)) {
            Ok(()) => {}
            Err(refused) => return Err(refused),
        }
    }
    Ok(list)
}

/// The access units of an MPU of a track.
fn aus(alloc: Global, track: &Track) -> Result<List<Au>, OutOfMemory>
    ensures { IfOk result (λ list. list ≡ map (au_of track.now) (numbers 0 track.now.per_mpu)) }
{
    let mut list = List::new(alloc);
    for k in 0..track.per_mpu {
        let au = Au {
            dts_pts: 0,
            pts: track.period,
        };
        match list.push(au) {
            Ok(()) => {}
            Err(refused) => return Err(refused),
        }
    }
    Ok(list)
}

/// An MPU of a track.
fn mpu(alloc: Global, track: &Track, number: u32) -> Result<Mpu, OutOfMemory>
    requires some { 1 ≤ track.now.per_mpu }
    requires few { track.now.per_mpu < 2 ^ 8 }
    requires length { track.now.length < 2 ^ 16 }
    requires ticks { track.now.ticks < 2 ^ 16 }
    requires number { number < 2 ^ 8 }
    ensures { IfOk result (λ mpu. mpu ≡ mpu_of track.now number) }
{
    let aus = aus(alloc, track)?;
    let units = units(alloc, track, number)?;
    Ok(Mpu {
        number,
        time: Ntp(4_299_262_263_296 + number as u64 * 2_147_483_648),
        decoding_offset: 0,
        aus,
        units,
    })
}

/// The MPUs of a track.
pub fn mpus(alloc: Global, track: &Track) -> Result<List<Mpu>, OutOfMemory>
    requires some { 1 ≤ track.now.per_mpu }
    requires few { track.now.per_mpu < 2 ^ 8 }
    requires length { track.now.length < 2 ^ 16 }
    requires ticks { track.now.ticks < 2 ^ 16 }
    ensures { IfOk result (λ list. list ≡ mpus_of track.now) }
{
    let mut list = List::new(alloc);
    for b in 0..BLOCKS {
        let mpu = match mpu(alloc, track, b) {
            Ok(mpu) => mpu,
            Err(refused) => return Err(refused),
        };
        match list.push(mpu) {
            Ok(()) => {}
            Err(refused) => return Err(refused),
        }
    }
    Ok(list)
}

//! The times of an MPU's units.

ghost use Rattle.std.specs.Prelude.{◌≡◌, ◌≤◌, ◌<◌, length, get_or, max as greater};
ghost use Rattle.std.specs.List.{fold};
ghost use Rattle.mmt_casting.specs.Timed.{IsTimed, sample_time as time_by, times_of};
ghost use Rattle.mmt_times.specs.Times.{in_range};

use mmt_base::Ntp;
use mmt_model::Mpu;
use mmt_times::time_at;

/// The time of an access unit.
fn au_time(mpu: &Mpu, timescale: u32, place: usize) -> Ntp
    requires few { length mpu.now.aus ≤ 60 }
    requires some { 1 ≤ timescale }
    requires timed { IsTimed mpu.now timescale }
    requires inside { place < length mpu.now.aus }
    ensures { result.0 ≡ get_or (in_range (times_of mpu.now timescale)) place mpu.now.time.0 }
{
    let aus = mpu.aus.as_slice();
    let mut before = 0u32;
    for i in 0..place {
        before += aus[i].pts as u32;
    }
    match time_at(
        mpu.time,
        mpu.decoding_offset,
        before,
        aus[place].dts_pts,
        timescale,
    ) {
        Some(time) => time,
        None => mpu.time,
    }
}

/// The time of a unit of a sample, sample 1 being the first access unit.
pub(crate) fn sample_time(mpu: &Mpu, timescale: u32, sample: u32) -> Ntp
    requires few { length mpu.now.aus ≤ 60 }
    requires some { 1 ≤ timescale }
    requires timed { IsTimed mpu.now timescale }
    ensures { result.0 ≡ time_by mpu.now timescale sample }
{
    if 1 <= sample {
        let place = (sample - 1) as usize;
        if place < mpu.aus.len() {
            au_time(mpu, timescale, place)
        } else {
            mpu.time
        }
    } else {
        mpu.time
    }
}

/// The later of two times.
fn later_of(last: Ntp, time: Ntp) -> Ntp
    ensures { result.0 ≡ greater last.0 time.0 }
{
    if last.0 < time.0 { time } else { last }
}

/// The greatest of an MPU's time and the times of its access units.
pub(crate) fn last_time(mpu: &Mpu, timescale: u32) -> Ntp
    requires few { length mpu.now.aus ≤ 60 }
    requires some { 1 ≤ timescale }
    ensures { result.0 ≡ fold greater mpu.now.time.0 (in_range (times_of mpu.now timescale)) }
{
    let aus = mpu.aus.as_slice();
    let mut before = 0u32;
    let mut last = mpu.time;
    for i in 0..aus.len() {
        match time_at(
            mpu.time,
            mpu.decoding_offset,
            before,
            aus[i].dts_pts,
            timescale,
        ) {
            Some(time) => last = later_of(last, time),
            None => return last,
        }
        before += aus[i].pts as u32;
    }
    last
}

//! Reading a payload, field by field.

ghost use Rattle.std.specs.Prelude.{◌≡◌, ◌+◌, ◌<◌, ◌≤◌, ◌^◌, length, not, IfOk, IfErr, Ok, Some, None, MatchResult};
ghost use Rattle.mmt_fields.specs.Reading.{Gives};
ghost use Rattle.mmt_mpu.specs.Spelling.{Value, Fits, spelling};
ghost use Rattle.mmt_mpu.specs.Reading.{payload_of, units_of, all_units};
ghost use Rattle.mmt_mpu.specs.Left.{left};
ghost use Rattle.mmt_mpu.specs.View.{view};

use crate::head::{lone_at, unit_at};
use crate::payload::MpuPayload;
use crate::types::{MpuHead, MpuWhy};
use mmt_base::Refused;
use mmt_fields::{check, u8_at, u16_at, u32_at};
use mmt_model::Part;

/// How many units stand one after the other, each after its length.
#[tactic(auto, using(crate::proofs::Walk::stop_step, crate::proofs::Walk::count_step, crate::proofs::Walk::stop_err, crate::proofs::Walk::stop_none, crate::proofs::Walk::count_none))]
fn count_units(timed: bool, bytes: &[u8]) -> Result<u32, Refused<MpuWhy>>
    requires { 8 + length bytes.now < 2 ^ 31 }
    ensures walk { MatchResult result
        (λ n. ((all_units timed 8 bytes.now).stop ≡ None) × (n ≡ length (all_units timed 8 bytes.now).units))
        (λ e. (all_units timed 8 bytes.now).stop ≡ Some e) }
    ensures place { IfErr result (λ e. e.at ≤ 8 + length bytes.now) }
{
    let mut place = 8;
    let mut rest = bytes;
    let mut count = 0;
    while !rest.is_empty() {
        let (unit, after) = unit_at(timed, place, rest)?;
        place = unit.from + unit.bytes.len() as u32;
        rest = after;
        count += 1;
    }
    Ok(count)
}

/// How many units there are.
#[tactic(auto, unfolding(crate::specs::Reading::units_of))]
fn count_of(aggregated: bool, timed: bool, bytes: &[u8]) -> Result<u32, Refused<MpuWhy>>
    requires { 8 + length bytes.now < 2 ^ 31 }
    ensures gives { Gives (λ _. left (not aggregated) timed 8 bytes.now) result (units_of aggregated timed bytes.now) }
    ensures count { IfOk result (λ n. n ≡ length (left (not aggregated) timed 8 bytes.now)) }
    ensures place { IfErr result (λ e. e.at ≤ 8 + length bytes.now) }
{
    if aggregated {
        count_units(timed, bytes)
    } else {
        let _unit = lone_at(timed, 8, bytes)?;
        Ok(1)
    }
}

/// The payload that the bytes are, or the first refusal.
#[tactic(auto, unfolding(crate::specs::Reading::payload_of))]
fn mpu_payload(bytes: &[u8]) -> Result<MpuPayload<'_>, Refused<MpuWhy>>
    requires { length bytes.now < 2 ^ 31 }
    ensures gives { Gives view result (payload_of bytes.now) }
    ensures place { IfErr result (λ e. e.at ≤ length bytes.now) }
{
    let (len, rest) = u16_at(bytes, 0, MpuWhy::Short)?;
    check(rest.len() == len as usize, 0, MpuWhy::Length)?;
    let (flags, rest) = u8_at(rest, 2, MpuWhy::Short)?;
    let fragment_type = flags >> 4;
    check(fragment_type >= 2, 2, MpuWhy::Metadata(fragment_type))?;
    check(fragment_type <= 2, 2, MpuWhy::FragmentType(fragment_type))?;
    let aggregated = flags & 1 == 1;
    let part = flags >> 1 & 0b11;
    if aggregated && part != 0 {
        return Err(Refused {
            at: 2,
            why: MpuWhy::AggregatedPart,
        });
    }
    let (counter, rest) = u8_at(rest, 3, MpuWhy::Short)?;
    let (mpu, body) = u32_at(rest, 4, MpuWhy::Short)?;
    let timed = flags >> 3 & 1 == 1;
    let count = count_of(aggregated, timed, body)?;
    let head = MpuHead {
        timed,
        part: Part::from_indicator(part),
        aggregated,
        counter,
        mpu,
    };
    Ok(MpuPayload { head, body, count })
}

/// The payload that the bytes are, all of them (ISO/IEC 23008-1, the payload header for MPU mode). It
/// takes no memory, and copies no unit.
///
/// # Errors
///
/// The first check that the bytes fail, with its place in bytes from their start: the payload length
/// is tried before the fragment type and the flags, and those before the units, one after the other.
pub fn read_mpu(payload: &[u8]) -> Result<MpuPayload<'_>, Refused<MpuWhy>>
    requires { length payload.now < 2 ^ 31 }
    // What is read is spelled so.
    ensures found { IfOk result (λ p. Fits (view p) × (payload.now ≡ spelling (view p))) }
    // What is spelled so is read.
    ensures only { (v : Value) → Fits v → payload.now ≡ spelling v → Gives view result (Ok v) }
    // Which refusal it is, and where.
    ensures exact { Gives view result (payload_of payload.now) }
    // The place lies within the bytes, or directly behind them.
    ensures place { IfErr result (λ e. e.at ≤ length payload.now) }
{
    mpu_payload(payload)
}

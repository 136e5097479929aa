//! Reading one data unit: its header, and the bytes after it.

ghost use Rattle.std.specs.Prelude.{◌≡◌, ◌+◌, ◌<◌, ◌≤◌, ◌^◌, true, false, List, [], ◌∷◌, length, IfOk, IfErr, MatchOption, IfSome};
ghost use Rattle.mmt_fields.specs.Reading.{Gives};
ghost use Rattle.mmt_mpu.specs.Spelling.{head_length as length_of};
ghost use Rattle.mmt_mpu.specs.Reading.{head_at as head_by, unit_at as unit_by, lone_at as lone_by};
ghost use Rattle.mmt_mpu.specs.Head.{view_head, view_unit};
ghost use Rattle.mmt_mpu.specs.Left.{left};

use crate::types::{DataUnit, MpuWhy};
use mmt_base::Refused;
use mmt_fields::{bytes_at, u8_at, u16_at, u32_at};
use mmt_model::UnitKey;

/// The header of a data unit.
#[derive(Clone, Copy)]
pub(crate) struct Head {
    pub key: UnitKey,
    pub priority: u8,
    pub dependency: u8,
}

/// How many bytes a unit's header takes.
pub(crate) fn head_length(timed: bool) -> u32
    ensures { result ≡ length_of timed }
{
    if timed { 14 } else { 4 }
}

/// The header of a unit of timed media.
#[tactic(auto, unfolding(crate::specs::Reading::head_at))]
fn timed_head(at: u32, bytes: &[u8]) -> Result<(Head, &[u8]), Refused<MpuWhy>>
    requires { at < 2 ^ 31 }
    ensures gives { Gives (λ x. (view_head x.0, x.1.now)) result (head_by true at bytes.now) }
    ensures len { IfOk result (λ x. length x.1.now + 14 ≡ length bytes.now) }
    ensures place { IfErr result (λ e. e.at ≤ at + length bytes.now) }
{
    let (movie_fragment, rest) = u32_at(bytes, at, MpuWhy::Short)?;
    let (sample, rest) = u32_at(rest, at + 4, MpuWhy::Short)?;
    let (offset, rest) = u32_at(rest, at + 8, MpuWhy::Short)?;
    let (priority, rest) = u8_at(rest, at + 12, MpuWhy::Short)?;
    let (dependency, rest) = u8_at(rest, at + 13, MpuWhy::Short)?;
    let key = UnitKey::Timed {
        movie_fragment,
        sample,
        offset,
    };
    Ok((
        Head {
            key,
            priority,
            dependency,
        },
        rest,
    ))
}

/// The header of an item.
#[tactic(auto, unfolding(crate::specs::Reading::head_at))]
fn item_head(at: u32, bytes: &[u8]) -> Result<(Head, &[u8]), Refused<MpuWhy>>
    ensures gives { Gives (λ x. (view_head x.0, x.1.now)) result (head_by false at bytes.now) }
    ensures len { IfOk result (λ x. length x.1.now + 4 ≡ length bytes.now) }
    ensures place { IfErr result (λ e. e.at ≤ at + length bytes.now) }
{
    let (item, rest) = u32_at(bytes, at, MpuWhy::Short)?;
    Ok((
        Head {
            key: UnitKey::Item { item },
            priority: 0,
            dependency: 0,
        },
        rest,
    ))
}

/// The header of a unit of timed media, or of an item.
fn head_at(timed: bool, at: u32, bytes: &[u8]) -> Result<(Head, &[u8]), Refused<MpuWhy>>
    requires { at < 2 ^ 31 }
    ensures gives { Gives (λ x. (view_head x.0, x.1.now)) result (head_by timed at bytes.now) }
    ensures len { IfOk result (λ x. length x.1.now + length_of timed ≡ length bytes.now) }
    ensures place { IfErr result (λ e. e.at ≤ at + length bytes.now) }
{
    if timed {
        timed_head(at, bytes)
    } else {
        item_head(at, bytes)
    }
}

/// The unit at a place, whose length stands before it, and the bytes after it.
#[tactic(auto, unfolding(crate::specs::Reading::unit_at))]
pub(crate) fn unit_at(
    timed: bool,
    at: u32,
    bytes: &[u8],
) -> Result<(DataUnit<'_>, &[u8]), Refused<MpuWhy>>
    requires { at + length bytes.now < 2 ^ 31 }
    ensures gives { Gives (λ x. (view_unit x.0, x.1.now)) result (unit_by timed at bytes.now) }
    ensures end { IfOk result (λ x. x.0.from + length x.0.bytes.now + length x.1.now ≡ at + length bytes.now) }
    ensures shorter { IfOk result (λ x. length x.1.now < length bytes.now) }
    ensures place { IfErr result (λ e. e.at ≤ at + length bytes.now) }
{
    let (len, rest) = u16_at(bytes, at, MpuWhy::Short)?;
    let header = head_length(timed);
    if (len as u32) < header || rest.len() < len as usize {
        return Err(Refused {
            at,
            why: MpuWhy::Overrun,
        });
    }
    let (head, rest) = head_at(timed, at + 2, rest)?;
    let from = at + 2 + header;
    let (bytes, rest) = bytes_at(rest, len as usize - header as usize, from, MpuWhy::Short)?;
    Ok((
        DataUnit {
            key: head.key,
            priority: head.priority,
            dependency: head.dependency,
            from,
            bytes,
        },
        rest,
    ))
}

/// The one unit that takes all the bytes.
#[tactic(auto, unfolding(crate::specs::Reading::lone_at))]
pub(crate) fn lone_at(timed: bool, at: u32, bytes: &[u8]) -> Result<DataUnit<'_>, Refused<MpuWhy>>
    requires { at + length bytes.now < 2 ^ 31 }
    ensures gives { Gives view_unit result (lone_by timed at bytes.now) }
    ensures end { IfOk result (λ x. x.from + length x.bytes.now ≡ at + length bytes.now) }
    ensures place { IfErr result (λ e. e.at ≤ at + length bytes.now) }
{
    let header = head_length(timed);
    if bytes.len() < header as usize {
        return Err(Refused {
            at,
            why: MpuWhy::Short,
        });
    }
    let (head, bytes) = head_at(timed, at, bytes)?;
    Ok(DataUnit {
        key: head.key,
        priority: head.priority,
        dependency: head.dependency,
        from: at + header,
        bytes,
    })
}

/// The first of the units that are left, and the bytes after it.
#[tactic(auto, using(crate::proofs::Walk::units_step, crate::proofs::Walk::units_err, crate::proofs::Walk::units_none))]
pub(crate) fn first_unit(
    lone: bool,
    timed: bool,
    at: u32,
    bytes: &[u8],
) -> Option<(DataUnit<'_>, &[u8])>
    requires { at + length bytes.now < 2 ^ 31 }
    ensures first { MatchOption result (left lone timed at bytes.now ≡ [])
        (λ x. left lone timed at bytes.now ≡ view_unit x.0 ∷ left false timed (x.0.from + length x.0.bytes.now) x.1.now) }
    ensures end { IfSome result (λ x. x.0.from + length x.0.bytes.now + length x.1.now ≡ at + length bytes.now) }
{
    if lone {
        match lone_at(timed, at, bytes) {
            Ok(unit) => Some((unit, &[])),
            Err(_) => None,
        }
    } else {
        match unit_at(timed, at, bytes) {
            Ok(found) => Some(found),
            Err(_) => None,
        }
    }
}

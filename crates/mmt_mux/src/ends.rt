//! Why a run of `mux` or `pace` ends before the whole stream is written.

ghost use Rattle.std.specs.Prelude.{◌≡◌};
ghost use Rattle.mmt_mux.specs.Ending.{send_end, unit_place};

use mmt_admit::NotAdmitted;
use mmt_casting::CastEnd;
use mmt_model::Cast;
use mmt_plan::{FilesEnd, PlanEnd, PlanPart, PlanPlace, Reason};
use mmt_send::SendEnd;
use mmt_slots::NoSchedule;
use thiserror::Error;

/// Why a run of `mux` ends before the whole stream is written. It shows as the text of the status with which the
/// program then ends.
#[derive(Clone, Copy, Debug, PartialEq, Eq, Error)]
pub enum MuxEnd {
    /// The plan or one of its files is refused, or the programme has no cast. The first reason, and its place in the
    /// plan.
    #[error("plan: {reason} at {place}")]
    Refused { reason: Reason, place: PlanPlace },
    /// The cast has a fault.
    #[error("{0}")]
    NotAdmitted(NotAdmitted),
    /// A read of the plan or of a file failed.
    #[error("read fault")]
    ReadFault,
    /// A write failed.
    #[error("write fault")]
    WriteFault,
    /// There is no memory.
    #[error("out of memory")]
    OutOfMemory,
}

/// Why a run of `pace` ends before the whole stream is written. It shows as the text of the status with which the
/// program then ends.
#[derive(Clone, Copy, Debug, PartialEq, Eq, Error)]
pub enum PaceEnd {
    /// An interval has more packets than slots: its first and its last tick, and how many packets have to go in it and
    /// how many slots it has.
    #[error("not paced: {from} {to} {jobs} {slots}")]
    NotPaced {
        from: u64,
        to: u64,
        jobs: u32,
        slots: u32,
    },
    /// As a run of `mux` ends, with the paced cast in place of the cast.
    #[error("{0}")]
    Ended(MuxEnd),
}

impl From<NoSchedule> for PaceEnd {
    ghost use Rattle.mmt_mux.specs.Pacing.{no_schedule_end};

    ghost from_gives = { λ end gives. gives ≡ no_schedule_end end };

    fn from(end: NoSchedule) -> PaceEnd {
        match end {
            NoSchedule::Overfull {
                from,
                to,
                jobs,
                slots,
            } => PaceEnd::NotPaced {
                from,
                to,
                jobs,
                slots,
            },
            NoSchedule::OutOfMemory => PaceEnd::Ended(MuxEnd::OutOfMemory),
        }
    }
}

impl From<PlanEnd> for MuxEnd {
    ghost use Rattle.mmt_mux.specs.Ending.{plan_end};

    ghost from_gives = { λ end gives. gives ≡ plan_end end };

    fn from(end: PlanEnd) -> MuxEnd {
        match end {
            PlanEnd::Refused { reason, place } => MuxEnd::Refused { reason, place },
            PlanEnd::ReadFault => MuxEnd::ReadFault,
            PlanEnd::OutOfMemory => MuxEnd::OutOfMemory,
        }
    }
}

impl From<CastEnd> for MuxEnd {
    ghost use Rattle.mmt_mux.specs.Ending.{cast_end};

    ghost from_gives = { λ end gives. gives ≡ cast_end end };

    fn from(end: CastEnd) -> MuxEnd {
        match end {
            CastEnd::TimeRange { asset, mpu, au } => MuxEnd::Refused {
                reason: Reason::TimeRange,
                place: PlanPlace {
                    part: PlanPart::Au,
                    a: asset,
                    b: mpu,
                    c: au,
                    field: 0,
                },
            },
            CastEnd::TableLong { signal } => MuxEnd::Refused {
                reason: Reason::TableLong,
                place: PlanPlace {
                    part: PlanPart::Signal,
                    a: signal,
                    b: 0,
                    c: 0,
                    field: 3,
                },
            },
            CastEnd::CastLong { .. } => MuxEnd::Refused {
                reason: Reason::CastLong,
                place: PlanPlace {
                    part: PlanPart::Top,
                    a: 0,
                    b: 0,
                    c: 0,
                    field: 13,
                },
            },
            CastEnd::OutOfMemory => MuxEnd::OutOfMemory,
        }
    }
}

impl From<FilesEnd> for MuxEnd {
    ghost use Rattle.mmt_mux.specs.Ending.{files_end};

    ghost from_gives = { λ end gives. gives ≡ files_end end };

    fn from(end: FilesEnd) -> MuxEnd {
        match end {
            FilesEnd::Refused { reason, place } => MuxEnd::Refused { reason, place },
            FilesEnd::ReadFault => MuxEnd::ReadFault,
        }
    }
}

/// Where a unit of a cast stands in its plan, the member that is its length.
#[tactic(auto, using(crate::proofs::Checks::unit_found, crate::proofs::Checks::unit_absent))]
fn place_of_unit(cast: &Cast, unit: u32) -> PlanPlace
    ensures { result ≡ unit_place cast.now unit }
{
    let (a, b, c) = match cast.units.get(unit as usize) {
        Some(sent) => (sent.asset, sent.mpu, sent.unit),
        None => (0, 0, 0),
    };
    PlanPlace {
        part: PlanPart::Unit,
        a,
        b,
        c,
        field: 3,
    }
}

/// The end of a run by that of sending its cast. A file that has become shorter since it was looked at is a short
/// unit.
pub(crate) fn end_of_send(cast: &Cast, end: SendEnd) -> MuxEnd
    ensures { result ≡ send_end cast.now end }
{
    match end {
        SendEnd::ReadFault => MuxEnd::ReadFault,
        SendEnd::UnitShort { unit, .. } => MuxEnd::Refused {
            reason: Reason::UnitShort,
            place: place_of_unit(cast, unit),
        },
        SendEnd::WriteFault => MuxEnd::WriteFault,
        SendEnd::OutOfMemory => MuxEnd::OutOfMemory,
    }
}

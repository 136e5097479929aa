//! Why a plan or its files are refused, and where.

ghost use Rattle.std.specs.Prelude.{◌≡◌};

use mmt_base::OutOfMemory;
use std::fmt;
use std::fmt::{Display, Formatter};
use thiserror::Error;

/// Why a plan, its files or a list of deliveries is refused. It shows as the word of the reason.
#[derive(Clone, Copy, Debug, PartialEq, Eq, Error)]
pub enum Reason {
    /// A value that is to be an object is none.
    #[error("not-object")]
    NotObject,
    /// A member that is to be there is not.
    #[error("missing")]
    Missing,
    /// A member, or a pair of numbers, is not of its type or not in its range.
    #[error("value")]
    Value,
    /// An object has a member that it may not have.
    #[error("unknown-key")]
    UnknownKey,
    /// There is no file of the plan's name.
    #[error("plan-absent")]
    PlanAbsent,
    /// The plan has more than 16,777,216 bytes.
    #[error("plan-long")]
    PlanLong,
    /// The plan is no JSON text.
    #[error("not-json")]
    NotJson,
    /// Two assets have one packet id.
    #[error("packet-id-twice")]
    PacketIdTwice,
    /// Two MPUs of one asset have one number.
    #[error("mpu-twice")]
    MpuTwice,
    /// A table names an MPU that the plan does not have.
    #[error("no-such-mpu")]
    NoSuchMpu,
    /// The time of an access unit is not in the range of an NTP time of 64 bits.
    #[error("time-range")]
    TimeRange,
    /// A table has more than 65,535 bytes.
    #[error("table-long")]
    TableLong,
    /// The programme has more than 16,777,216 packets.
    #[error("cast-long")]
    CastLong,
    /// There is no file of an asset's name.
    #[error("file-absent")]
    FileAbsent,
    /// A file ends before the last byte of a unit.
    #[error("unit-short")]
    UnitShort,
    /// There is no file of the name of the list of deliveries.
    #[error("list-absent")]
    ListAbsent,
    /// The list of deliveries has more than 16,777,216 bytes.
    #[error("list-long")]
    ListLong,
    /// A line of the list of deliveries is not the number of a sent packet.
    #[error("list-line")]
    ListLine,
}

/// The kinds of object of a plan, and a line of a list of deliveries. It shows as its name in small
/// letters.
#[derive(Clone, Copy, Debug, PartialEq, Eq)]
pub enum PlanPart {
    /// The plan as a whole.
    Top,
    /// A signalling message.
    Signal,
    /// An asset.
    Asset,
    /// An MPU of an asset.
    Mpu,
    /// An access unit of an MPU.
    Au,
    /// A data unit of an MPU.
    Unit,
    /// A line of a list of deliveries.
    Line,
}

impl Display for PlanPart {
    fn fmt<W: fmt::Write>(&self, f: &mut Formatter<W>) -> fmt::Result {
        f.write_str(match self {
            PlanPart::Top => "top",
            PlanPart::Signal => "signal",
            PlanPart::Asset => "asset",
            PlanPart::Mpu => "mpu",
            PlanPart::Au => "au",
            PlanPart::Unit => "unit",
            PlanPart::Line => "line",
        })
    }
}

/// A place in a plan: an object by its kind and by its place among those of the kind, counted from 0,
/// which is that of the signalling message or of the asset (`a`), of the MPU in the asset (`b`) and of
/// the access unit or data unit in the MPU (`c`), as far as the kind has them, and 0 otherwise; and a
/// member of the object by its number (`field`) from 1 on, or 0 for the object as a whole. It shows as
/// `PART A B C field F`.
#[derive(Clone, Copy, Debug, PartialEq, Eq)]
pub struct PlanPlace {
    pub part: PlanPart,
    pub a: u32,
    pub b: u32,
    pub c: u32,
    pub field: u32,
}

impl Display for PlanPlace {
    fn fmt<W: fmt::Write>(&self, f: &mut Formatter<W>) -> fmt::Result {
        let PlanPlace {
            part,
            a,
            b,
            c,
            field,
        } = *self;
        write!(f, "{part} {a} {b} {c} field {field}")
    }
}

/// What is wrong, and where.
#[derive(Clone, Copy, Debug, PartialEq, Eq)]
pub struct Refusal {
    pub reason: Reason,
    pub place: PlanPlace,
}

/// Why a plan gives no programme. It shows as the text of the status with which a command then ends.
#[derive(Clone, Copy, Debug, PartialEq, Eq, Error)]
pub enum PlanEnd {
    /// The plan is none. The first reason, and where.
    #[error("plan: {reason} at {place}")]
    Refused { reason: Reason, place: PlanPlace },
    /// A read of the plan failed.
    #[error("read fault")]
    ReadFault,
    /// There is no memory.
    #[error("out of memory")]
    OutOfMemory,
}

/// Why the files of a programme are not right. It shows as the text of the status with which a command
/// then ends.
#[derive(Clone, Copy, Debug, PartialEq, Eq, Error)]
pub enum FilesEnd {
    /// A file is absent or too short. The first reason, and where.
    #[error("plan: {reason} at {place}")]
    Refused { reason: Reason, place: PlanPlace },
    /// A read of a file failed.
    #[error("read fault")]
    ReadFault,
}

impl From<Refusal> for PlanEnd {
    ghost use Rattle.mmt_plan.specs.declared.ends.PlanEnd.TheVariants as ends;

    ghost from_gives = { λ r e. e ≡ ends.Refused r.reason r.place };

    fn from(refusal: Refusal) -> PlanEnd {
        PlanEnd::Refused {
            reason: refusal.reason,
            place: refusal.place,
        }
    }
}

impl From<OutOfMemory> for PlanEnd {
    ghost use Rattle.mmt_plan.specs.declared.ends.PlanEnd.TheVariants as ends;

    ghost from_gives = { λ _ e. e ≡ ends.OutOfMemory };

    fn from(_memory: OutOfMemory) -> PlanEnd {
        PlanEnd::OutOfMemory
    }
}

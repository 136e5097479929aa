//! How a run ends.
ghost use Rattle.std.specs.Prelude.{◌≡◌};
ghost use Rattle.mmt_cli.specs.Statuses.{status_of};

use mmt_admit::NotAdmitted;
use mmt_io::Halt;
use mmt_mux::{MuxEnd, PaceEnd};
use mmt_plan::{PlanPlace, Reason};
use mmt_stream::{BrokenKind, StreamEnd};
use std::fmt;

/// How a run ends.
#[derive(Clone, Copy, Debug, PartialEq, Eq)]
pub enum Status {
    /// The command did its work, and read its input to the end.
    Done,
    /// The words are no command from this one on, which is counted from 0.
    Usage {
        index: u32,
    },
    /// A read failed.
    ReadFault,
    /// A write or a note failed.
    WriteFault,
    /// The input is whole packets up to this place, and no packet stands there.
    Broken {
        kind: BrokenKind,
        place: u64,
    },
    /// The plan or one of its files is refused: the first reason, and its place in the plan.
    PlanRefused {
        reason: Reason,
        place: PlanPlace,
    },
    /// The cast of the plan is not admitted: its first fault.
    NotAdmitted {
        refusal: NotAdmitted,
    },
    /// There was no memory.
    OutOfMemory,
    /// The input has more bytes than the limit.
    TooLong,
    /// An interval has more packets than slots: its first and its last tick, and how many packets have to go in it and how
    /// many slots it has.
    NotPaced {
        from: u64,
        to: u64,
        jobs: u32,
        slots: u32,
    },
}

impl From<StreamEnd> for Status {
    ghost from_gives = { λ end status. status ≡ status_of end };

    fn from(end: StreamEnd) -> Status {
        match end {
            StreamEnd::Done => Status::Done,
            StreamEnd::ReadFault => Status::ReadFault,
            StreamEnd::WriteFault => Status::WriteFault,
            StreamEnd::Broken { kind, place } => Status::Broken { kind, place },
            StreamEnd::OutOfMemory => Status::OutOfMemory,
            StreamEnd::TooLong => Status::TooLong,
        }
    }
}

impl From<MuxEnd> for Status {
    ghost use Rattle.mmt_cli.specs.Statuses.{status_of_mux};

    ghost from_gives = { λ end status. status ≡ status_of_mux end };

    fn from(end: MuxEnd) -> Status {
        match end {
            MuxEnd::Refused { reason, place } => Status::PlanRefused { reason, place },
            MuxEnd::NotAdmitted(refusal) => Status::NotAdmitted { refusal },
            MuxEnd::ReadFault => Status::ReadFault,
            MuxEnd::WriteFault => Status::WriteFault,
            MuxEnd::OutOfMemory => Status::OutOfMemory,
        }
    }
}

impl From<PaceEnd> for Status {
    ghost use Rattle.mmt_cli.specs.Statuses.{status_of_pace_end};

    ghost from_gives = { λ end status. status ≡ status_of_pace_end end };

    fn from(end: PaceEnd) -> Status {
        match end {
            PaceEnd::NotPaced {
                from,
                to,
                jobs,
                slots,
            } => Status::NotPaced {
                from,
                to,
                jobs,
                slots,
            },
            PaceEnd::Ended(end) => Status::from(end),
        }
    }
}

impl From<Halt> for Status {
    ghost use Rattle.mmt_cli.specs.Statuses.{status_of_halt};

    ghost from_gives = { λ halt status. status ≡ status_of_halt halt };

    fn from(halt: Halt) -> Status {
        match halt {
            Halt::WriteFault => Status::WriteFault,
            Halt::OutOfMemory => Status::OutOfMemory,
        }
    }
}

impl Status {
    ghost use Rattle.mmt_cli.specs.Statuses.{number_of};

    /// The number with which the program ends.
    pub fn number(&self) -> u8
        ensures { result ≡ number_of self.now }
    {
        match self {
            Status::Done => 0,
            Status::Usage { .. } => 1,
            Status::ReadFault => 2,
            Status::WriteFault => 3,
            Status::Broken { .. } => 4,
            Status::PlanRefused { .. } => 5,
            Status::NotAdmitted { .. } => 6,
            Status::OutOfMemory => 7,
            Status::TooLong => 8,
            Status::NotPaced { .. } => 9,
        }
    }
}

/// The text that the program prints.
impl fmt::Display for Status {
    fn fmt<W: fmt::Write>(&self, f: &mut fmt::Formatter<W>) -> fmt::Result {
        match self {
            Status::Done => write!(f, "done"),
            Status::Usage { index } => write!(f, "usage: word {index}"),
            Status::ReadFault => write!(f, "read fault"),
            Status::WriteFault => write!(f, "write fault"),
            Status::Broken {
                kind: BrokenKind::Cut,
                place,
            } => write!(f, "broken: cut at {place}"),
            Status::Broken {
                kind: BrokenKind::Sync,
                place,
            } => write!(f, "broken: sync at {place}"),
            Status::PlanRefused { reason, place } => write!(f, "plan: {reason} at {place}"),
            Status::NotAdmitted { refusal } => write!(f, "{refusal}"),
            Status::OutOfMemory => write!(f, "out of memory"),
            Status::TooLong => write!(f, "too long"),
            Status::NotPaced {
                from,
                to,
                jobs,
                slots,
            } => write!(f, "not paced: {from} {to} {jobs} {slots}"),
        }
    }
}

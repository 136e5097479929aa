//! Why a stream ended before all of it was written.

use mmt_base::OutOfMemory;
use thiserror::Error;

/// Why a stream ended before all of it was written. It shows as the text of the status with which a command
/// then ends.
#[derive(Clone, Copy, Debug, PartialEq, Eq, Error)]
pub enum SendEnd {
    /// A read of a file failed.
    #[error("read fault")]
    ReadFault,
    /// The file of a unit is absent, or ends before the unit does: the unit's number over the whole cast, its
    /// length in bytes, and how many of them the file has.
    #[error("unit {unit} has {length} bytes, its file has {got}")]
    UnitShort { unit: u32, length: u32, got: u32 },
    /// A write failed.
    #[error("write fault")]
    WriteFault,
    /// There is no memory.
    #[error("out of memory")]
    OutOfMemory,
}

impl From<OutOfMemory> for SendEnd {
    ghost use Rattle.std.specs.Prelude.{◌≡◌};
    ghost use Rattle.mmt_send.specs.declared.ends.SendEnd.TheVariants as ends;

    ghost from_gives = { λ _ e. e ≡ ends.OutOfMemory };

    fn from(_memory: OutOfMemory) -> SendEnd {
        SendEnd::OutOfMemory
    }
}

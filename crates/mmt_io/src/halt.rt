//! What halts a call that puts something out of a port and takes memory.

ghost use Rattle.std.specs.Prelude.{◌≡◌};
ghost use Rattle.mmt_io.specs.declared.halt.Halt.TheVariants as halts;

use crate::port::Fault;
use mmt_base::OutOfMemory;
use std::alloc::AllocError;

/// Why a call that puts something out of a port, and takes memory, did not come to its end.
#[derive(Clone, Copy, Debug, PartialEq, Eq)]
pub enum Halt {
    /// A write or a note failed.
    WriteFault,
    /// There was no memory.
    OutOfMemory,
}

impl From<Fault> for Halt {
    ghost from_gives = { λ _ halt. halt ≡ halts.WriteFault };

    fn from(_fault: Fault) -> Halt {
        Halt::WriteFault
    }
}

impl From<OutOfMemory> for Halt {
    ghost from_gives = { λ _ halt. halt ≡ halts.OutOfMemory };

    fn from(_refusal: OutOfMemory) -> Halt {
        Halt::OutOfMemory
    }
}

impl From<AllocError> for Halt {
    ghost from_gives = { λ _ halt. halt ≡ halts.OutOfMemory };

    fn from(_refusal: AllocError) -> Halt {
        Halt::OutOfMemory
    }
}

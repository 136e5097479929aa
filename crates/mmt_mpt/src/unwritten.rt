//! Why an MPT stays unwritten.

use std::alloc::AllocError;

/// Why an MPT stays unwritten.
#[derive(Clone, Copy, Debug, PartialEq, Eq)]
pub enum Unwritten {
    /// The bytes after the table's length field would be so many, more than the 65,535 that the field
    /// can say.
    TooLong(u64),
    /// There was no memory for the table's bytes.
    OutOfMemory,
}

impl From<AllocError> for Unwritten {
    ghost use Rattle.std.specs.Prelude.{◌≡◌};
    ghost use Rattle.mmt_mpt.specs.declared.unwritten.Unwritten.TheVariants.{OutOfMemory};

    ghost from_gives = { λ _ e. e ≡ OutOfMemory };

    fn from(_e: AllocError) -> Unwritten {
        Unwritten::OutOfMemory
    }
}

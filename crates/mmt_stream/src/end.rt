//! How the reading of a stream ends.
ghost use Rattle.std.specs.Prelude.{◌≡◌};
ghost use Rattle.mmt_stream.specs.Driving.{halted};

use mmt_io::Halt;

/// What breaks a stream.
#[derive(Clone, Copy, Debug, PartialEq, Eq)]
pub enum BrokenKind {
    /// The input ends within a packet.
    Cut,
    /// A byte where a packet should begin isn't 0x7F.
    Sync,
}

/// How the reading of a stream ends.
#[derive(Clone, Copy, Debug, PartialEq, Eq)]
pub enum StreamEnd {
    /// The input was read to its end, and is whole packets.
    Done,
    /// A read failed.
    ReadFault,
    /// A write or a note failed.
    WriteFault,
    /// What follows the whole packets is none. The place is the number of bytes before it.
    Broken { kind: BrokenKind, place: u64 },
    /// There was no memory.
    OutOfMemory,
    /// The input has more bytes than the limit.
    TooLong,
}

/// How the reading ends that is halted so.
pub fn end_of(halt: Halt) -> StreamEnd
    ensures { result ≡ halted halt }
{
    match halt {
        Halt::WriteFault => StreamEnd::WriteFault,
        Halt::OutOfMemory => StreamEnd::OutOfMemory,
    }
}

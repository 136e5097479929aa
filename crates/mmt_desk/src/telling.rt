//! The line of a trial.

ghost use Rattle.std.specs.Prelude.{◌≡◌, IsTrue, IsErrOf, IfOk, string_bytes};
ghost use Rattle.mmt_desk.specs.Lines.{PutsLine, line_of};
ghost use Rattle.mmt_io.specs.Port.{OnlySends, Rose};

use mmt_io::{Halt, Port};
use mmt_trial::Tried;
use std::alloc::{AllocError, Global};

/// The line of these numbers.
fn line(alloc: Global, tried: &Tried) -> Result<String, AllocError>
    ensures { IfOk result (λ line. string_bytes line ≡ line_of tried.now) }
{
    let Tried {
        sent,
        delivered,
        units,
        expected,
        bytes,
        peak,
        bound,
        late,
        repeat,
        full,
    } = *tried;
    format!(in alloc;
        "sent {sent} delivered {delivered} units {units} expected {expected} bytes {bytes} peak {peak} bound {bound} late {late} repeat {repeat} full {full}\n"
    )
}

/// Writes the numbers of a trial as one line, by one write.
///
/// # Errors
///
/// The write failed, and a prefix of the line was written; or there was no memory, and nothing was.
pub fn tell<P: Port>(alloc: Global, port: &mut P, tried: &Tried) -> Result<(), Halt>
    ensures sends { OnlySends P.tells P.left P.read_faults P.write_faults port.old port.new }
    ensures cause { IsErrOf result Halt.WriteFault → Rose (P.write_faults port.old) (P.write_faults port.new) }
    ensures put { IsTrue (P.tells port.old) → PutsLine (P.history port.old) (P.history port.new) (line_of tried.now) result }
{
    let line = match line(alloc, tried) {
        Ok(line) => line,
        Err(_) => return Err(Halt::OutOfMemory),
    };
    match port.write(line.as_bytes()) {
        Ok(()) => Ok(()),
        Err(_) => Err(Halt::WriteFault),
    }
}

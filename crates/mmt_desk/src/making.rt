//! The trial of what is made from a number.

ghost use Rattle.std.specs.Prelude.{◌≡◌, IsTrue, IsErrOf, IfOk, OnOk};
ghost use Rattle.mmt_desk.specs.Lines.{PutsLine, line_of};
ghost use Rattle.mmt_desk.specs.Numbers.{made_tried};
ghost use Rattle.mmt_io.specs.Port.{OnlySends, Rose};
ghost use Rattle.mmt_trial.specs.Trials.{KeepsBound};

use crate::telling::tell;
use crate::unfailing::Unfailing;
use mmt_admit::admit;
use mmt_base::OutOfMemory;
use mmt_io::{Halt, Port};
use mmt_made::{Made, cast_of_made, made};
use mmt_trial::{TrialEnd, Tried, trial};
use std::alloc::Global;

/// The numbers of the trial of what is made from a number.
///
/// # Errors
///
/// There is no memory. The programme that is made is not refused, its cast is admitted, and no read of its files fails.
fn numbers(alloc: Global, seed: u16) -> Result<Tried, OutOfMemory>
    ensures tried { IfOk result (λ t. t ≡ made_tried seed) }
    ensures bound { IfOk result KeepsBound }
{
    let Made {
        programme,
        shelf,
        deliveries,
    } = match made(alloc, seed) {
        Ok(made) => made,
        Err(refused) => return Err(refused),
    };
    let cast = match cast_of_made(alloc, &programme) {
        Ok(cast) => cast,
        Err(refused) => return Err(refused),
    };
    let admitted = match admit(&cast) {
        Ok(admitted) => admitted,
        Err(_) => unreachable!(),
    };
    let mut shelf = Unfailing::new(shelf);
    match trial(alloc, &programme, &admitted, &mut shelf, &deliveries) {
        Ok(tried) => Ok(tried),
        Err(TrialEnd::OutOfMemory) => Err(OutOfMemory),
        Err(TrialEnd::ReadFault) => unreachable!(),
        Err(TrialEnd::UnitShort { .. }) => unreachable!(),
    }
}

/// Makes a programme, its files and a delivery from a number, tries the delivery, and writes its numbers as one line.
///
/// # Errors
///
/// The write failed, and a prefix of the line was written; or there was no memory, and nothing was.
pub fn make<P: Port>(alloc: Global, seed: u16, port: &mut P) -> Result<(), Halt>
    ensures sends { OnlySends P.tells P.left P.read_faults P.write_faults port.old port.new }
    ensures cause { IsErrOf result Halt.WriteFault → Rose (P.write_faults port.old) (P.write_faults port.new) }
    // The line has the numbers of the definition. A prefix of it was written where the write failed, and nothing out of memory.
    ensures put { IsTrue (P.tells port.old) → PutsLine (P.history port.old) (P.history port.new) (line_of (made_tried seed)) result }
    // All expected units came out, and the buffer held them.
    ensures bound { OnOk result (KeepsBound (made_tried seed)) }
{
    let tried = match numbers(alloc, seed) {
        Ok(tried) => tried,
        Err(_) => return Err(Halt::OutOfMemory),
    };
    tell(alloc, port, &tried)
}

//! The command `trial`.

ghost use Rattle.std.specs.Prelude.{◌≡◌, IsTrue, IsErrOf};
ghost use Rattle.mmt_desk.specs.Answers.{Tells};
ghost use Rattle.mmt_io.specs.Port.{OnlySends, Rose};
ghost use Rattle.mmt_plan.specs.Plan.{Stays};

use crate::telling::tell;
use crate::trying::try_list;
use mmt_io::{Halt, Port, Shelf};
use mmt_mux::MuxEnd;
use std::alloc::Global;

/// Sends the cast of the plan of a name through the list of deliveries of a name, and writes the numbers as one line, by one
/// write. The plan, the cast, the files, admission and the list are checked in this order.
///
/// # Errors
///
/// The first of these that is refused; then nothing was written. `ReadFault` only where the shelf's count of faults rose, and
/// then nothing was written. `WriteFault` only where the port's count of writes that failed did; then a prefix of the line was
/// written. `OutOfMemory` where there was no memory; then nothing was written.
pub fn run_trial<H: Shelf, P: Port>(
    alloc: Global,
    plan: &str,
    list: &str,
    shelf: &mut H,
    port: &mut P,
) -> Result<(), MuxEnd>
    ensures shelf { Stays (H.tells shelf.old) (H.tells shelf.new) (H.file shelf.old) (H.file shelf.new)
        (H.faults shelf.old) (H.faults shelf.new) }
    ensures sends { OnlySends P.tells P.left P.read_faults P.write_faults port.old port.new }
    ensures read_fault { IsErrOf result MuxEnd.ReadFault → Rose (H.faults shelf.old) (H.faults shelf.new) }
    ensures write_fault { IsErrOf result MuxEnd.WriteFault → Rose (P.write_faults port.old) (P.write_faults port.new) }
    ensures tells { IsTrue (H.tells shelf.old) → IsTrue (P.tells port.old) →
        Tells (H.file shelf.old) plan.now list.now result (P.history port.old) (P.history port.new) }
{
    let tried = match try_list(alloc, plan, list, shelf) {
        Ok(tried) => tried,
        Err(end) => return Err(end),
    };
    match tell(alloc, port, &tried) {
        Ok(()) => Ok(()),
        Err(Halt::WriteFault) => Err(MuxEnd::WriteFault),
        Err(Halt::OutOfMemory) => Err(MuxEnd::OutOfMemory),
    }
}

//! The list of deliveries of a name.

ghost use Rattle.std.specs.Prelude.{◌≡◌, ◌≤◌, length, IsTrue, IsFalse, IsErrOf, IfOk};
ghost use Rattle.mmt_desk.specs.Lists.{AreBelow, IsListAnswer, line_place};
ghost use Rattle.mmt_io.specs.Port.{Rose};
ghost use Rattle.mmt_plan.specs.Plan.{Stays};
ghost use Rattle.mmt_mux.specs.declared.ends.MuxEnd.TheVariants as ends;

use crate::loading::load;
use mmt_channel::{ListEnd, read_deliveries};
use mmt_io::Shelf;
use mmt_model::List;
use mmt_mux::MuxEnd;
use mmt_plan::{PlanEnd, PlanPart, PlanPlace, Reason};
use std::alloc::Global;

/// A list that is refused at a line.
fn refused(reason: Reason, line: u32) -> MuxEnd
    ensures { result ≡ ends.Refused reason (line_place line) }
{
    MuxEnd::Refused {
        reason,
        place: PlanPlace {
            part: PlanPart::Line,
            a: line,
            b: 0,
            c: 0,
            field: 0,
        },
    }
}

/// Whether a file is not there, by the reason why it is not read.
fn is_absent(reason: Reason) -> bool
    ensures absent { IsTrue result → reason ≡ Reason.PlanAbsent }
    ensures other { IsFalse result → reason ≡ Reason.PlanAbsent → ⊥ }
{
    match reason {
        Reason::PlanAbsent => true,
        _ => false,
    }
}

/// Reads the list of deliveries of a name: places of a cast of `sent` packets.
pub fn read_list<H: Shelf>(
    alloc: Global,
    shelf: &mut H,
    name: &str,
    sent: u32,
) -> Result<List<u32>, MuxEnd>
    ensures shelf { Stays (H.tells shelf.old) (H.tells shelf.new) (H.file shelf.old) (H.file shelf.new)
        (H.faults shelf.old) (H.faults shelf.new) }
    ensures fault { IsErrOf result MuxEnd.ReadFault → Rose (H.faults shelf.old) (H.faults shelf.new) }
    ensures never { IsErrOf result MuxEnd.WriteFault → ⊥ }
    ensures places { IfOk result (λ list. AreBelow sent list) }
    ensures few { IfOk result (λ list. length list ≤ 16777216) }
    ensures answer { IsTrue (H.tells shelf.old) → IsListAnswer (H.file shelf.old name.now) sent result }
{
    let bytes = match load(alloc, shelf, name) {
        Ok(bytes) => bytes,
        Err(PlanEnd::Refused { reason, .. }) => {
            if is_absent(reason) {
                return Err(refused(Reason::ListAbsent, 0));
            }
            return Err(refused(Reason::ListLong, 0));
        }
        Err(PlanEnd::ReadFault) => return Err(MuxEnd::ReadFault),
        Err(PlanEnd::OutOfMemory) => return Err(MuxEnd::OutOfMemory),
    };
    match read_deliveries(alloc, &bytes, sent) {
        Ok(list) => Ok(list),
        Err(ListEnd::Line { line }) => Err(refused(Reason::ListLine, line)),
        Err(ListEnd::OutOfMemory) => Err(MuxEnd::OutOfMemory),
    }
}

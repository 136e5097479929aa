//! The bytes of a file that is read whole.

ghost use Rattle.std.specs.Prelude.{◌≡◌, ◌<◌, ◌≤◌, length, IfOk, IsErrOf};
ghost use Rattle.mmt_io.specs.Port.{Rose};
ghost use Rattle.mmt_plan.specs.Plan.{bytes_of, top_place, IsReadOf, Stays};
ghost use Rattle.mmt_plan.specs.Reading.{ok_map};

use mmt_io::{Shelf, ShelfFault};
use mmt_plan::{PlanEnd, PlanPart, PlanPlace, Reason};
use std::alloc::Global;

// The most bytes of a plan, and of a list of deliveries.
const LONGEST: usize = 16_777_216;

// How many bytes a read asks for.
const PIECE: usize = 65_536;

// The end that says that a plan is refused as a whole.
fn refused(reason: Reason) -> PlanEnd
    ensures { result ≡ PlanEnd.Refused reason top_place }
{
    PlanEnd::Refused {
        reason,
        place: PlanPlace {
            part: PlanPart::Top,
            a: 0,
            b: 0,
            c: 0,
            field: 0,
        },
    }
}

// Reads a file piece by piece, until it ends or is too long.
fn load_by<H: Shelf>(
    alloc: Global,
    shelf: &mut H,
    name: &str,
    piece: &mut [u8],
) -> Result<Vec<u8>, PlanEnd>
    requires { 0 < length piece.old }
    ensures shelf { Stays (H.tells shelf.old) (H.tells shelf.new) (H.file shelf.old) (H.file shelf.new)
        (H.faults shelf.old) (H.faults shelf.new) }
    ensures fault { IsErrOf result PlanEnd.ReadFault → Rose (H.faults shelf.old) (H.faults shelf.new) }
    ensures bytes { IsReadOf bytes_of (H.tells shelf.old) (H.file shelf.old name.now) (ok_map (λ v. v.items) result) }
    ensures size { IfOk result (λ v. length v.items ≤ 16777216) }
{
    let mut bytes = Vec::new(alloc);
    'pieces: while bytes.len() <= LONGEST {
        // One byte more than the most shows that a file is too long.
        let at = bytes.len();
        let room = piece.len().min(LONGEST + 1 - at);
        let part = &mut piece[..room];
        let count = match shelf.read_at(name, at as u64, part) {
            Ok(count) => count,
            Err(ShelfFault::Absent) => return Err(refused(Reason::PlanAbsent)),
            Err(ShelfFault::Failed) => return Err(PlanEnd::ReadFault),
        };
        if count == 0 {
            return Ok(bytes);
        }
        match bytes.extend_from_slice(&part[..count]) {
            Ok(()) => {}
            Err(_) => return Err(PlanEnd::OutOfMemory),
        }
    }
    Err(refused(Reason::PlanLong))
}

/// The bytes of the file of a name, told as those of a plan are. It takes the memory of a buffer and of these bytes.
pub fn load<H: Shelf>(alloc: Global, shelf: &mut H, name: &str) -> Result<Vec<u8>, PlanEnd>
    ensures shelf { Stays (H.tells shelf.old) (H.tells shelf.new) (H.file shelf.old) (H.file shelf.new)
        (H.faults shelf.old) (H.faults shelf.new) }
    ensures fault { IsErrOf result PlanEnd.ReadFault → Rose (H.faults shelf.old) (H.faults shelf.new) }
    ensures bytes { IsReadOf bytes_of (H.tells shelf.old) (H.file shelf.old name.now) (ok_map (λ v. v.items) result) }
    ensures size { IfOk result (λ v. length v.items ≤ 16777216) }
{
    let mut piece = match vec![in alloc; 0u8; PIECE] {
        Ok(piece) => piece,
        Err(_) => return Err(PlanEnd::OutOfMemory),
    };
    load_by(alloc, shelf, name, &mut piece)
}

//! The programme of a plan.

ghost use Rattle.std.specs.Prelude.{◌≡◌, Err, None, IsTrue, IfErr, IfOk, IsErrOf};
ghost use Rattle.mmt_cast.specs.Casting.{cast_of as cast_by};
ghost use Rattle.mmt_cast.specs.Refusing.{refusal};
ghost use Rattle.mmt_io.specs.Port.{Rose};
ghost use Rattle.mmt_model.specs.Right.{IsRight};
ghost use Rattle.mmt_mux.specs.Ending.{IsMuxAnswer, IsRead};
ghost use Rattle.mmt_mux.specs.Sendable.{sendable};
ghost use Rattle.mmt_plan.specs.Plan.{Stays};

use mmt_casting::cast_of;
use mmt_io::Shelf;
use mmt_model::{Cast, Programme};
use mmt_mux::MuxEnd;
use mmt_plan::{check_files, read_plan};
use std::alloc::Global;

/// The programme of a plan with its cast, after its files were looked at.
pub fn read<H: Shelf>(alloc: Global, name: &str, shelf: &mut H) -> Result<(Programme, Cast), MuxEnd>
    ensures shelf { Stays (H.tells shelf.old) (H.tells shelf.new) (H.file shelf.old) (H.file shelf.new)
        (H.faults shelf.old) (H.faults shelf.new) }
    ensures fault { IsErrOf result MuxEnd.ReadFault → Rose (H.faults shelf.old) (H.faults shelf.new) }
    ensures never { IsErrOf result MuxEnd.WriteFault → ⊥ }
    ensures right { IfOk result (λ r. IsRight r.0) }
    ensures cast { IfOk result (λ r. r.1 ≡ cast_by r.0) }
    ensures none { IfOk result (λ r. refusal r.0 ≡ None) }
    ensures read { IsTrue (H.tells shelf.old) → IfOk result (λ r. IsRead (H.file shelf.old) name.now r.0) }
    ensures refused { IsTrue (H.tells shelf.old) → IfErr result (λ end. IsMuxAnswer (sendable (H.file shelf.old) name.now) (Err end)) }
{
    let programme = read_plan(alloc, shelf, name)?;
    let cast = cast_of(alloc, &programme)?;
    check_files(shelf, &programme)?;
    Ok((programme, cast))
}

//! The checks of a plan, one after the other, and the stream.

ghost use Rattle.std.specs.Prelude.{◌≡◌, ◌≤◌, ℕ, None, Some, Ok, IsTrue, IfErr, IfOk, OnOk, IsErrOf};
ghost use Rattle.mmt_admit.specs.Faults.{IsReadable};
ghost use Rattle.mmt_cast.specs.Casting.{cast_of as cast_by};
ghost use Rattle.mmt_cast.specs.Refusing.{refusal};
ghost use Rattle.mmt_io.specs.Port.{Rose};
ghost use Rattle.mmt_model.specs.Admission.{fault};
ghost use Rattle.mmt_model.specs.Right.{IsRight};
ghost use Rattle.mmt_mux.specs.Casts.{IsCastAnswer, bytes_if};
ghost use Rattle.mmt_mux.specs.Ending.{IsMuxAnswer, IsRead, Muxes};
ghost use Rattle.mmt_mux.specs.Pacing.{IsNotCast, IsPaceAnswer, PaceSends, castable};
ghost use Rattle.mmt_mux.specs.Sendable.{sendable, sent_bytes};
ghost use Rattle.mmt_pace.specs.Recast.{IsItsCast};
ghost use Rattle.mmt_plan.specs.Files.{files_of};
ghost use Rattle.mmt_plan.specs.Plan.{Stays};
ghost use Rattle.mmt_send.specs.Files.{files_on};
ghost use Rattle.mmt_send.specs.Writes.{IsUnread};
ghost use Rattle.mmt_sent.specs.Stream.{stream};
ghost use Rattle.mmt_tlv.specs.Framing.{joined};

use crate::ends::{MuxEnd, PaceEnd, end_of_send};
use mmt_admit::admit;
use mmt_casting::cast_of;
use mmt_io::{Port, Shelf};
use mmt_model::{Cast, Programme};
use mmt_pace::{casts_begin_in_time, casts_can_be_paced, pace_cast};
use mmt_plan::{check_files, read_plan};
use mmt_send::send;
use std::alloc::Global;

/// The programme of a plan with its cast, after its files were looked at.
fn read<H: Shelf>(alloc: Global, name: &str, shelf: &mut H) -> Result<(Programme, Cast), MuxEnd>
    ensures shelf { Stays (H.tells shelf.old) (H.tells shelf.new) (H.file shelf.old) (H.file shelf.new) (H.faults shelf.old) (H.faults shelf.new) }
    ensures fault { IsErrOf result MuxEnd.ReadFault → Rose (H.faults shelf.old) (H.faults shelf.new) }
    ensures never { IsErrOf result MuxEnd.WriteFault → ⊥ }
    ensures right { IfOk result (λ r. IsRight r.0) }
    ensures cast { IfOk result (λ r. r.1 ≡ cast_by r.0) }
    ensures none { IfOk result (λ r. refusal r.0 ≡ None) }
    ensures read { IsTrue (H.tells shelf.old) → IfOk result (λ r. IsRead (H.file shelf.old) name.now r.0) }
    ensures refused { IsTrue (H.tells shelf.old) → IfErr result (λ end. IsNotCast (castable (H.file shelf.old) name.now) end) }
{
    let programme = read_plan(alloc, shelf, name)?;
    let cast = cast_of(alloc, &programme)?;
    check_files(shelf, &programme)?;
    Ok((programme, cast))
}

/// Asks for admission of a cast of a programme, its own or one at other ticks, and writes its stream, a TLV packet by each
/// write. Nothing is written before admission.
///
/// # Errors
///
/// `NotAdmitted` with the first fault of the cast; `ReadFault`, `WriteFault` and `OutOfMemory`, and then a prefix of the
/// stream was written. `Refused` only where a file became shorter after it was checked.
fn send_cast<H: Shelf, P: Port>(
    alloc: Global,
    programme: &Programme,
    cast: &Cast,
    shelf: &mut H,
    port: &mut P,
) -> Result<(), MuxEnd>
    requires right { IsRight programme.now }
    requires none { refusal programme.now ≡ None }
    requires its { IsItsCast programme.now cast.now }
    requires readable { IsReadable cast.now }
    ensures shelf { Stays (H.tells shelf.old) (H.tells shelf.new) (H.file shelf.old) (H.file shelf.new) (H.faults shelf.old) (H.faults shelf.new) }
    ensures port { IsUnread (P.tells port.old) (P.tells port.new) (P.left port.old) (P.left port.new) (P.read_faults port.old)
        (P.read_faults port.new) (P.write_faults port.old) (P.write_faults port.new) }
    ensures read_fault { IsErrOf result MuxEnd.ReadFault → Rose (H.faults shelf.old) (H.faults shelf.new) }
    ensures write_fault { IsErrOf result MuxEnd.WriteFault → Rose (P.write_faults port.old) (P.write_faults port.new) }
    ensures answer { IsTrue (H.tells shelf.old) → files_of (H.file shelf.old) programme.now ≡ Ok tt → IsCastAnswer (fault cast.now) result }
    ensures sends { IsTrue (H.tells shelf.old) → IsTrue (P.tells port.old) → Muxes (bytes_if (fault cast.now)
        (joined (stream programme.now cast.now (files_on (H.file shelf.old) programme.now)))) result (P.history port.old) (P.history port.new) }
{
    let admitted = match admit(cast) {
        Ok(admitted) => admitted,
        Err(refusal) => return Err(MuxEnd::NotAdmitted(refusal)),
    };
    match send(alloc, programme, &admitted, shelf, port) {
        Ok(()) => Ok(()),
        Err(end) => Err(end_of_send(cast, end)),
    }
}

/// Reads the plan of a name and its files, and writes the stream of its programme, a TLV packet by each write. The plan,
/// the cast, the files and admission are checked in this order, and nothing is written before all of them pass. It takes
/// the memory of the plan, of the programme and of its cast.
///
/// # Errors
///
/// `Refused` and `NotAdmitted` with the first reason; then nothing was written. `ReadFault` only where the shelf's count
/// of faults rose, and `WriteFault` only where the port's count of writes that failed did; then a prefix of the stream was
/// written.
pub fn mux<H: Shelf, P: Port>(
    alloc: Global,
    name: &str,
    shelf: &mut H,
    port: &mut P,
) -> Result<(), MuxEnd>
    ensures shelf { Stays (H.tells shelf.old) (H.tells shelf.new) (H.file shelf.old) (H.file shelf.new) (H.faults shelf.old) (H.faults shelf.new) }
    ensures tells { P.tells port.new ≡ P.tells port.old }
    ensures left { IsTrue (P.tells port.old) → P.left port.new ≡ P.left port.old }
    ensures reads { P.read_faults port.new ≡ P.read_faults port.old }
    ensures later { P.write_faults port.old ≤ P.write_faults port.new }
    ensures read_fault { IsErrOf result MuxEnd.ReadFault → Rose (H.faults shelf.old) (H.faults shelf.new) }
    ensures write_fault { IsErrOf result MuxEnd.WriteFault → Rose (P.write_faults port.old) (P.write_faults port.new) }
    ensures answer { IsTrue (H.tells shelf.old) → IsMuxAnswer (sendable (H.file shelf.old) name.now) result }
    ensures muxes { IsTrue (H.tells shelf.old) → IsTrue (P.tells port.old) →
        Muxes (sent_bytes (H.file shelf.old) (sendable (H.file shelf.old) name.now)) result (P.history port.old) (P.history port.new) }
{
    let (programme, cast) = match read(alloc, name, shelf) {
        Ok(both) => both,
        Err(end) => return Err(end),
    };
    send_cast(alloc, &programme, &cast, shelf, port)
}

/// Reads the plan of a name and its files, and writes the stream of its programme over the cast that is paced over slots
/// `step` ticks apart (of 1/65536 second), a TLV packet by each write. The plan, the cast and the files are checked in this
/// order, then the cast is paced, and then it is admitted; nothing is written before all of this passes. It takes the
/// memory of the plan, of the programme, of its cast and of the paced cast.
///
/// # Errors
///
/// `NotPaced` with an interval that has more packets than slots; and those of `mux`, with the paced cast in place of the
/// cast.
pub fn pace<H: Shelf, P: Port>(
    alloc: Global,
    name: &str,
    step: u32,
    shelf: &mut H,
    port: &mut P,
) -> Result<(), PaceEnd>
    requires { 1 ≤ step }
    ensures shelf { Stays (H.tells shelf.old) (H.tells shelf.new) (H.file shelf.old) (H.file shelf.new) (H.faults shelf.old) (H.faults shelf.new) }
    ensures port { IsUnread (P.tells port.old) (P.tells port.new) (P.left port.old) (P.left port.new) (P.read_faults port.old)
        (P.read_faults port.new) (P.write_faults port.old) (P.write_faults port.new) }
    ensures read_fault { IsErrOf result (PaceEnd.Ended MuxEnd.ReadFault) → Rose (H.faults shelf.old) (H.faults shelf.new) }
    ensures write_fault { IsErrOf result (PaceEnd.Ended MuxEnd.WriteFault) → Rose (P.write_faults port.old) (P.write_faults port.new) }
    ensures answer { IsTrue (H.tells shelf.old) → IsPaceAnswer (H.file shelf.old) name.now step result }
    ensures sends { IsTrue (H.tells shelf.old) → IsTrue (P.tells port.old) →
        PaceSends (H.file shelf.old) name.now step result (P.history port.old) (P.history port.new) }
{
    let (programme, cast) = match read(alloc, name, shelf) {
        Ok(both) => both,
        Err(end) => return Err(PaceEnd::Ended(end)),
    };
    casts_can_be_paced();
    casts_begin_in_time();
    let paced = match pace_cast(alloc, &cast, step) {
        Ok(paced) => paced,
        Err(end) => return Err(PaceEnd::from(end)),
    };
    match send_cast(alloc, &programme, &paced, shelf, port) {
        Ok(()) => Ok(()),
        Err(end) => Err(PaceEnd::Ended(end)),
    }
}

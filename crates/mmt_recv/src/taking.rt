//! What is done with a heard packet from the one that tunes on, once the clock was set and the
//! packets that are out of the window were let go.

ghost use Rattle.std.specs.Prelude.{◌≡◌, ◌<◌, ◌≤◌, ◌^◌, ◌+◌, length, map, IsTrue, IsErrOf, IfOk, OnOk};
ghost use Rattle.mmt_io.specs.Port.{OnlySends, Rose};
ghost use Rattle.mmt_io.specs.Output.{Notes};
ghost use Rattle.mmt_recv.specs.Noting.{at_place, lines_of};
ghost use Rattle.mmt_recv.specs.Taking.{answered, reason_note, reason_outcome};

use mmt_io::Port;
use mmt_naming::By;
use mmt_output::{Note, Untold, tell};
use mmt_pool::NotStored;

/// What became of a heard packet.
#[derive(Clone, Copy, Debug, PartialEq, Eq)]
pub(crate) enum Outcome {
    /// Its payload is not opened.
    Unopened,
    /// It came too late.
    Late,
    /// It is kept already.
    Repeat,
    /// There is no room for it.
    Full,
    /// It is kept now.
    Stored,
}

/// Notes why a packet is not stored.
pub(crate) fn leave_out<P: Port>(
    port: &mut P,
    by: &By,
    reason: NotStored,
) -> Result<Outcome, Untold>
    ensures sends { OnlySends P.tells P.left P.read_faults P.write_faults port.old port.new }
    ensures cause { IsErrOf result Untold.WriteFault → Rose (P.write_faults port.old) (P.write_faults port.new) }
    ensures put { Notes P.tells P.history port.old port.new
        (lines_of (at_place by.now.place (reason_note reason))) result }
    ensures outcome { IfOk result (λ o. answered o ≡ reason_outcome reason) }
    ensures memory { reason ≡ NotStored.OutOfMemory → IsErrOf result Untold.OutOfMemory }
{
    let (note, outcome) = match reason {
        NotStored::Late { clock } => (Note::Late { clock }, Outcome::Late),
        NotStored::Repeat => (Note::Repeat, Outcome::Repeat),
        NotStored::Full { held, length } => (Note::Full { held, length }, Outcome::Full),
        NotStored::OutOfMemory => return Err(Untold::OutOfMemory),
    };
    match tell(by.alloc, port, by.place, &note) {
        Ok(()) => Ok(outcome),
        Err(untold) => Err(untold),
    }
}

ghost use Rattle.std.specs.Prelude.{true, false, None, Ok};
ghost use Rattle.mmt_model.specs.Packets.{Payload};
ghost use Rattle.mmt_packet.specs.Spelling.{view as mmtp_of, Fits as MmtpFits};
ghost use Rattle.mmt_pool.specs.Holding.{held};
ghost use Rattle.mmt_mpu.specs.View.{view};
ghost use Rattle.mmt_runs.specs.Index.{begun_by};
ghost use Rattle.mmt_runs.specs.Reading.{heard, media_of};
ghost use Rattle.mmt_runs.specs.Told.{IsTold};
ghost use Rattle.mmt_recv.specs.Noting.{payload_place};
ghost use Rattle.mmt_recv.specs.Taking.{Takes, packet_at, rules_at, outcome_by, notes_taken};

use crate::keeping::keep;
use mmt_base::Refused;
use mmt_model::Part;
use mmt_mpu::{MpuPayload, read_mpu};
use mmt_packet::{Kind, Packet, header_length};
use mmt_pool::Pool;
use mmt_runs::Runs;
use mmt_times::Names;

// Whether units may begin in a packet with this payload: it has whole data units, or a first part.
fn may_begin(found: &MpuPayload<'_>) -> bool
    ensures { result ≡ false → begun_by (media_of (Ok (view found.now))) ≡ None }
{
    match found.head().part {
        Part::Whole => true,
        Part::First => true,
        Part::Middle => false,
        Part::Last => false,
    }
}

/// Takes a packet of kind MPU, of which the payload begins at a place.
fn take_media<P: Port>(
    port: &mut P,
    pool: &mut Pool,
    names: &Names,
    runs: &mut Runs,
    by: &By,
    at: u64,
    packet: &Packet<'_>,
) -> Result<Outcome, Untold>
    requires kind { packet.now.kind ≡ Kind.Mpu }
    requires told { IsTold runs.old pool.old.kept names.now }
    requires within { held pool.old.kept ≤ pool.old.peak }
    requires place { at ≡ payload_place (packet_at by.now.place packet.now) }
    requires small { at < 2 ^ 63 + 2 ^ 18 }
    requires short { length packet.now.payload.now < 2 ^ 16 }
    ensures sends { OnlySends P.tells P.left P.read_faults P.write_faults port.old port.new }
    ensures cause { IsErrOf result Untold.WriteFault → Rose (P.write_faults port.old) (P.write_faults port.new) }
    ensures told { OnOk result (IsTold runs.new pool.new.kept names.now) }
    ensures bound { pool.new.bound ≡ pool.old.bound }
    ensures takes { OnOk result
        (Takes (rules_at by.now pool.old.bound) pool.old names.now (packet_at by.now.place packet.now) pool.new names.now) }
    ensures outcome { IfOk result (λ o. answered o ≡
        outcome_by (rules_at by.now pool.old.bound) (map heard pool.old.kept) (packet_at by.now.place packet.now)) }
    ensures put { Notes P.tells P.history port.old port.new (lines_of (notes_taken
        (rules_at by.now pool.old.bound) (map heard pool.old.kept) names.now.entries (packet_at by.now.place packet.now))) result }
{
    match read_mpu(packet.payload) {
        Ok(found) => {
            let begins = may_begin(&found);
            match keep(pool, runs, names, by.clock, by.tuned.delay, packet, begins) {
                Ok(_) => Ok(Outcome::Stored),
                Err(reason) => leave_out(port, by, reason),
            }
        }
        Err(Refused { at: inner, why }) => {
            match tell(by.alloc, port, at + inner as u64, &Note::Mpu(why)) {
                Ok(()) => Ok(Outcome::Unopened),
                Err(untold) => Err(untold),
            }
        }
    }
}

use crate::saying::take_signals_of;
use mmt_sig::read_sig;

/// Takes a packet of kind signalling on packet id 0, of which the payload begins at a place.
fn take_signals<P: Port>(
    port: &mut P,
    pool: &mut Pool,
    names: &mut Names,
    runs: &mut Runs,
    message: &mut Vec<u8>,
    by: &By,
    at: u64,
    packet: &Packet<'_>,
) -> Result<Outcome, Untold>
    requires kind { packet.now.kind ≡ Kind.Signalling }
    requires id { packet.now.packet_id ≡ 0 }
    requires told { IsTold runs.old pool.old.kept names.old }
    requires within { held pool.old.kept ≤ pool.old.peak }
    requires place { at ≡ payload_place (packet_at by.now.place packet.now) }
    requires small { at < 2 ^ 63 + 2 ^ 18 }
    requires short { length packet.now.payload.now < 2 ^ 16 }
    ensures sends { OnlySends P.tells P.left P.read_faults P.write_faults port.old port.new }
    ensures cause { IsErrOf result Untold.WriteFault → Rose (P.write_faults port.old) (P.write_faults port.new) }
    ensures told { OnOk result (IsTold runs.new pool.new.kept names.new) }
    ensures room { length message.old.items ≤ 2 ^ 17 → length message.new.items ≤ 2 ^ 17 }
    ensures bound { pool.new.bound ≡ pool.old.bound }
    ensures takes { OnOk result
        (Takes (rules_at by.now pool.old.bound) pool.old names.old (packet_at by.now.place packet.now) pool.new names.new) }
    ensures outcome { IfOk result (λ o. answered o ≡
        outcome_by (rules_at by.now pool.old.bound) (map heard pool.old.kept) (packet_at by.now.place packet.now)) }
    ensures put { Notes P.tells P.history port.old port.new (lines_of (notes_taken
        (rules_at by.now pool.old.bound) (map heard pool.old.kept) names.old.entries (packet_at by.now.place packet.now))) result }
{
    let found = match read_sig(packet.payload) {
        Ok(found) => found,
        Err(Refused { at: inner, why }) => {
            return match tell(by.alloc, port, at + inner as u64, &Note::Signalling(why)) {
                Ok(()) => Ok(Outcome::Unopened),
                Err(untold) => Err(untold),
            };
        }
    };
    // No media unit begins in signalling.
    let span = match keep(pool, runs, names, by.clock, by.tuned.delay, packet, false) {
        Ok(span) => span,
        Err(reason) => return leave_out(port, by, reason),
    };
    let inner = By {
        alloc: by.alloc,
        place: at,
        timescale: by.timescale,
        tuned: by.tuned,
        clock: by.clock,
    };
    match take_signals_of(port, pool, names, runs, message, &inner, span, &found) {
        Ok(()) => Ok(Outcome::Stored),
        Err(untold) => Err(untold),
    }
}

/// Takes a heard packet by its kind: an MPU packet, or signalling on packet id 0; others are noted.
pub(crate) fn take_packet<P: Port>(
    port: &mut P,
    pool: &mut Pool,
    names: &mut Names,
    runs: &mut Runs,
    message: &mut Vec<u8>,
    by: &By,
    packet: &Packet<'_>,
) -> Result<Outcome, Untold>
    requires told { IsTold runs.old pool.old.kept names.old }
    requires within { held pool.old.kept ≤ pool.old.peak }
    requires fits { MmtpFits (mmtp_of packet.now) }
    requires place { by.now.place < 2 ^ 63 + 2 ^ 17 }
    requires short { length packet.now.payload.now < 2 ^ 16 }
    ensures sends { OnlySends P.tells P.left P.read_faults P.write_faults port.old port.new }
    ensures cause { IsErrOf result Untold.WriteFault → Rose (P.write_faults port.old) (P.write_faults port.new) }
    ensures told { OnOk result (IsTold runs.new pool.new.kept names.new) }
    ensures room { length message.old.items ≤ 2 ^ 17 → length message.new.items ≤ 2 ^ 17 }
    ensures bound { pool.new.bound ≡ pool.old.bound }
    ensures takes { OnOk result
        (Takes (rules_at by.now pool.old.bound) pool.old names.old (packet_at by.now.place packet.now) pool.new names.new) }
    ensures outcome { IfOk result (λ o. answered o ≡
        outcome_by (rules_at by.now pool.old.bound) (map heard pool.old.kept) (packet_at by.now.place packet.now)) }
    ensures put { Notes P.tells P.history port.old port.new (lines_of (notes_taken
        (rules_at by.now pool.old.bound) (map heard pool.old.kept) names.old.entries (packet_at by.now.place packet.now))) result }
{
    let at = by.place + header_length(packet) as u64;
    match packet.kind {
        Kind::Mpu => take_media(port, pool, names, runs, by, at, packet),
        Kind::Generic => pass_by(port, by, &Note::Generic),
        Kind::Signalling => {
            if packet.packet_id == 0 {
                take_signals(port, pool, names, runs, message, by, at, packet)
            } else {
                pass_by(port, by, &Note::Elsewhere)
            }
        }
    }
}

ghost use Rattle.mmt_output.specs.Notes.{note_text};

// Notes a packet that is not opened.
fn pass_by<P: Port>(port: &mut P, by: &By, note: &Note) -> Result<Outcome, Untold>
    ensures sends { OnlySends P.tells P.left P.read_faults P.write_faults port.old port.new }
    ensures cause { IsErrOf result Untold.WriteFault → Rose (P.write_faults port.old) (P.write_faults port.new) }
    ensures outcome { IfOk result (λ o. o ≡ Outcome.Unopened) }
    ensures put { Notes P.tells P.history port.old port.new (note_text by.now.place note.now) result }
{
    match tell(by.alloc, port, by.place, note) {
        Ok(()) => Ok(Outcome::Unopened),
        Err(untold) => Err(untold),
    }
}

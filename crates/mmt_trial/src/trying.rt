//! A trial of a delivery.

ghost use Rattle.std.specs.Prelude.{◌≡◌, ◌≤◌, ◌<◌, ◌^◌, ◌++◌, [], ℕ, List as Items, length, map, None, IsTrue, IfOk, IfErr, OnOk};
ghost use Rattle.mmt_cast.specs.Casting.{cast_of};
ghost use Rattle.mmt_cast.specs.Refusing.{refusal};
ghost use Rattle.mmt_model.specs.Received.{IsNear};
ghost use Rattle.mmt_model.specs.Right.{IsRight};
ghost use Rattle.mmt_model.specs.Survival.{AreOf};
ghost use Rattle.mmt_plan.specs.Plan.{Stays};
ghost use Rattle.mmt_send.specs.Files.{files_on};
ghost use Rattle.mmt_send.specs.Held.{AreWhole};
ghost use Rattle.mmt_sent.specs.Stream.{stream};
ghost use Rattle.mmt_tlv.specs.Framing.{spelling};
ghost use Rattle.mmt_trial.specs.Trials.{KeepsBound, TrialEnds, put_together, receiver_of, tried};

use crate::listening::listen;
use crate::recording::Recording;
use mmt_admit::Admitted;
use mmt_base::OutOfMemory;
use mmt_expect::expected_units;
use mmt_headline::programmes_received::{programmes_are_received, receivers_have_room};
use mmt_io::Shelf;
use mmt_model::{FlowChoice, List, Programme};
use mmt_recv::{Config, Summary};
use mmt_send::{SendEnd, send};
use std::alloc::Global;
use thiserror::Error;

/// What a trial of a delivery gave.
#[derive(Clone, Copy, Debug, PartialEq, Eq)]
pub struct Tried {
    /// How many packets the cast has.
    pub sent: u32,
    /// How many packets were delivered.
    pub delivered: u32,
    /// How many media units came out.
    pub units: u64,
    /// How many are expected, counted from the list of deliveries alone.
    pub expected: u64,
    /// How many bytes the units that came out have.
    pub bytes: u64,
    /// The most payload bytes that were kept at once.
    pub peak: u32,
    /// The size of the buffer that the programme signals, in bytes.
    pub bound: u32,
    /// How many packets came too late.
    pub late: u64,
    /// How many packets were kept already.
    pub repeat: u64,
    /// For how many packets there was no room.
    pub full: u64,
}

/// Why there are no numbers of a trial. It shows as the text of the status with which a command then ends.
#[derive(Clone, Copy, Debug, PartialEq, Eq, Error)]
pub enum TrialEnd {
    /// A read of a file failed.
    #[error("read fault")]
    ReadFault,
    /// The file of a unit is absent, or ends before the unit does: the unit's number over the whole cast, its length in
    /// bytes, and how many of them the file has.
    #[error("unit {unit} has {length} bytes, its file has {got}")]
    UnitShort { unit: u32, length: u32, got: u32 },
    /// There is no memory.
    #[error("out of memory")]
    OutOfMemory,
}

/// The end of a trial by that of sending. A write into memory fails only for want of it.
fn end_of_send(end: SendEnd) -> TrialEnd
    ensures { result ≡ send_end end }
{
    match end {
        SendEnd::ReadFault => TrialEnd::ReadFault,
        SendEnd::UnitShort { unit, length, got } => TrialEnd::UnitShort { unit, length, got },
        SendEnd::WriteFault => TrialEnd::OutOfMemory,
        SendEnd::OutOfMemory => TrialEnd::OutOfMemory,
    }
}

ghost use Rattle.mmt_trial.specs.Trials.{send_end};

/// Sends the whole cast of a programme into memory.
fn record<H: Shelf>(
    alloc: Global,
    programme: &Programme,
    cast: &Admitted<'_>,
    shelf: &mut H,
) -> Result<Recording, TrialEnd>
    requires right { IsRight programme.now }
    requires none { refusal programme.now ≡ None }
    requires cast { cast.now ≡ cast_of programme.now }
    ensures sent { IsTrue (H.tells shelf.old) →
        IfOk result (λ sent. sent ≡ map spelling (stream programme.now cast.now (files_on (H.file shelf.old) programme.now))) }
    ensures whole { IsTrue (H.tells shelf.old) → OnOk result (AreWhole programme.now (files_on (H.file shelf.old) programme.now)) }
    ensures cause { IfErr result (λ e. TrialEnds programme.now (H.tells shelf.old) (H.file shelf.old)
        (H.faults shelf.old) (H.faults shelf.new) e) }
    ensures shelf { Stays (H.tells shelf.old) (H.tells shelf.new) (H.file shelf.old) (H.file shelf.new) (H.faults shelf.old)
        (H.faults shelf.new) }
{
    let mut sent = Recording::new(alloc);
    match send(alloc, programme, cast, shelf, &mut sent) {
        Ok(()) => Ok(sent),
        Err(end) => Err(end_of_send(end)),
    }
}

/// A receiver of a programme.
fn receiver_of(programme: &Programme) -> Config
    ensures { result ≡ receiver_of programme.now }
{
    Config {
        bound: programme.params.bound,
        flow: FlowChoice::One(programme.flow),
        sample_base: 1,
        timescale: 90_000,
        assumed: None,
    }
}

/// The numbers of a trial.
fn put_together(
    programme: &Programme,
    sent: u32,
    delivered: u32,
    expected: u64,
    counts: &Summary,
) -> Tried
    ensures numbers { result ≡ put_together programme.now sent delivered expected counts.now }
    ensures small { expected < 2 ^ 64 }
{
    Tried {
        sent,
        delivered,
        units: counts.units,
        expected,
        bytes: counts.bytes,
        peak: counts.peak,
        bound: programme.params.bound,
        late: counts.late,
        repeat: counts.repeat,
        full: counts.full,
    }
}

/// Sends the whole admitted cast of a right programme into memory, and gives a receiver of the programme the packets at the
/// places of a list, in its order: what came out, what is expected of the list, and what the buffer held at most. Each place
/// is below the number of packets of the cast, and the list has fewer than 2^32. It takes the memory of the stream, and of
/// the receiver.
///
/// # Errors
///
/// `UnitShort` and `ReadFault` as for `send`, and `OutOfMemory`.
pub fn trial<H: Shelf>(
    alloc: Global,
    programme: &Programme,
    cast: &Admitted<'_>,
    shelf: &mut H,
    deliveries: &List<u32>,
) -> Result<Tried, TrialEnd>
    requires right { IsRight programme.now }
    requires none { refusal programme.now ≡ None }
    requires cast { cast.now ≡ cast_of programme.now }
    requires of { AreOf cast.now.packets deliveries.now }
    requires few { length deliveries.now < 2 ^ 32 }
    // The numbers, where the shelf tells its files.
    ensures tried { IsTrue (H.tells shelf.old) →
        IfOk result (λ t. t ≡ tried programme.now (files_on (H.file shelf.old) programme.now) deliveries.now) }
    // Of each near delivery all expected units come out, and the signalled buffer holds them.
    ensures bound { IsTrue (H.tells shelf.old) → IsNear cast.now programme.now.full_every deliveries.now → IfOk result KeepsBound }
    // No file ends before a unit of it does.
    ensures whole { IsTrue (H.tells shelf.old) → OnOk result (AreWhole programme.now (files_on (H.file shelf.old) programme.now)) }
    ensures cause { IfErr result (λ e. TrialEnds programme.now (H.tells shelf.old) (H.file shelf.old)
        (H.faults shelf.old) (H.faults shelf.new) e) }
    ensures shelf { Stays (H.tells shelf.old) (H.tells shelf.new) (H.file shelf.old) (H.file shelf.new) (H.faults shelf.old)
        (H.faults shelf.new) }
{
    programmes_are_received();
    receivers_have_room();
    let whole = cast.cast();
    let list = deliveries.as_slice();
    let sent = match record(alloc, programme, cast, shelf) {
        Ok(sent) => sent,
        Err(end) => return Err(end),
    };
    let counts = match listen(alloc, receiver_of(programme), &sent, list) {
        Ok(counts) => counts,
        Err(_) => return Err(TrialEnd::OutOfMemory),
    };
    let expected = match expected_units(alloc, programme, whole, list) {
        Ok(expected) => expected,
        Err(_) => return Err(TrialEnd::OutOfMemory),
    };
    let sent = whole.packets.len() as u32;
    let delivered = list.len() as u32;
    Ok(put_together(programme, sent, delivered, expected, &counts))
}

//! The payloads of the packets of a cast.

ghost use Rattle.std.specs.Prelude.{◌≡◌, ◌+◌, ◌<◌, ◌≤◌, ◌++◌, length, IsTrue, IfErr, IfOk, OnOk};
ghost use Rattle.mmt_model.specs.Carrying.{role as role_in, sent_unit};
ghost use Rattle.mmt_model.specs.Right.{IsRight};
ghost use Rattle.mmt_model.specs.declared.programmes.Programme.{Programme};
ghost use Rattle.mmt_plan.specs.Plan.{Stays};
ghost use Rattle.mmt_send.specs.Carried.{HasCast, IsCarried};
ghost use Rattle.mmt_send.specs.Files.{files_on, HasCause};
ghost use Rattle.mmt_send.specs.Held.{AreHeld};
ghost use Rattle.mmt_send.specs.Holding.{IsRoom};
ghost use Rattle.mmt_sent.specs.Payloads.{bytes_of, kind_of, left as left_of, written};
ghost use Rattle.mmt_sent.specs.Stream.{contents_sent};

use crate::ends::SendEnd;
use crate::messages::{Piece, Spelled, parts_of_table, put_piece};
use crate::units::{Job, Lone, Several, put_lone, put_several};
use mmt_base::OutOfMemory;
use mmt_io::Shelf;
use mmt_model::{Carries, Part, Programme};
use std::alloc::Global;

/// The room in which payloads are made: for the bytes of a file that go into one packet, and for the signalling
/// message last spelled.
#[derive(Drop)]
pub struct Room {
    file: Vec<u8>,
    spelled: Spelled,
}

impl Room {
    /// Room for the payloads of a programme. It takes as many bytes as a packet has of a unit at most.
    pub fn new(alloc: Global, programme: &Programme) -> Result<Room, OutOfMemory>
        ensures { IfOk result (λ room. IsRoom programme.now room) }
    {
        let limit = programme.limit as usize;
        let mut file = Vec::with_capacity(alloc, limit)?;
        file.resize(limit, 0)?;
        Ok(Room {
            file,
            spelled: Spelled::new(alloc),
        })
    }
}

// Part number k of N, of a unit or message in parts (ISO/IEC 23008-1, the fragmentation indicator).
#[tactic(auto, unfolding(mmt_model::specs::Carrying::role))]
fn role(number: u32, count: u32) -> Part
    ensures { result ≡ role_in number count }
{
    if number == 0 {
        Part::First
    } else if number as u64 + 1 == count as u64 {
        Part::Last
    } else {
        Part::Middle
    }
}

// How many of N parts follow a part, 255 where there are more (ISO/IEC 23008-1, the fragment counter).
fn left(number: u32, count: u32) -> u8
    ensures { result ≡ left_of number count }
{
    count.saturating_sub(1).saturating_sub(number).min(255) as u8
}

// In how many parts a unit is sent.
fn parts_of_unit(job: &Job<'_>, unit: u32) -> u32
    requires { unit < length job.now.cast.now.units }
    ensures { result ≡ (sent_unit job.now.cast.now unit).count }
{
    let units = job.cast.units.as_slice();
    units[unit as usize].count
}

// A signalling message in one payload.
fn whole(signal: u32) -> Piece
    ensures { result ≡ record { signal = signal; number = 0; part = Part.Whole; left = 0 } }
{
    Piece {
        signal,
        number: 0,
        part: Part::Whole,
        left: 0,
    }
}

/// Appends the payload of a packet by what it carries (ISO/IEC 23008-1, the MPU and the signalling payload).
///
/// # Errors
///
/// `UnitShort` where the file of a unit that it carries is absent or ends before the bytes do, `ReadFault` where a
/// read of it failed, and `OutOfMemory`.
pub fn put_payload<H: Shelf>(
    job: &Job<'_>,
    shelf: &mut H,
    carries: Carries,
    room: &mut Room,
    out: &mut Vec<u8>,
) -> Result<(), SendEnd>
    requires job { HasCast job.now.programme.now job.now.cast.now }
    requires carried { IsCarried job.now.programme.now carries }
    requires room { IsRoom job.now.programme.now room.old }
    ensures room { IsRoom job.now.programme.now room.new }
    ensures shelf { Stays (H.tells shelf.old) (H.tells shelf.new) (H.file shelf.old) (H.file shelf.new) (H.faults shelf.old)
        (H.faults shelf.new) }
    ensures cause { IfErr result (λ e. HasCause job.now.programme.now (H.tells shelf.old) (H.file shelf.old) (H.faults shelf.old)
        (H.faults shelf.new) e) }
    ensures long { OnOk result (length out.new.items ≤ length out.old.items + 60022) }
    ensures payload { IsTrue (H.tells shelf.old) →
        OnOk result (out.new.items ≡ out.old.items ++ bytes_of
        (written job.now.cast.now (contents_sent job.now.programme.now (files_on (H.file shelf.old) job.now.programme.now))
        carries)) }
    ensures held { IsTrue (H.tells shelf.old) →
        OnOk result (AreHeld job.now.programme.now (files_on (H.file shelf.old) job.now.programme.now) carries) }
{
    match carries {
        Carries::Whole { unit } => {
            let lone = Lone {
                unit,
                number: 0,
                part: Part::Whole,
                left: 0,
            };
            put_lone(job, shelf, &lone, room.file.as_mut_slice(), out)
        }
        Carries::Fragment { unit, number } => {
            let count = parts_of_unit(job, unit);
            let lone = Lone {
                unit,
                number,
                part: role(number, count),
                left: left(number, count),
            };
            put_lone(job, shelf, &lone, room.file.as_mut_slice(), out)
        }
        Carries::Group { first, count } => {
            let several = Several { first, count };
            put_several(job, shelf, &several, room.file.as_mut_slice(), out)
        }
        Carries::Parameters { signal } => {
            Ok(put_piece(job, &mut room.spelled, &whole(signal), out)?)
        }
        Carries::Table { signal } => { Ok(put_piece(job, &mut room.spelled, &whole(signal), out)?) }
        Carries::TablePart { signal, number } => {
            let count = parts_of_table(job, signal);
            let piece = Piece {
                signal,
                number,
                part: role(number, count),
                left: left(number, count),
            };
            Ok(put_piece(job, &mut room.spelled, &piece, out)?)
        }
    }
}

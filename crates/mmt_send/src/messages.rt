//! The signalling messages of a programme as payloads. A message is spelled once for all its parts.

ghost use Rattle.std.specs.Prelude.{◌≡◌, ◌+◌, ◌<◌, ◌≤◌, ◌++◌, true, length, OnOk};
ghost use Rattle.mmt_cast.specs.Right.{signal_at};
ghost use Rattle.mmt_model.specs.Carrying.{copy_place, table_copy};
ghost use Rattle.mmt_frag.specs.Cuts.{part_bytes};
ghost use Rattle.mmt_model.specs.declared.programmes.Programme.{Programme};
ghost use Rattle.mmt_send.specs.Carried.{HasCast};
ghost use Rattle.mmt_send.specs.Holding.{Holds};
ghost use Rattle.mmt_sent.specs.Payloads.{Message, bytes_of};
ghost use Rattle.mmt_sent.specs.Messages.{is_table, message_bytes, tables_before};

use crate::units::Job;
use mmt_base::OutOfMemory;
use mmt_model::Part;
use mmt_sig::{SigHead, write_sig};
use mmt_signals::put_message;
use std::alloc::Global;

// How many tables stand before a signalling message: the place of its own copy, where it is a table.
fn earlier_tables(job: &Job<'_>, signal: u32) -> u32
    requires job { HasCast job.now.programme.now job.now.cast.now }
    ensures earlier { result ≡ tables_before job.now.programme.now signal }
    ensures own { signal < length job.now.programme.now.signals →
        is_table (signal_at job.now.programme.now signal) ≡ true → copy_place job.now.cast.now.copies signal ≡ result }
    ensures listed { signal < length job.now.programme.now.signals →
        is_table (signal_at job.now.programme.now signal) ≡ true → result < length job.now.cast.now.copies }
{
    let copies = job.cast.copies.as_slice();
    let place = copies.partition_point(|copy| copy.signal < signal);
    place as u32
}

/// In how many parts a table is sent, by the place of its own copy.
pub fn parts_of_table(job: &Job<'_>, signal: u32) -> u32
    requires job { HasCast job.now.programme.now job.now.cast.now }
    requires known { signal < length job.now.programme.now.signals }
    requires table { is_table (signal_at job.now.programme.now signal) ≡ true }
    ensures { result ≡ (table_copy job.now.cast.now (copy_place job.now.cast.now.copies signal)).count }
{
    let place = earlier_tables(job, signal);
    let copies = job.cast.copies.as_slice();
    copies[place as usize].count
}

/// The signalling message last spelled, with its place in the programme.
#[derive(Drop)]
pub struct Spelled {
    bytes: Vec<u8>,
    place: Option<u32>,
}

impl Spelled {
    /// No message. It takes no memory.
    pub fn new(alloc: Global) -> Spelled
        ensures { (programme : Programme) → Holds programme result }
    {
        Spelled {
            bytes: Vec::new(alloc),
            place: None,
        }
    }

    // Spells the message of a place, unless it was the last.
    fn spell(&mut self, job: &Job<'_>, signal: u32) -> Result<(), OutOfMemory>
        requires job { HasCast job.now.programme.now job.now.cast.now }
        requires known { signal < length job.now.programme.now.signals }
        requires kept { Holds job.now.programme.now self.old }
        ensures bytes { OnOk result (self.new.bytes.items ≡ message_bytes job.now.programme.now signal) }
        ensures kept { Holds job.now.programme.now self.new }
    {
        if let Some(place) = self.place {
            if place == signal {
                return Ok(());
            }
        }
        self.place = None;
        self.bytes.clear();
        let earlier = earlier_tables(job, signal);
        put_message(&mut self.bytes, job.programme, signal as usize, earlier)?;
        self.place = Some(signal);
        Ok(())
    }
}

/// A part of a signalling message: the message's place in the programme, the part's number from 0, which part it
/// is said to be, and how many follow (ISO/IEC 23008-1, the signalling payload).
#[derive(Clone, Copy, Debug)]
pub struct Piece {
    pub signal: u32,
    pub number: u32,
    pub part: Part,
    pub left: u8,
}

/// Appends the payload of a part of a signalling message: two bytes of header, and at most `limit` bytes of the
/// message (ISO/IEC 23008-1, the signalling payload).
///
/// # Errors
///
/// `OutOfMemory`.
pub fn put_piece(
    job: &Job<'_>,
    spelled: &mut Spelled,
    piece: &Piece,
    out: &mut Vec<u8>,
) -> Result<(), OutOfMemory>
    requires job { HasCast job.now.programme.now job.now.cast.now }
    requires known { piece.now.signal < length job.now.programme.now.signals }
    requires kept { Holds job.now.programme.now spelled.old }
    ensures kept { Holds job.now.programme.now spelled.new }
    ensures long { OnOk result (length out.new.items ≤ length out.old.items + 60022) }
    ensures payload { OnOk result (out.new.items ≡ out.old.items ++ bytes_of
        (Message piece.now.part piece.now.left (part_bytes job.now.programme.now.limit piece.now.number
        (message_bytes job.now.programme.now piece.now.signal)))) }
{
    spelled.spell(job, piece.signal)?;
    let bytes = part(spelled.bytes.as_slice(), job.programme.limit, piece.number);
    let head = SigHead {
        part: piece.part,
        reserved: 0,
        long: false,
        aggregated: false,
        counter: piece.left,
    };
    write_sig(out, &head, bytes)?;
    Ok(())
}

// The bytes of a part of N at most, the first being number 0: none where it begins after the end.
fn part(bytes: &[u8], limit: u32, number: u32) -> &[u8]
    requires { 1 ≤ limit }
    ensures { result.now ≡ part_bytes limit number bytes.now }
{
    let from = (number as u64 * limit as u64).min(bytes.len() as u64) as usize;
    let rest = &bytes[from..];
    &rest[..rest.len().min(limit as usize)]
}

//! The command `peak`.

ghost use Rattle.std.specs.Prelude.{◌≡◌, ℕ, ◌+◌, ◌≤◌, [], List, ◌∷◌, IfOk, OnOk, vec_len, vec_capacity};
ghost use Rattle.mmt_tlv.specs.Framing.{Packet as Tlv, Fits, spelling};
ghost use Rattle.mmt_tlv.specs.Cutting.{IsPacket};
ghost use Rattle.mmt_stream.specs.Output.{nothing};
ghost use Rattle.mmt_model.specs.Delivery.{newest_first};
ghost use Rattle.mmt_peak.specs.Peaking.{peaking, line_of};

use crate::buffer::{Buffer, BufferNumbers};
use itoa::Buffer as Digits;
use mmt_base::OutOfMemory;
use mmt_fields::put_bytes;
use mmt_hear::{Heard, Hearer};
use mmt_io::Port;
use mmt_model::{FlowChoice, Params};
use mmt_stream::{Consumer, Halt};
use mmt_words::put_number;
use std::alloc::Global;
use std::marker::Model;

// What the command has made of the packets of a stream so far.
#[derive(Drop)]
struct Seen {
    flow: FlowChoice,
    hearer: Hearer,
    buffer: Buffer,
    refused: u64,
}

impl Model for Seen {
    ghost use Rattle.mmt_peak.specs.Commanding.{PeakState};

    ghost Value = { PeakState };

    ghost view = { λ c. record { flow = c.flow; table = c.hearer; buffer = c.buffer; refused = c.refused } };
}

// How many bytes the line has at most.
const LINE: usize = 260;

// Appends the line of these numbers.
#[tactic(auto, using(std::proofs::Common::append_assoc))]
fn put_line(out: &mut Vec<u8>, numbers: &BufferNumbers, refused: u64)
    requires empty { out.old.items ≡ [] }
    requires room { LINE ≤ vec_capacity out.old }
    ensures { out.new.items ≡ line_of (record { heard = numbers.now.heard; stored = numbers.now.counts.stored; late = numbers.now.counts.late; repeats = numbers.now.counts.repeats; full = numbers.now.counts.full; refused = refused }) numbers.now.most }
{
    let mut digits = Digits::new();
    put_number(&mut digits, out, b"heard ", numbers.heard);
    put_number(&mut digits, out, b" stored ", numbers.counts.stored);
    put_number(&mut digits, out, b" late ", numbers.counts.late);
    put_number(&mut digits, out, b" repeat ", numbers.counts.repeats);
    put_number(&mut digits, out, b" full ", numbers.counts.full);
    put_number(&mut digits, out, b" refused ", refused);
    put_number(&mut digits, out, b" peak ", numbers.most as u64);
    put_bytes(out, b"\n");
}

impl Seen {
    ghost use Rattle.mmt_peak.specs.Commanding.{HasSeen, numbers_in};

    // What it is at the start of a stream.
    fn new(alloc: Global, flow: FlowChoice, params: Params) -> Result<Seen, OutOfMemory>
        ensures flow { IfOk result (λ c. c.flow ≡ flow) }
        ensures params { IfOk result (λ c. c.buffer.params ≡ params) }
        ensures seen { IfOk result (λ c. HasSeen [] c) }
    {
        let hearer = Hearer::new(alloc)?;
        let buffer = Buffer::new(alloc, params)?;
        Ok(Seen {
            flow,
            hearer,
            buffer,
            refused: 0,
        })
    }

    // Takes the next packet.
    fn next(&mut self, tlv: &[u8]) -> Result<(), OutOfMemory>
        requires { IsPacket tlv.now }
        ensures flow { self.new.flow ≡ self.old.flow }
        ensures params { self.new.buffer.params ≡ self.old.buffer.params }
        ensures seen { OnOk result ((packets : List Tlv) (packet : Tlv) → Fits packet → tlv.now ≡ spelling packet → HasSeen packets self.old → HasSeen (packet ∷ packets) self.new) }
    {
        match self.hearer.hear(&self.flow, tlv) {
            Heard::Packet { packet, from: _ } => self.buffer.take(&packet),
            Heard::NotOurs => Ok(()),
            Heard::Refused { at: _, why: _ } => {
                self.refused = self.refused.saturating_add(1);
                Ok(())
            }
        }
    }

    // Appends the line at the end of the stream.
    fn put_last_line(&self, out: &mut Vec<u8>)
        requires empty { out.old.items ≡ [] }
        requires room { LINE ≤ vec_capacity out.old }
        ensures { out.new.items ≡ line_of (numbers_in self.now) self.now.buffer.pool.peak }
    {
        put_line(out, &self.buffer.numbers(), self.refused);
    }
}

/// Puts the heard packets of a stream into a buffer, and writes one line at the end.
#[derive(Drop)]
pub struct PeakCommand {
    // in a box, so that little is moved with each packet
    seen: Box<Seen>,
    // empty until the end, which takes no memory: it has room for the line
    line: Vec<u8>,
}

impl Model for PeakCommand {
    ghost use Rattle.std.specs.Prelude.{◌≡◌, ◌≤◌, [], vec_capacity};
    ghost use Rattle.mmt_peak.specs.Commanding.{PeakState};

    ghost Value = { PeakState };

    ghost view = { λ c. c.seen.value };

    ghost invariant = { λ c. (c.line.items ≡ []) × (260 ≤ vec_capacity c.line) };
}

impl PeakCommand {
    ghost use Rattle.mmt_peak.specs.Commanding.{HasSeen};

    /// The command at the start of a stream, for a flow and a buffer of `params.bound` payload bytes,
    /// with its window and delay in ticks. It takes the room for the line.
    pub fn new(alloc: Global, flow: FlowChoice, params: Params) -> Result<PeakCommand, OutOfMemory>
        ensures flow { IfOk result (λ c. c.flow ≡ flow) }
        ensures params { IfOk result (λ c. c.buffer.params ≡ params) }
        ensures seen { IfOk result (λ c. HasSeen [] c) }
    {
        let seen = Box::new(alloc, Seen::new(alloc, flow, params)?)?;
        let line = Vec::with_capacity(alloc, LINE)?;
        Ok(PeakCommand { seen, line })
    }
}

impl<P: Port> Consumer<P> for PeakCommand {
    ghost use Rattle.mmt_peak.specs.Commanding.{HasSeen};
    ghost use Rattle.mmt_peak.specs.PeakingGrows.{peaking_grows};

    ghost meaning = { λ c. peaking c.flow c.buffer.params };

    ghost stands = { λ c packets. HasSeen (newest_first packets) c };

    ghost gathered = { λ _. nothing };

    ghost grows = { λ c. peaking_grows c.flow c.buffer.params };

    fn push(mut self, _port: &mut P, _place: u64, tlv: &[u8]) -> Result<Self, Halt> {
        match self.seen.next(tlv) {
            Ok(()) => Ok(self),
            Err(_) => Err(Halt::OutOfMemory),
        }
    }

    fn settle(self, _port: &mut P) -> Result<Self, Halt> {
        Ok(self)
    }

    fn finish(self, port: &mut P) -> Result<(), Halt> {
        let PeakCommand { seen, mut line } = self;
        seen.put_last_line(&mut line);
        match port.write(&line) {
            Ok(()) => Ok(()),
            Err(_) => Err(Halt::WriteFault),
        }
    }
}

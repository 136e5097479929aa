//! The command `take`.

ghost use Rattle.std.specs.Prelude.{◌≡◌, ◌+◌, ◌≤◌, ◌^◌, [], IfOk, vec_len, vec_capacity};
ghost use Rattle.mmt_io.specs.Output.{nothing};
ghost use Rattle.mmt_model.specs.Delivery.{newest_first};
ghost use Rattle.mmt_recv.specs.Receiving.{Stands};
ghost use Rattle.mmt_take.specs.Taking.{taking, placed, line_of};

use itoa::Buffer;
use mmt_base::OutOfMemory;
use mmt_fields::put_bytes;
use mmt_io::Port;
use mmt_recv::{Ended, Receiver, Summary};
use mmt_stream::{Consumer, Halt};
use mmt_tune::Config;
use mmt_words::put_number;
use std::alloc::Global;
use std::marker::Model;

/// Writes the records of the media units of a stream, notes what is refused, and notes one line at the end.
#[derive(Drop)]
pub struct TakeCommand {
    // in a box, so that little is moved with each packet
    receiver: Box<Receiver>,
    // empty until the end, which takes no memory: it has room for the last line
    line: Vec<u8>,
}

impl Model for TakeCommand {
    ghost use Rattle.std.specs.Prelude.{◌≡◌, ◌≤◌, [], vec_capacity};
    ghost use Rattle.mmt_recv.specs.Receiving.{State};

    ghost Value = { State };

    ghost view = { λ c. c.receiver.value };

    ghost invariant = { λ c. (c.line.items ≡ []) × (120 ≤ vec_capacity c.line) };
}

// How many bytes the last line has at most.
const LINE: usize = 120;

// Appends the last line of these numbers.
#[tactic(auto, using(std::proofs::Common::append_assoc))]
fn put_line(out: &mut Vec<u8>, summary: &Summary)
    requires empty { out.old.items ≡ [] }
    requires room { LINE ≤ vec_capacity out.old }
    ensures { out.new.items ≡ line_of summary.now }
{
    let mut digits = Buffer::new();
    put_number(&mut digits, out, b"units ", summary.units);
    put_number(&mut digits, out, b" bytes ", summary.bytes);
    put_number(&mut digits, out, b" peak ", summary.peak as u64);
    put_bytes(out, b"\n");
}

impl TakeCommand {
    /// The command at the start of a stream. It takes the room for the last line.
    pub fn new(alloc: Global, config: Config) -> Result<TakeCommand, OutOfMemory>
        requires bound { config.bound ≤ 2 ^ 30 }
        requires base { config.sample_base ≤ 1 }
        requires timescale { 1 ≤ config.timescale }
        ensures config { IfOk result (λ c. c.config ≡ config) }
        ensures stands { IfOk result (λ c. Stands c []) }
    {
        let receiver = Box::new(alloc, Receiver::new(alloc, config)?)?;
        let line = Vec::with_capacity(alloc, LINE)?;
        Ok(TakeCommand { receiver, line })
    }
}

// The halt of a receiver that ended.
fn halt_of(ended: Ended) -> Halt
    ensures { result ≡ Halt.WriteFault → ended ≡ Ended.WriteFault }
{
    match ended {
        Ended::WriteFault => Halt::WriteFault,
        Ended::OutOfMemory => Halt::OutOfMemory,
    }
}

impl<P: Port> Consumer<P> for TakeCommand {
    ghost use Rattle.mmt_take.specs.TakingGrows.{taking_grows};

    ghost meaning = { λ c. taking c.config };

    ghost stands = { λ c packets. Stands c (placed (newest_first packets)) };

    ghost gathered = { λ _. nothing };

    ghost grows = { λ c. taking_grows c.config };

    fn push(mut self, port: &mut P, place: u64, tlv: &[u8]) -> Result<Self, Halt> {
        match self.receiver.receive(port, place, tlv) {
            Ok(()) => Ok(self),
            Err(ended) => Err(halt_of(ended)),
        }
    }

    fn settle(self, _port: &mut P) -> Result<Self, Halt> {
        Ok(self)
    }

    fn finish(self, port: &mut P) -> Result<(), Halt> {
        let TakeCommand { receiver, mut line } = self;
        let summary = match Box::into_inner(receiver).finish(port) {
            Ok(summary) => summary,
            Err(_) => return Err(Halt::WriteFault),
        };
        put_line(&mut line, &summary);
        match port.note(&line) {
            Ok(()) => Ok(()),
            Err(_) => Err(Halt::WriteFault),
        }
    }
}

//! The command `squeeze`.

ghost use Rattle.std.specs.Prelude.{◌≡◌, ◌^◌, ◌<◌, ◌≤◌, List, ◌∷◌, [], IfOk, OnOk};
ghost use Rattle.mmt_tlv.specs.Framing.{Packet, Fits, spelling};
ghost use Rattle.mmt_tlv.specs.Cutting.{IsPacket};
ghost use Rattle.mmt_io.specs.Output.{nothing, followed};
ghost use Rattle.mmt_model.specs.Delivery.{newest_first};
ghost use Rattle.mmt_gate.specs.Flows.{headers};
ghost use Rattle.mmt_gate.specs.Keeping.{HasSqueezed};
ghost use Rattle.mmt_gate.specs.Shrinking.{squeezed};
ghost use Rattle.mmt_gateway.specs.Gathering.{of_gathered};
ghost use Rattle.mmt_gateway.specs.Noting.{squeeze_note};
ghost use Rattle.mmt_gateway.specs.Passing.{passed_one, squeezing};

use crate::gathered::Gathered;
use crate::noting::put_squeeze_note;
use mmt_base::OutOfMemory;
use mmt_gate::{ShrinkEnd, Shrinker};
use mmt_io::Port;
use mmt_stream::{Consumer, Halt};
use std::alloc::Global;

/// Writes the packets of a stream with compressed headers, and notes those that it leaves out: by one
/// write and one note at most for the packets of one read.
#[derive(Drop)]
pub struct SqueezeCommand {
    shrinker: Shrinker,
    gathered: Gathered,
}

impl SqueezeCommand {
    /// The command at the start of a stream: the context of the first header, below 4,096, and every
    /// how many packets of a header carry it, at least 1.
    pub fn new(alloc: Global, context: u16, full_every: u32) -> Result<SqueezeCommand, OutOfMemory>
        requires context { context < 4096 }
        requires every { 1 ≤ full_every }
        ensures options { IfOk result (λ c. c.shrinker.options ≡
            record { context = context; full_every = full_every }) }
        ensures none { IfOk result (λ c. of_gathered c.gathered ≡ nothing) }
        ensures squeezed { IfOk result (λ c. HasSqueezed [] c.shrinker) }
    {
        let shrinker = Shrinker::new(alloc, context, full_every)?;
        Ok(SqueezeCommand {
            shrinker,
            gathered: Gathered::new(alloc),
        })
    }

    // Gathers what the next packet becomes, or its note. The place is that of its first byte.
    fn next(&mut self, place: u64, tlv: &[u8]) -> Result<(), OutOfMemory>
        requires whole { IsPacket tlv.now }
        requires bound { place < 2 ^ 63 }
        ensures options { self.new.shrinker.options ≡ self.old.shrinker.options }
        ensures gathers { OnOk result ((earlier : List Packet) (packet : Packet) → Fits packet →
            tlv.now ≡ spelling packet → HasSqueezed (headers earlier) self.old.shrinker →
            of_gathered self.new.gathered ≡ followed (of_gathered self.old.gathered)
            (passed_one (squeezed self.old.shrinker.options) squeeze_note place earlier packet)) }
        ensures next { OnOk result ((earlier : List Packet) (packet : Packet) → Fits packet →
            tlv.now ≡ spelling packet → HasSqueezed (headers earlier) self.old.shrinker →
            HasSqueezed (headers (packet ∷ earlier)) self.new.shrinker) }
    {
        match self.shrinker.next(&mut self.gathered.out, tlv) {
            Ok(()) => Ok(()),
            Err(ShrinkEnd::OutOfMemory) => Err(OutOfMemory),
            Err(reason) => put_squeeze_note(&mut self.gathered.notes, place, reason),
        }
    }
}

impl<P: Port> Consumer<P> for SqueezeCommand {
    ghost use Rattle.mmt_gateway.specs.PassingGrows.{squeezing_grows};

    ghost meaning = { λ c. squeezing c.shrinker.options };

    ghost stands = { λ c packets. HasSqueezed (headers (newest_first packets)) c.shrinker };

    ghost gathered = { λ c. of_gathered c.gathered };

    ghost grows = { λ c. squeezing_grows c.shrinker.options };

    fn push(mut self, _port: &mut P, place: u64, tlv: &[u8]) -> Result<Self, Halt> {
        match self.next(place, tlv) {
            Ok(()) => Ok(self),
            Err(_) => Err(Halt::OutOfMemory),
        }
    }

    fn settle(mut self, port: &mut P) -> Result<Self, Halt> {
        match self.gathered.send(port) {
            Ok(()) => {
                self.gathered.clear();
                Ok(self)
            }
            Err(halt) => Err(halt),
        }
    }

    fn finish(self, port: &mut P) -> Result<(), Halt> {
        match self.gathered.send(port) {
            Ok(()) => Ok(()),
            Err(halt) => Err(halt),
        }
    }
}

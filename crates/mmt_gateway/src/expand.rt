//! The command `expand`.

ghost use Rattle.std.specs.Prelude.{◌≡◌, ◌^◌, ◌<◌, List, ◌∷◌, [], IfOk, OnOk};
ghost use Rattle.mmt_tlv.specs.Framing.{Packet, Fits, spelling};
ghost use Rattle.mmt_tlv.specs.Cutting.{IsPacket};
ghost use Rattle.mmt_io.specs.Output.{nothing, followed};
ghost use Rattle.mmt_model.specs.Delivery.{newest_first};
ghost use Rattle.mmt_hear.specs.Views.{HasHeard};
ghost use Rattle.mmt_gate.specs.Expanding.{expanded};
ghost use Rattle.mmt_gateway.specs.Gathering.{of_gathered};
ghost use Rattle.mmt_gateway.specs.Noting.{expand_note};
ghost use Rattle.mmt_gateway.specs.Passing.{passed_one, expanding};

use crate::gathered::Gathered;
use crate::noting::put_expand_note;
use mmt_base::OutOfMemory;
use mmt_gate::{ExpandEnd, Expander};
use mmt_io::Port;
use mmt_stream::{Consumer, Halt};
use std::alloc::Global;

/// Writes the packets of a stream with all headers, and notes those that it leaves out: by one write
/// and one note at most for the packets of one read.
#[derive(Drop)]
pub struct ExpandCommand {
    expander: Expander,
    gathered: Gathered,
}

impl ExpandCommand {
    /// The command at the start of a stream. It takes the room for the headers of all 4,096 contexts.
    pub fn new(alloc: Global) -> Result<ExpandCommand, OutOfMemory>
        ensures none { IfOk result (λ c. of_gathered c.gathered ≡ nothing) }
        ensures heard { IfOk result (λ c. HasHeard [] c.expander) }
    {
        let expander = Expander::new(alloc)?;
        Ok(ExpandCommand {
            expander,
            gathered: Gathered::new(alloc),
        })
    }

    // Gathers what the next packet becomes, or its note. The place is that of its first byte.
    fn next(&mut self, place: u64, tlv: &[u8]) -> Result<(), OutOfMemory>
        requires whole { IsPacket tlv.now }
        requires bound { place < 2 ^ 63 }
        ensures gathers { OnOk result ((earlier : List Packet) (packet : Packet) → Fits packet →
            tlv.now ≡ spelling packet → HasHeard earlier self.old.expander →
            of_gathered self.new.gathered ≡ followed (of_gathered self.old.gathered)
            (passed_one expanded expand_note place earlier packet)) }
        ensures next { OnOk result ((earlier : List Packet) (packet : Packet) → Fits packet →
            tlv.now ≡ spelling packet → HasHeard earlier self.old.expander →
            HasHeard (packet ∷ earlier) self.new.expander) }
    {
        match self.expander.next(&mut self.gathered.out, tlv) {
            Ok(()) => Ok(()),
            Err(ExpandEnd::OutOfMemory) => Err(OutOfMemory),
            Err(reason) => put_expand_note(&mut self.gathered.notes, place, reason),
        }
    }
}

impl<P: Port> Consumer<P> for ExpandCommand {
    ghost use Rattle.mmt_gateway.specs.PassingGrows.{expanding_grows};

    ghost meaning = { λ _. expanding };

    ghost stands = { λ c packets. HasHeard (newest_first packets) c.expander };

    ghost gathered = { λ c. of_gathered c.gathered };

    ghost grows = { λ _. expanding_grows };

    fn push(mut self, _port: &mut P, place: u64, tlv: &[u8]) -> Result<Self, Halt> {
        match self.next(place, tlv) {
            Ok(()) => Ok(self),
            Err(_) => Err(Halt::OutOfMemory),
        }
    }

    fn settle(mut self, port: &mut P) -> Result<Self, Halt> {
        match self.gathered.send(port) {
            Ok(()) => {
                self.gathered.clear();
                Ok(self)
            }
            Err(halt) => Err(halt),
        }
    }

    fn finish(self, port: &mut P) -> Result<(), Halt> {
        match self.gathered.send(port) {
            Ok(()) => Ok(()),
            Err(halt) => Err(halt),
        }
    }
}

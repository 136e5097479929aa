//! What is done with the packets of a stream.
ghost use Rattle.std.specs.Prelude.{◌≡◌, ℕ, ◌^◌, ◌<◌, ◌≤◌, List, length, IsTrue, IfOk, IsErrOf};
ghost use Rattle.mmt_io.specs.Port.{OnlySends, Rose};
ghost use Rattle.mmt_tlv.specs.Framing.{Packet, Fits, spelling, joined};
ghost use Rattle.mmt_tlv.specs.Cutting.{IsPacket};
ghost use Rattle.mmt_io.specs.Output.{Output};
ghost use Rattle.mmt_stream.specs.Consuming.{Meaning, Grows, Pushes, Settles, Finishes};

use mmt_io::{Halt, Port};

/// What is done with the packets of a stream, one after the other. Output may be gathered, and goes out when the
/// consumer settles and when it finishes.
pub trait Consumer<P: Port>: Drop {
    /// What belongs to the packets.
    ghost meaning: { Self → Meaning };
    /// Which packets it was given.
    ghost stands: { Self → List Packet → Type 0 };
    /// What it has gathered and not yet put out.
    ghost gathered: { Self → Output };

    /// Takes the next packet, which begins at a place.
    fn push(self, port: &mut P, place: u64, tlv: &[u8]) -> Result<Self, Halt>
        requires whole { IsPacket tlv.now }
        requires bound { place < 2 ^ 63 }
        ensures same { IfOk result (λ next. meaning next ≡ meaning self) }
        ensures sends { OnlySends P.tells P.left P.read_faults P.write_faults port.old port.new }
        ensures cause { IsErrOf result Halt.WriteFault →
            Rose (P.write_faults port.old) (P.write_faults port.new) }
        ensures pushed { IsTrue (P.tells port.old) → (packets : List Packet) (packet : Packet) →
            stands self packets → Fits packet → tlv.now ≡ spelling packet →
            place ≡ length (joined packets) →
            Pushes (meaning self) stands gathered self packets packet (P.history port.old)
            (P.history port.new) result };

    /// Puts out all that is gathered. It is called before each read.
    fn settle(self, port: &mut P) -> Result<Self, Halt>
        ensures same { IfOk result (λ next. meaning next ≡ meaning self) }
        ensures sends { OnlySends P.tells P.left P.read_faults P.write_faults port.old port.new }
        ensures cause { IsErrOf result Halt.WriteFault →
            Rose (P.write_faults port.old) (P.write_faults port.new) }
        ensures settled { IsTrue (P.tells port.old) → (packets : List Packet) →
            stands self packets →
            Settles (meaning self) stands gathered self packets (P.history port.old)
            (P.history port.new) result };

    /// Puts out all that is gathered, and what belongs to the end of the stream. It takes no memory.
    fn finish(self, port: &mut P) -> Result<(), Halt>
        ensures memory { IsErrOf result Halt.OutOfMemory → ⊥ }
        ensures sends { OnlySends P.tells P.left P.read_faults P.write_faults port.old port.new }
        ensures cause { IsErrOf result Halt.WriteFault →
            Rose (P.write_faults port.old) (P.write_faults port.new) }
        ensures finished { IsTrue (P.tells port.old) → (packets : List Packet) →
            stands self packets →
            Finishes (meaning self) (gathered self) packets (P.history port.old)
            (P.history port.new) result };

    /// What belongs to the packets grows with them.
    ghost grows: { (c : Self) → Grows (meaning c) };
}

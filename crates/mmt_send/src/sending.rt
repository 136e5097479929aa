//! Writing the stream of a cast, packet by packet.

ghost use Rattle.std.specs.Prelude.{◌≡◌, ◌+◌, ◌<◌, ◌++◌, ◌∷◌, [], length, get_or, None, IsTrue, IfOk, IfErr, OnOk, OnErr};
ghost use Rattle.mmt_cast.specs.Refusing.{refusal};
ghost use Rattle.mmt_model.specs.Right.{IsRight};
ghost use Rattle.mmt_pace.specs.Recast.{IsItsCast};
ghost use Rattle.mmt_plan.specs.Plan.{Stays};
ghost use Rattle.mmt_send.specs.Carried.{HasCast};
ghost use Rattle.mmt_send.specs.Files.{files_on, HasCause};
ghost use Rattle.mmt_send.specs.Held.{AreHeld, AreWhole};
ghost use Rattle.mmt_model.specs.Survival.{no_packet};
ghost use Rattle.mmt_send.specs.Writes.{AddsFront, EndsFor, HasBegun, IsReady, IsUnread, pieces};
ghost use Rattle.mmt_sent.specs.Stream.{packet_sent, stream};
ghost use Rattle.mmt_tlv.specs.Framing.{spelling};

use crate::addressing::{Addresser, begin_squeezed, put_length, put_plain};
use crate::ends::SendEnd;
use crate::made::Made;
use crate::packets::put_packet;
use crate::payloads::Room;
use crate::units::Job;
use mmt_admit::Admitted;
use mmt_base::OutOfMemory;
use mmt_io::{Fault, Port, Shelf};
use mmt_model::Programme;
use std::alloc::Global;

/// What a sender keeps from packet to packet.
#[derive(Drop)]
pub struct Sender {
    room: Room,
    made: Made,
    addresser: Addresser,
}

impl Sender {
    // A sender before the first packet of a programme.
    fn new(alloc: Global, programme: &Programme) -> Result<Sender, OutOfMemory>
        requires { IsRight programme.now }
        ensures { IfOk result (λ sender. IsReady programme.now 0 sender) }
    {
        let room = Room::new(alloc, programme)?;
        Ok(Sender {
            room,
            made: Made::new(alloc),
            addresser: Addresser::new(programme),
        })
    }

    // Makes the TLV packet at a place of the cast in `made.outer`.
    fn make<H: Shelf>(&mut self, job: &Job<'_>, shelf: &mut H, place: usize) -> Result<(), SendEnd>
        requires job { HasCast job.now.programme.now job.now.cast.now }
        requires place { place < length job.now.cast.now.packets }
        requires ready { IsReady job.now.programme.now place self.old }
        ensures shelf { Stays (H.tells shelf.old) (H.tells shelf.new) (H.file shelf.old) (H.file shelf.new) (H.faults shelf.old)
            (H.faults shelf.new) }
        ensures cause { IfErr result (λ e. HasCause job.now.programme.now (H.tells shelf.old) (H.file shelf.old) (H.faults shelf.old)
            (H.faults shelf.new) e) }
        ensures ready { OnOk result (IsReady job.now.programme.now (place + 1) self.new) }
        ensures held { IsTrue (H.tells shelf.old) →
            OnOk result (AreHeld job.now.programme.now (files_on (H.file shelf.old) job.now.programme.now)
            (get_or job.now.cast.now.packets place no_packet).carries) }
        ensures packet { IsTrue (H.tells shelf.old) →
            OnOk result (self.new.made.outer.items ≡ spelling
            (packet_sent job.now.programme.now job.now.cast.now (files_on (H.file shelf.old) job.now.programme.now) place)) }
    {
        let packets = job.cast.packets.as_slice();
        let sent = packets[place];
        match &mut self.addresser {
            Addresser::Plain(header) => {
                self.made.inner.clear();
                put_packet(job, shelf, &sent, &mut self.room, &mut self.made.inner)?;
                put_plain(header, &mut self.made)?;
                Ok(())
            }
            Addresser::Squeezed(squeezer) => {
                begin_squeezed(squeezer, &mut self.made.outer)?;
                put_packet(job, shelf, &sent, &mut self.room, &mut self.made.outer)?;
                put_length(&mut self.made.outer);
                Ok(())
            }
        }
    }

    // Makes and writes the packet at a place of the cast.
    fn write_next<H: Shelf, P: Port>(
        &mut self,
        job: &Job<'_>,
        shelf: &mut H,
        port: &mut P,
        place: usize,
    ) -> Result<(), SendEnd>
        requires job { HasCast job.now.programme.now job.now.cast.now }
        requires place { place < length job.now.cast.now.packets }
        requires ready { IsReady job.now.programme.now place self.old }
        ensures ready { OnOk result (IsReady job.now.programme.now (place + 1) self.new) }
        ensures held { IsTrue (H.tells shelf.old) →
            OnOk result (AreHeld job.now.programme.now (files_on (H.file shelf.old) job.now.programme.now)
            (get_or job.now.cast.now.packets place no_packet).carries) }
        ensures sent { IsTrue (H.tells shelf.old) → IsTrue (P.tells port.old) →
            OnOk result (P.history port.new ≡ P.history port.old ++ pieces
            (packet_sent job.now.programme.now job.now.cast.now (files_on (H.file shelf.old) job.now.programme.now) place ∷ [])) }
        ensures front { IsTrue (H.tells shelf.old) → IsTrue (P.tells port.old) →
            OnErr result (AddsFront (P.history port.old) (P.history port.new)
            (packet_sent job.now.programme.now job.now.cast.now (files_on (H.file shelf.old) job.now.programme.now) place ∷ [])) }
        ensures cause { IfErr result (λ e. EndsFor job.now.programme.now (H.tells shelf.old) (H.file shelf.old)
            (H.faults shelf.old, H.faults shelf.new) (P.write_faults port.old, P.write_faults port.new) e) }
        ensures shelf { Stays (H.tells shelf.old) (H.tells shelf.new) (H.file shelf.old) (H.file shelf.new) (H.faults shelf.old)
            (H.faults shelf.new) }
        ensures port { IsUnread (P.tells port.old) (P.tells port.new) (P.left port.old) (P.left port.new) (P.read_faults port.old)
            (P.read_faults port.new) (P.write_faults port.old) (P.write_faults port.new) }
    {
        self.make(job, shelf, place)?;
        match port.write(self.made.outer.as_slice()) {
            Ok(()) => Ok(()),
            Err(Fault) => Err(SendEnd::WriteFault),
        }
    }
}

/// Writes the stream of an admitted cast of a right programme, its own or one at other ticks, one TLV packet with each write, in the order of the
/// cast; each file is read only for the packet that is written next.
///
/// # Errors
///
/// `UnitShort` where the file of a unit is absent or ends before the unit does, `ReadFault` where a read of a file
/// failed, `WriteFault` where a write failed, and `OutOfMemory`. What was written is a prefix of the stream.
pub fn send<H: Shelf, P: Port>(
    alloc: Global,
    programme: &Programme,
    cast: &Admitted<'_>,
    shelf: &mut H,
    port: &mut P,
) -> Result<(), SendEnd>
    requires right { IsRight programme.now }
    requires none { refusal programme.now ≡ None }
    requires cast { IsItsCast programme.now cast.now }
    // The stream was written, or a prefix of it, and nothing was noted or read; where shelf and port tell what they have.
    ensures done { IsTrue (H.tells shelf.old) → IsTrue (P.tells port.old) →
        OnOk result (P.history port.new ≡ P.history port.old ++ pieces
        (stream programme.now cast.now (files_on (H.file shelf.old) programme.now))) }
    ensures begun { IsTrue (H.tells shelf.old) → IsTrue (P.tells port.old) →
        OnErr result (HasBegun (P.history port.old) (P.history port.new)
        (stream programme.now cast.now (files_on (H.file shelf.old) programme.now))) }
    // Where it was written, no file ends before a unit of it does.
    ensures whole { IsTrue (H.tells shelf.old) → OnOk result (AreWhole programme.now (files_on (H.file shelf.old) programme.now)) }
    // Why it ended.
    ensures cause { IfErr result (λ e. EndsFor programme.now (H.tells shelf.old) (H.file shelf.old) (H.faults shelf.old, H.faults shelf.new)
        (P.write_faults port.old, P.write_faults port.new) e) }
    ensures shelf { Stays (H.tells shelf.old) (H.tells shelf.new) (H.file shelf.old) (H.file shelf.new) (H.faults shelf.old)
        (H.faults shelf.new) }
    ensures port { IsUnread (P.tells port.old) (P.tells port.new) (P.left port.old) (P.left port.new) (P.read_faults port.old)
        (P.read_faults port.new) (P.write_faults port.old) (P.write_faults port.new) }
{
    let job = Job {
        programme,
        cast: cast.cast(),
    };
    let mut sender = Sender::new(alloc, programme)?;
    for place in 0..job.cast.packets.len() {
        match sender.write_next(&job, shelf, port, place) {
            Ok(()) => {}
            Err(end) => return Err(end),
        }
    }
    Ok(())
}

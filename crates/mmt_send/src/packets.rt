//! The packets of a cast as MMTP packets.

ghost use Rattle.std.specs.Prelude.{◌≡◌, ◌+◌, ◌≤◌, ◌++◌, length, IsTrue, IfErr, OnOk};
ghost use Rattle.mmt_model.specs.Carrying.{Contents};
ghost use Rattle.mmt_model.specs.declared.casts.Cast.{Cast as SentCast};
ghost use Rattle.mmt_packet.specs.Spelling.{spelling};
ghost use Rattle.mmt_plan.specs.Plan.{Stays};
ghost use Rattle.mmt_send.specs.Carried.{HasCast, IsCarried, mmtp_of};
ghost use Rattle.mmt_send.specs.Files.{files_on, HasCause};
ghost use Rattle.mmt_send.specs.Held.{AreHeld};
ghost use Rattle.mmt_send.specs.Holding.{IsRoom};
ghost use Rattle.mmt_sent.specs.Payloads.{kind_of as kind_by, written};
ghost use Rattle.mmt_sent.specs.Stream.{contents_sent};

use crate::ends::SendEnd;
use crate::payloads::{Room, put_payload};
use crate::units::Job;
use mmt_io::Shelf;
use mmt_model::{Carries, Sent};
use mmt_packet::{Kind, Packet, write_packet};

// The type of the packet that carries this (ISO/IEC 23008-1, the type of an MMTP packet).
#[tactic(auto, unfolding(mmt_sent::specs::Payloads::written))]
fn kind_of(carries: Carries) -> Kind
    ensures { (cast : SentCast) (contents : Contents) → result ≡ kind_by (written cast contents carries) }
{
    match carries {
        Carries::Whole { .. } | Carries::Fragment { .. } | Carries::Group { .. } => Kind::Mpu,
        Carries::Parameters { .. } | Carries::Table { .. } | Carries::TablePart { .. } => {
            Kind::Signalling
        }
    }
}

/// Appends an MMTP packet of the cast: without packet counter and extension, and with reserved bits 0 (ISO/IEC 23008-1, the MMTP packet header). The payload is written after the header.
///
/// # Errors
///
/// Those of its payload.
pub fn put_packet<H: Shelf>(
    job: &Job<'_>,
    shelf: &mut H,
    sent: &Sent,
    room: &mut Room,
    out: &mut Vec<u8>,
) -> Result<(), SendEnd>
    requires job { HasCast job.now.programme.now job.now.cast.now }
    requires carried { IsCarried job.now.programme.now sent.now.carries }
    requires room { IsRoom job.now.programme.now room.old }
    ensures room { IsRoom job.now.programme.now room.new }
    ensures shelf { Stays (H.tells shelf.old) (H.tells shelf.new) (H.file shelf.old) (H.file shelf.new) (H.faults shelf.old)
        (H.faults shelf.new) }
    ensures cause { IfErr result (λ e. HasCause job.now.programme.now (H.tells shelf.old) (H.file shelf.old) (H.faults shelf.old)
        (H.faults shelf.new) e) }
    ensures long { OnOk result (length out.new.items ≤ length out.old.items + 60034) }
    ensures packet { IsTrue (H.tells shelf.old) →
        OnOk result (out.new.items ≡ out.old.items ++ spelling
        (mmtp_of job.now.cast.now (contents_sent job.now.programme.now (files_on (H.file shelf.old) job.now.programme.now))
        sent.now)) }
    ensures held { IsTrue (H.tells shelf.old) →
        OnOk result (AreHeld job.now.programme.now (files_on (H.file shelf.old) job.now.programme.now) sent.now.carries) }
{
    let header = Packet {
        counter: None,
        rap: sent.rap,
        reserved: 0,
        kind: kind_of(sent.carries),
        packet_id: sent.packet_id,
        time: sent.at.low(),
        number: sent.number,
        extension: None,
        payload: &[],
    };
    write_packet(out, &header)?;
    put_payload(job, shelf, sent.carries, room, out)?;
    Ok(())
}

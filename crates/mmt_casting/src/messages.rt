//! The packets of a signalling message.

ghost use Rattle.std.specs.Prelude.{◌≡◌, ◌+◌, ◌≤◌, ◌<◌, ◌^◌, ◌++◌, OnOk};
ghost use Rattle.mmt_frag.specs.Cuts.{parts as parts_of};
ghost use Rattle.mmt_cast.specs.Sending.{Sending};
ghost use Rattle.mmt_model.specs.declared.programmes.Programme.{Programme};
ghost use Rattle.mmt_casting.specs.Numbered.{numbered_packet, numbered_packets, table_of};

use mmt_base::{LongTick, OutOfMemory};
use mmt_frag::{part_of, parts};
use mmt_model::{Carries, Programme, Sent};

/// A table that is sent: its place among the signalling messages, its tick, the bytes of its message,
/// and the number of its first packet.
#[derive(Clone, Copy, Debug)]
pub(crate) struct Message {
    pub signal: u32,
    pub at: u64,
    pub bytes: u32,
    pub number: u32,
}

/// The packet of a buffer message.
#[tactic(auto, unfolding(crate::specs::Numbered::numbered_packet, mmt_cast::specs::Casting::with_number, mmt_cast::specs::Sending::packet_of, mmt_cast::specs::Sending::tick_of_packet, mmt_cast::specs::Sending::id_of, mmt_cast::specs::Sending::rap_of, mmt_cast::specs::Sending::payload_length, mmt_cast::specs::Sending::carried))]
pub(crate) fn parameters_packet(signal: u32, at: LongTick, number: u32) -> Sent
    ensures { (programme : Programme) → result ≡ numbered_packet programme (Sending.Parameters signal at.0) number 0 }
{
    Sent {
        at,
        packet_id: 0,
        number,
        rap: false,
        length: 19,
        carries: Carries::Parameters { signal },
    }
}

/// Packet number `k` of a table.
#[tactic(auto, unfolding(crate::specs::Numbered::numbered_packet, mmt_cast::specs::Casting::with_number, mmt_cast::specs::Sending::packet_of, mmt_cast::specs::Sending::tick_of_packet, mmt_cast::specs::Sending::id_of, mmt_cast::specs::Sending::rap_of, mmt_cast::specs::Sending::payload_length, mmt_cast::specs::Sending::carried))]
fn table_packet(programme: &Programme, message: Message, k: u32) -> Sent
    requires limit { 1 ≤ programme.now.limit }
    requires short { programme.now.limit < 2 ^ 31 }
    requires spacing { programme.now.spacing < 2 ^ 16 }
    requires at { message.at ≤ 2 ^ 48 }
    requires place { k < parts_of message.bytes programme.now.limit }
    requires numbers { message.number + parts_of message.bytes programme.now.limit < 2 ^ 32 }
    ensures { result ≡ numbered_packet programme.now (table_of message) message.number k }
{
    let part = part_of(message.bytes, programme.limit, k);
    let carries = if parts(message.bytes, programme.limit) == 1 {
        Carries::Table {
            signal: message.signal,
        }
    } else {
        Carries::TablePart {
            signal: message.signal,
            number: k,
        }
    };
    Sent {
        at: LongTick(message.at + k as u64 * programme.spacing as u64),
        packet_id: 0,
        number: message.number + k,
        rap: false,
        length: 2 + part.length,
        carries,
    }
}

/// Appends the packets of a table.
pub(crate) fn put_table(
    out: &mut Vec<Sent>,
    programme: &Programme,
    message: Message,
) -> Result<(), OutOfMemory>
    requires limit { 1 ≤ programme.now.limit }
    requires short { programme.now.limit < 2 ^ 31 }
    requires spacing { programme.now.spacing < 2 ^ 16 }
    requires at { message.at ≤ 2 ^ 48 }
    requires numbers { message.number + parts_of message.bytes programme.now.limit < 2 ^ 32 }
    ensures { OnOk result (out.new.items ≡ out.old.items ++ numbered_packets programme.now (table_of message) message.number) }
{
    for k in 0..parts(message.bytes, programme.limit) {
        out.push(table_packet(programme, message, k))?;
    }
    Ok(())
}

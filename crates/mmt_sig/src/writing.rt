//! Writing payloads and messages.

ghost use Rattle.std.specs.Prelude.{◌≡◌, ◌+◌, ◌-◌, ◌*◌, ◌<◌, ◌≤◌, ◌^◌, false, List, [], ◌∷◌, ◌++◌, length, OnOk, OnErr, slice_index};
ghost use Rattle.mmt_sig.specs.Payload.{Fits, spelling, flags as flags_of};
ghost use Rattle.mmt_sig.specs.Tables.{HasOwnLength, sent_table};
ghost use Rattle.mmt_sig.specs.Message.{AreRight, MessageIsRight, message_spelling, PaMessage, HrbmMessage};

use crate::head::SigHead;
use crate::reading_messages::{HRBM_ID, PA_ID};
use mmt_base::OutOfMemory;
use mmt_fields::{put_bytes, put_u8, put_u16, put_u32};
use mmt_model::Params;

fn flags(head: &SigHead) -> u8
    requires { head.now.reserved < 16 }
    ensures { result ≡ flags_of head.now }
{
    64 * head.part.indicator()
        + 4 * head.reserved
        + 2 * u8::from(head.long)
        + u8::from(head.aggregated)
}

/// Appends a signalling payload whose bytes are one message or a part of one (ISO/IEC 23008-1, the
/// header of the signalling message mode). Want of memory leaves `out` as it was.
#[tactic(auto, using(std::proofs::Common::append_assoc, crate::proofs::Written::one_alone), unfolding(crate::specs::Payload::spelling))]
pub fn write_sig(out: &mut Vec<u8>, head: &SigHead, bytes: &[u8]) -> Result<(), OutOfMemory>
    requires alone { head.now.aggregated ≡ false }
    requires reserved { head.now.reserved < 16 }
    ensures ok { OnOk result (out.new.items ≡ out.old.items ++ spelling (record { head = head.now; messages = bytes.now ∷ [] })) }
    ensures fits { OnOk result (Fits (record { head = head.now; messages = bytes.now ∷ [] })) }
    ensures err { OnErr result (out.new.items ≡ out.old.items) }
{
    out.reserve(2 + bytes.len())?;
    put_u8(out, flags(head));
    put_u8(out, head.counter);
    put_bytes(out, bytes);
    Ok(())
}

/// Appends a buffer message: its version, and the bound in bytes and the window and the delay in
/// ticks. Want of memory leaves `out` as it was.
#[tactic(auto, using(std::proofs::Common::append_assoc), unfolding(crate::specs::Message::message_spelling, crate::specs::Message::hrbm_bytes))]
pub fn write_hrbm(out: &mut Vec<u8>, version: u8, params: &Params) -> Result<(), OutOfMemory>
    requires { AreRight params.now }
    ensures ok { OnOk result (out.new.items ≡ out.old.items ++ message_spelling (HrbmMessage (record { version = version; params = params.now }))) }
    ensures fits { OnOk result (MessageIsRight (HrbmMessage (record { version = version; params = params.now }))) }
    ensures err { OnErr result (out.new.items ≡ out.old.items) }
{
    out.reserve(17)?;
    put_u16(out, HRBM_ID);
    put_u8(out, version);
    put_u16(out, 12);
    put_u32(out, params.bound);
    put_u32(out, params.window);
    put_u32(out, params.delay);
    Ok(())
}

/// The directory entry of a table: its own id and version, and the length of the whole table.
fn entry_of(table: &[u8]) -> u32
    requires least { 4 ≤ length table.now }
    requires most { length table.now < 2 ^ 16 }
    ensures { result ≡ slice_index table.now 0 * 2 ^ 24 + slice_index table.now 1 * 2 ^ 16 + length table.now }
{
    (table[0] as u32) * (1 << 24) + (table[1] as u32) * (1 << 16) + table.len() as u32
}

/// Appends a PA message of one table, which is given with its header (ISO/IEC 23008-1, PA message).
/// The directory lists the table's own id and version and the length of the whole table. Want of
/// memory leaves `out` as it was.
#[tactic(auto, using(std::proofs::Common::append_assoc, crate::proofs::Written::sent_inner, crate::proofs::Written::sent_length), unfolding(crate::specs::Message::message_spelling, crate::specs::Message::pa_bytes))]
pub fn write_pa(out: &mut Vec<u8>, version: u8, table: &[u8]) -> Result<(), OutOfMemory>
    requires least { 4 ≤ length table.now }
    requires most { length table.now < 2 ^ 16 }
    requires own_length { HasOwnLength table.now }
    ensures ok { OnOk result (out.new.items ≡ out.old.items ++ message_spelling (PaMessage (record { version = version; tables = sent_table table.now ∷ [] }))) }
    ensures fits { OnOk result (MessageIsRight (PaMessage (record { version = version; tables = sent_table table.now ∷ [] }))) }
    ensures err { OnErr result (out.new.items ≡ out.old.items) }
{
    let entry = entry_of(table);
    out.reserve(12 + table.len())?;
    put_u16(out, PA_ID);
    put_u8(out, version);
    put_u32(out, 5 + table.len() as u32);
    put_u8(out, 1);
    put_u32(out, entry);
    put_bytes(out, table);
    Ok(())
}

//! Writers of what a line tells of signalling. A line may tell much of a payload, so that each takes
//! the room that it needs as it goes.

ghost use Rattle.std.specs.Prelude.{◌≡◌, ◌+◌, ◌^◌, ◌<◌, ◌≤◌, ◌++◌, List, length, take, slice_index, vec_len, vec_capacity, Ok, OnOk};
ghost use Rattle.std.specs.List.{flat_map, All};
ghost use Rattle.mmt_sig.specs.View.{view as view_payload};
ghost use Rattle.mmt_sig.specs.Message.{PaMessage};
ghost use Rattle.mmt_sig.specs.MessageView.{view_pa};
ghost use Rattle.mmt_sig.specs.TableView.{view_table};
ghost use Rattle.mmt_mpt.specs.Table.{mpt_id};
ghost use Rattle.mmt_mpt.specs.TableReading.{mpt_of};
ghost use Rattle.mmt_mpt.specs.TableView.{view as view_mpt};
ghost use Rattle.mmt_words.specs.Words.{message_word, mpt_word};
ghost use Rattle.mmt_list.specs.Signalling.{refused_part, mpt_text, table_text, hrbm_text, other_text, message_text, read_text, messages_text, sig_text};

use crate::names::put_names;
use crate::services::put_plt;
use itoa::Buffer;
use mmt_base::OutOfMemory;
use mmt_fields::put_bytes;
use mmt_model::{Params, Part};
use mmt_mpt::{Mpt, MptWhy, read_mpt};
use mmt_sig::{Message, MessageWhy, Pa, SigPayload, Table, read_message};
use mmt_words::{put_message_why, put_mpt_why, put_number};

/// Appends the section of a signalling payload up to its messages.
#[tactic(auto, unfolding(crate::specs::Signalling::sig_text))]
pub fn put_sig(digits: &mut Buffer, out: &mut Vec<u8>, payload: &SigPayload<'_>)
    requires { vec_len out.old + 72 ≤ vec_capacity out.old }
    ensures items { out.new.items ≡ out.old.items ++ sig_text (view_payload payload.now) }
    ensures grows { vec_len out.old ≤ vec_len out.new }
    ensures len { vec_len out.new ≤ vec_len out.old + 72 }
    ensures capacity { vec_capacity out.old ≤ vec_capacity out.new }
{
    let head = payload.head();
    put_number(digits, out, b" | sig part ", head.part.indicator() as u64);
    put_number(digits, out, b" messages ", payload.count() as u64);
}

// Appends the refusal of a message.
#[tactic(auto, unfolding(crate::specs::Signalling::refused_part))]
fn put_refused_message(out: &mut Vec<u8>, why: MessageWhy) -> Result<(), OutOfMemory>
    ensures items { OnOk result (out.new.items ≡ out.old.items ++ refused_part (message_word why)) }
    ensures front { take (vec_len out.old) out.new.items ≡ out.old.items }
{
    out.reserve(40)?;
    put_bytes(out, b" [refused ");
    put_message_why(out, why);
    put_bytes(out, b"]");
    Ok(())
}

// Appends the refusal of an MPT.
#[tactic(auto, unfolding(crate::specs::Signalling::refused_part))]
fn put_refused_mpt(out: &mut Vec<u8>, why: MptWhy) -> Result<(), OutOfMemory>
    ensures items { OnOk result (out.new.items ≡ out.old.items ++ refused_part (mpt_word why)) }
    ensures front { take (vec_len out.old) out.new.items ≡ out.old.items }
{
    out.reserve(40)?;
    put_bytes(out, b" [refused ");
    put_mpt_why(out, why);
    put_bytes(out, b"]");
    Ok(())
}

// Appends a buffer message.
#[tactic(auto, unfolding(crate::specs::Signalling::hrbm_text))]
fn put_hrbm(digits: &mut Buffer, out: &mut Vec<u8>, params: &Params) -> Result<(), OutOfMemory>
    ensures items { OnOk result (out.new.items ≡ out.old.items ++ hrbm_text params.now) }
    ensures front { take (vec_len out.old) out.new.items ≡ out.old.items }
{
    out.reserve(120)?;
    put_number(digits, out, b" [hrbm ", params.bound as u64);
    put_number(digits, out, b" ", params.window as u64);
    put_number(digits, out, b" ", params.delay as u64);
    put_bytes(out, b"]");
    Ok(())
}

// How many assets an MPT has.
#[tactic(auto, using(crate::proofs::Assets::length_placed))]
fn assets_of(mpt: &Mpt<'_>) -> u32
    requires { length (view_mpt mpt.now).assets < 2 ^ 8 }
    ensures { result ≡ length (view_mpt mpt.now).assets }
{
    let mut count = 0;
    for _asset in mpt.assets() {
        count += 1;
    }
    count
}

// Appends an MPT that was read.
#[tactic(auto, unfolding(crate::specs::Signalling::mpt_text))]
fn put_read_mpt(digits: &mut Buffer, out: &mut Vec<u8>, mpt: &Mpt<'_>) -> Result<(), OutOfMemory>
    requires { length (view_mpt mpt.now).assets < 2 ^ 8 }
    ensures items { OnOk result (out.new.items ≡ out.old.items ++ mpt_text (Ok (view_mpt mpt.now))) }
    ensures front { take (vec_len out.old) out.new.items ≡ out.old.items }
{
    out.reserve(36)?;
    put_number(digits, out, b" [mpt ", assets_of(mpt) as u64);
    put_names(digits, out, mpt)?;
    out.reserve(1)?;
    put_bytes(out, b"]");
    Ok(())
}

// Appends the MPT that a table is.
#[tactic(auto, unfolding(crate::specs::Signalling::mpt_text))]
fn put_mpt(digits: &mut Buffer, out: &mut Vec<u8>, table: &[u8]) -> Result<(), OutOfMemory>
    requires short { length table.now < 2 ^ 17 }
    requires id { slice_index table.now 0 ≡ mpt_id }
    ensures items { OnOk result (out.new.items ≡ out.old.items ++ mpt_text (mpt_of table.now)) }
    ensures front { take (vec_len out.old) out.new.items ≡ out.old.items }
{
    match read_mpt(table) {
        Ok(mpt) => put_read_mpt(digits, out, &mpt),
        Err(refused) => put_refused_mpt(out, refused.why),
    }
}

/// The table id of an MPT.
const MPT_ID: u8 = 0x20;

/// The table id of a PLT.
const PLT_ID: u8 = 0x80;

// Appends a table where it is an MPT or a PLT.
#[tactic(auto, unfolding(crate::specs::Signalling::table_text))]
fn put_table(digits: &mut Buffer, out: &mut Vec<u8>, table: &Table<'_>) -> Result<(), OutOfMemory>
    requires short { length table.now.bytes.now < 2 ^ 17 }
    requires id { slice_index table.now.bytes.now 0 ≡ table.now.id }
    ensures items { OnOk result (out.new.items ≡ out.old.items ++ table_text (view_table table.now)) }
    ensures front { take (vec_len out.old) out.new.items ≡ out.old.items }
{
    if table.id == MPT_ID {
        put_mpt(digits, out, table.bytes)
    } else if table.id == PLT_ID {
        put_plt(digits, out, table.bytes)
    } else {
        Ok(())
    }
}

// Appends the MPTs and the PLTs among the tables of a PA message.
fn put_tables(digits: &mut Buffer, out: &mut Vec<u8>, pa: &Pa<'_>) -> Result<(), OutOfMemory>
    ensures items { OnOk result (out.new.items ≡ out.old.items ++ flat_map table_text (view_pa pa.now).tables) }
    ensures front { take (vec_len out.old) out.new.items ≡ out.old.items }
{
    for table in pa.tables() {
        put_table(digits, out, &table)?;
    }
    Ok(())
}

// Appends a PA message.
#[tactic(auto, unfolding(crate::specs::Signalling::message_text))]
fn put_pa(digits: &mut Buffer, out: &mut Vec<u8>, pa: &Pa<'_>) -> Result<(), OutOfMemory>
    ensures items { OnOk result (out.new.items ≡ out.old.items ++ message_text (Ok (PaMessage (view_pa pa.now)))) }
    ensures front { take (vec_len out.old) out.new.items ≡ out.old.items }
{
    out.reserve(36)?;
    put_number(digits, out, b" [pa ", pa.count() as u64);
    put_tables(digits, out, pa)?;
    out.reserve(1)?;
    put_bytes(out, b"]");
    Ok(())
}

// Appends a message that is neither a PA message nor a buffer message.
#[tactic(auto, unfolding(crate::specs::Signalling::other_text))]
fn put_other(digits: &mut Buffer, out: &mut Vec<u8>, id: u16) -> Result<(), OutOfMemory>
    ensures items { OnOk result (out.new.items ≡ out.old.items ++ other_text id) }
    ensures front { take (vec_len out.old) out.new.items ≡ out.old.items }
{
    out.reserve(40)?;
    put_number(digits, out, b" [message ", id as u64);
    put_bytes(out, b"]");
    Ok(())
}

// Appends the message that bytes are.
#[tactic(auto, unfolding(crate::specs::Signalling::message_text))]
fn put_message(digits: &mut Buffer, out: &mut Vec<u8>, bytes: &[u8]) -> Result<(), OutOfMemory>
    requires { length bytes.now < 2 ^ 31 }
    ensures items { OnOk result (out.new.items ≡ out.old.items ++ read_text bytes.now) }
    ensures front { take (vec_len out.old) out.new.items ≡ out.old.items }
{
    match read_message(bytes) {
        Ok(Message::Pa(pa)) => put_pa(digits, out, &pa),
        Ok(Message::Hrbm { version: _, params }) => put_hrbm(digits, out, &params),
        Ok(Message::Other { id, bytes: _ }) => put_other(digits, out, id),
        Err(refused) => put_refused_message(out, refused.why),
    }
}

// Appends the messages of a payload, each of them whole.
fn put_whole(
    digits: &mut Buffer,
    out: &mut Vec<u8>,
    payload: &SigPayload<'_>,
) -> Result<(), OutOfMemory>
    ensures items { OnOk result (out.new.items ≡ out.old.items ++ flat_map read_text (view_payload payload.now).messages) }
    ensures front { take (vec_len out.old) out.new.items ≡ out.old.items }
{
    for message in payload.messages() {
        put_message(digits, out, message)?;
    }
    Ok(())
}

/// Appends the messages of a payload, and nothing where it carries a part of one.
pub fn put_messages(
    digits: &mut Buffer,
    out: &mut Vec<u8>,
    payload: &SigPayload<'_>,
) -> Result<(), OutOfMemory>
    ensures items { OnOk result (out.new.items ≡ out.old.items ++ messages_text (view_payload payload.now)) }
    ensures front { take (vec_len out.old) out.new.items ≡ out.old.items }
{
    match payload.head().part {
        Part::Whole => put_whole(digits, out, payload),
        Part::First => Ok(()),
        Part::Middle => Ok(()),
        Part::Last => Ok(()),
    }
}

//! Writing signalling messages.

ghost use Rattle.std.specs.Prelude.{◌≡◌, ◌+◌, ◌*◌, ◌%◌, ◌<◌, ◌≤◌, ◌++◌, [], ◌∷◌, None, length, vec_len, vec_capacity, OnOk, OnErr};
ghost use Rattle.mmt_cast.specs.Refusing.{refusal};
ghost use Rattle.mmt_cast.specs.SentTables.{sent_table};
ghost use Rattle.mmt_cast.specs.Tables.{table_length};
ghost use Rattle.mmt_model.specs.Right.{IsRight};
ghost use Rattle.mmt_mpt.specs.Table.{mpt_spelling};
ghost use Rattle.mmt_sent.specs.Messages.{message_bytes, tables_before};
ghost use Rattle.mmt_sig.specs.Message.{HrbmMessage, PaMessage, message_spelling};
ghost use Rattle.mmt_sig.specs.Tables.{sent_table as listed_table};
ghost use Rattle.mmt_signals.specs.Named.{FitsTables, MayBeNamed};

use crate::assets::{assets_size, put_assets};
use mmt_base::OutOfMemory;
use mmt_fields::{put_bytes, put_u8, put_u16, put_u32};
use mmt_model::{Params, Programme, Signal};

/// The id of a PA message (ISO/IEC 23008-1).
const PA_ID: u16 = 0;

/// The id of the buffer message, this project's own.
const HRBM_ID: u16 = 0xF100;

/// The table id of an MPT (ARIB STD-B60).
const MPT_ID: u8 = 0x20;

/// How many bytes a table with these names takes.
#[tactic(auto, using(crate::proofs::Tables::table_parts))]
fn table_size(programme: &Programme, names: &[(u32, u32)]) -> usize
    requires fits { FitsTables programme.now }
    requires names { MayBeNamed programme.now names.now }
    ensures { result ≡ table_length programme.now names.now }
{
    9 + programme.package.len() + assets_size(programme.assets.as_slice(), names)
}

/// Appends a table of N bytes, with these names, where there is room for it.
#[tactic(auto, using(std::proofs::Common::append_assoc, crate::proofs::Tables::table_are, crate::proofs::Tables::table_parts, crate::proofs::Tables::table_room))]
fn put_table(
    out: &mut Vec<u8>,
    programme: &Programme,
    version: u8,
    names: &[(u32, u32)],
    size: usize,
)
    requires fits { FitsTables programme.now }
    requires names { MayBeNamed programme.now names.now }
    requires size { size ≡ table_length programme.now names.now }
    requires room { vec_len out.old + size ≤ vec_capacity out.old }
    ensures { out.new.items ≡ out.old.items ++ mpt_spelling (sent_table programme.now version names.now) }
{
    put_u8(out, MPT_ID);
    put_u8(out, version);
    put_u16(out, (size - 4) as u16);
    put_u8(out, 0b1111_1100);
    put_u8(out, programme.package.len() as u8);
    put_bytes(out, programme.package.as_slice());
    put_u16(out, 0);
    put_u8(out, programme.assets.len() as u8);
    put_assets(out, programme.assets.as_slice(), names);
}

/// Appends a PA message of version 0 with one table. Where there is no memory, `out` stays as it was.
#[tactic(auto, using(std::proofs::Common::append_assoc, crate::proofs::Tables::message_are, crate::proofs::Tables::table_parts))]
pub(crate) fn put_pa(
    out: &mut Vec<u8>,
    programme: &Programme,
    version: u8,
    names: &[(u32, u32)],
) -> Result<(), OutOfMemory>
    requires fits { FitsTables programme.now }
    requires names { MayBeNamed programme.now names.now }
    ensures ok { OnOk result (out.new.items ≡ out.old.items ++ message_spelling (PaMessage
        (record { version = 0; tables = listed_table (mpt_spelling (sent_table programme.now version names.now)) ∷ [] }))) }
    ensures err { OnErr result (out.new.items ≡ out.old.items) }
{
    let size = table_size(programme, names);
    out.reserve(12 + size)?;
    put_u16(out, PA_ID);
    put_u8(out, 0);
    put_u32(out, 5 + size as u32);
    put_u8(out, 1);
    put_u32(
        out,
        (MPT_ID as u32) * (1 << 24) + (version as u32) * (1 << 16) + size as u32,
    );
    put_table(out, programme, version, names, size);
    Ok(())
}

/// Appends a buffer message of version 0. Where there is no memory, `out` stays as it was.
#[tactic(auto, using(std::proofs::Common::append_assoc), unfolding(mmt_sig::specs::Message::message_spelling, mmt_sig::specs::Message::hrbm_bytes))]
fn put_hrbm(out: &mut Vec<u8>, params: &Params) -> Result<(), OutOfMemory>
    ensures ok { OnOk result (out.new.items ≡ out.old.items
        ++ message_spelling (HrbmMessage (record { version = 0; params = params.now }))) }
    ensures err { OnErr result (out.new.items ≡ out.old.items) }
{
    out.reserve(17)?;
    put_u16(out, HRBM_ID);
    put_u8(out, 0);
    put_u16(out, 12);
    put_u32(out, params.bound);
    put_u32(out, params.window);
    put_u32(out, params.delay);
    Ok(())
}

/// Appends signalling message number `at` of a programme, `earlier` of whose signalling messages before it are
/// tables: a buffer message with the programme's values, or a PA message with one MPT, whose version is `earlier`
/// modulo 256 (ISO/IEC 23008-1, the PA message; ARIB STD-B60, MMT Package Table). The MPT has all assets of the
/// programme, and in each the presentation times of those MPUs that the signalling message names and the offsets of
/// their access units. All memory is taken at once, before the first byte is written.
///
/// # Errors
///
/// `OutOfMemory`, which leaves `out` as it was.
pub fn put_message(
    out: &mut Vec<u8>,
    programme: &Programme,
    at: usize,
    earlier: u32,
) -> Result<(), OutOfMemory>
    requires right { IsRight programme.now }
    requires cast { refusal programme.now ≡ None }
    requires at { at < length programme.now.signals }
    requires earlier { earlier ≡ tables_before programme.now at }
    ensures ok { OnOk result (out.new.items ≡ out.old.items ++ message_bytes programme.now at) }
    ensures err { OnErr result (out.new.items ≡ out.old.items) }
{
    match &programme.signals.as_slice()[at] {
        Signal::Parameters { .. } => put_hrbm(out, &programme.params),
        Signal::Table { names, .. } => {
            put_pa(out, programme, (earlier % 256) as u8, names.as_slice())
        }
    }
}

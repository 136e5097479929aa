//! Writing an MPT that is owned.

ghost use Rattle.std.specs.Prelude.{◌≡◌, ◌+◌, ◌^◌, ◌<◌, ◌≤◌, ◌++◌, length, vec_len, vec_capacity, Ok, IfErr, OnOk, OnErr};
ghost use Rattle.mmt_mpt.specs.Table.{PartsFit, MptFits, mpt_inner, mpt_spelling};
ghost use Rattle.mmt_mpt.specs.TableReading.{mpt_of};
ghost use Rattle.mmt_mpt.specs.TableWriting.{StaysUnwritten};
ghost use Rattle.mmt_mpt.specs.Owned.{owned_mpt};

use crate::owned::OwnedMpt;
use crate::unwritten::Unwritten;
use crate::writing_assets::{assets_size, put_assets};
use crate::writing_descriptors::{descriptors_size, put_descriptors};
use mmt_fields::{put_bytes, put_u8, put_u16};

const MPT_ID: u8 = 0x20;

/// How many bytes follow the table's length.
#[tactic(auto, using(crate::proofs::Sizes::inner_long, crate::proofs::Sizes::assets_most))]
fn inner_size(mpt: &OwnedMpt) -> u64
    requires { PartsFit (owned_mpt mpt.now) }
    ensures { result ≡ length (mpt_inner (owned_mpt mpt.now)) }
{
    let descriptors = descriptors_size(mpt.descriptors.as_slice());
    let assets = assets_size(mpt.assets.as_slice());
    5 + mpt.package.len() as u64 + descriptors + assets
}

/// Appends what follows the table's length where there is room for it.
#[tactic(auto, using(std::proofs::Common::append_assoc, crate::proofs::Sizes::inner_long), unfolding(crate::specs::Table::mpt_inner))]
fn put_inner(out: &mut Vec<u8>, mpt: &OwnedMpt)
    requires fits { PartsFit (owned_mpt mpt.now) }
    requires room { vec_len out.old + length (mpt_inner (owned_mpt mpt.now)) ≤ vec_capacity out.old }
    ensures { out.new.items ≡ out.old.items ++ mpt_inner (owned_mpt mpt.now) }
{
    put_u8(out, 4 * mpt.reserved + mpt.mode);
    put_u8(out, mpt.package.len() as u8);
    put_bytes(out, mpt.package.as_slice());
    put_descriptors(out, mpt.descriptors.as_slice());
    put_u8(out, mpt.assets.len() as u8);
    put_assets(out, mpt.assets.as_slice());
}

/// Appends the table (ARIB STD-B60, MMT Package Table): what `read_mpt` reads as the same value, and
/// for a table that `read_mpt` read and `own_mpt` copied, the very bytes that it was read from. The
/// mode has two bits, and the reserved bits of the table, of an asset and of a location have six,
/// seven and three; a PID has 13. Each length and count fits its field; the table's own length need
/// not.
///
/// # Errors
///
/// `TooLong` exactly where the bytes after the table's length field would be more than 65,535, with
/// how many they would be; it comes before any memory is asked for. `OutOfMemory` else. Both leave
/// `out` as it was.
#[tactic(auto, using(std::proofs::Common::append_assoc), unfolding(crate::specs::Table::mpt_spelling))]
pub fn write_mpt(out: &mut Vec<u8>, mpt: &OwnedMpt) -> Result<(), Unwritten>
    requires { PartsFit (owned_mpt mpt.now) }
    ensures ok { OnOk result (out.new.items ≡ out.old.items ++ mpt_spelling (owned_mpt mpt.now)) }
    // What was written has a spelling, and is read back as that table.
    ensures fits { OnOk result (MptFits (owned_mpt mpt.now)) }
    ensures read { OnOk result (mpt_of (mpt_spelling (owned_mpt mpt.now)) ≡ Ok (owned_mpt mpt.now)) }
    // Which refusal it is.
    ensures why { IfErr result (λ e. StaysUnwritten (owned_mpt mpt.now) e) }
    // What a refusal leaves.
    ensures err { OnErr result (out.new.items ≡ out.old.items) }
{
    let size = inner_size(mpt);
    if size > 65535 {
        return Err(Unwritten::TooLong(size));
    }
    out.reserve(4 + size as usize)?;
    put_u8(out, MPT_ID);
    put_u8(out, mpt.version);
    put_u16(out, size as u16);
    put_inner(out, mpt);
    Ok(())
}

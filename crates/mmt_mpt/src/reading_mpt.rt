//! Reading an MPT.

ghost use Rattle.std.specs.Prelude.{◌≡◌, ◌+◌, ◌<◌, ◌≤◌, ◌^◌, List, length, slice_index, IfOk, IfErr, Ok, Err};
ghost use Rattle.std.specs.List.{flat_map};
ghost use Rattle.mmt_fields.specs.Reading.{Gives};
ghost use Rattle.mmt_fields.specs.Items.{all_items};
ghost use Rattle.mmt_lists.specs.Counted.{counted};
ghost use Rattle.mmt_mpt.specs.Refusals.{in_table as as_table};
ghost use Rattle.mmt_mpt.specs.Descriptor.{descriptor_bytes};
ghost use Rattle.mmt_mpt.specs.DescriptorReading.{descriptor_at, descriptors_at as descriptors_by};
ghost use Rattle.mmt_mpt.specs.AssetReading.{asset_at as asset_from};
ghost use Rattle.mmt_mpt.specs.Table.{MptValue, MptFits, mpt_spelling, mpt_id};
ghost use Rattle.mmt_mpt.specs.TableReading.{assets_of, mpt_of};
ghost use Rattle.mmt_mpt.specs.TableView.{view};

use crate::mpt::Mpt;
use crate::mpt_why::{MptWhy, in_table};
use crate::reading_assets::asset_at;
use crate::reading_descriptors::descriptors_at;
use mmt_base::Refused;
use mmt_fields::{bytes_at, u8_at, u16_at};

/// The bytes of a table's descriptors after their length, and what follows them.
fn table_descriptors(at: u32, bytes: &[u8]) -> Result<(&[u8], &[u8]), Refused<MptWhy>>
    requires { at + length bytes.now < 2 ^ 31 }
    ensures gives { Gives (λ x. ((all_items descriptor_at (at + 2) x.0.now).items, x.1.now)) result (as_table 0 (descriptors_by at bytes.now)) }
    ensures len { IfOk result (λ x. length x.0.now + length x.1.now + 2 ≡ length bytes.now) }
    ensures whole { IfOk result (λ x. length (flat_map descriptor_bytes (all_items descriptor_at (at + 2) x.0.now).items) ≡ length x.0.now) }
    ensures place { IfErr result (λ e. e.at ≤ at + length bytes.now) }
{
    match descriptors_at(at, bytes) {
        Ok(found) => Ok(found),
        Err(refused) => Err(in_table(0, refused)),
    }
}

/// What follows so many assets.
#[tactic(auto, using(crate::proofs::TableSteps::assets_refused, crate::proofs::TableSteps::assets_done))]
fn after_assets(count: u8, from: u32, bytes: &[u8]) -> Result<&[u8], Refused<MptWhy>>
    requires { from + length bytes.now < 2 ^ 31 }
    ensures gives { Gives (λ rest. ((counted count asset_from from bytes.now).items, rest.now)) result (assets_of count from bytes.now) }
    ensures shorter { IfOk result (λ rest. length rest.now ≤ length bytes.now) }
    ensures place { IfErr result (λ e. e.at ≤ from + length bytes.now) }
{
    let mut number = 0;
    let mut at = from;
    let mut rest = bytes;
    while number < count {
        let after = match asset_at(at, rest) {
            Ok(found) => found.1,
            Err(refused) => return Err(in_table(number, refused)),
        };
        at += (rest.len() - after.len()) as u32;
        rest = after;
        number += 1;
    }
    Ok(rest)
}

#[tactic(auto, unfolding(crate::specs::TableReading::mpt_of))]
fn mpt_from(table: &[u8]) -> Result<Mpt<'_>, Refused<MptWhy>>
    requires { length table.now < 2 ^ 31 }
    ensures gives { Gives view result (mpt_of table.now) }
    ensures place { IfErr result (λ e. e.at ≤ length table.now) }
{
    let (_, rest) = u8_at(table, 0, MptWhy::Short)?;
    let (version, rest) = u8_at(rest, 1, MptWhy::Short)?;
    let (len, rest) = u16_at(rest, 2, MptWhy::Short)?;
    if rest.len() != len as usize {
        return Err(Refused {
            at: 2,
            why: MptWhy::Length,
        });
    }
    let end = 4 + len as u32;
    let (flags, rest) = u8_at(rest, 4, MptWhy::Short)?;
    let (package_len, rest) = u8_at(rest, 5, MptWhy::Short)?;
    let (package_id, rest) = bytes_at(rest, package_len as usize, 6, MptWhy::Short)?;
    let descriptors_at = 6 + package_len as u32;
    let (descriptors, rest) = table_descriptors(descriptors_at, rest)?;
    let (count, assets) = u8_at(rest, end - rest.len() as u32, MptWhy::Short)?;
    let assets_at = end - assets.len() as u32;
    let rest = after_assets(count, assets_at, assets)?;
    if !rest.is_empty() {
        return Err(Refused {
            at: end - rest.len() as u32,
            why: MptWhy::Length,
        });
    }
    Ok(Mpt {
        version,
        mode: flags % 4,
        reserved: flags / 4,
        package_id,
        descriptors_at: descriptors_at + 2,
        descriptors,
        count,
        assets_at,
        assets,
    })
}

/// Reads the MPT that a table of id 0x20 is as a whole, or says which check fails first, and where
/// (ARIB STD-B60, MMT Package Table).
pub fn read_mpt(table: &[u8]) -> Result<Mpt<'_>, Refused<MptWhy>>
    requires len { length table.now < 2 ^ 31 }
    requires id { slice_index table.now 0 ≡ mpt_id }
    // What is read is spelled so.
    ensures found { IfOk result (λ m. MptFits (view m) × (table.now ≡ mpt_spelling (view m))) }
    // What is spelled so is read.
    ensures only { (v : MptValue) → MptFits v → table.now ≡ mpt_spelling v → Gives view result (Ok v) }
    // Which refusal it is, and where.
    ensures exact { Gives view result (mpt_of table.now) }
    // The place lies within the table, or directly behind it.
    ensures place { IfErr result (λ e. e.at ≤ length table.now) }
{
    mpt_from(table)
}

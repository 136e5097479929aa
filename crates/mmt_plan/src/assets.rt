//! The assets of a plan.

ghost use Rattle.std.specs.Prelude.{◌≡◌, true, IfSome, ◌≤◌, ◌<◌, ◌+◌, ◌^◌, length, IfOk, OnOk};
ghost use Rattle.serde_json.specs.View.{view, items_view};
ghost use Rattle.mmt_plan.specs.Assets.{is_printed, kind_at, kind_in, asset_of, asset_at};
ghost use Rattle.mmt_plan.specs.Nodes.{nodes, item_nodes};
ghost use Rattle.mmt_plan.specs.Names.{with_name};
ghost use Rattle.std.specs.List.{All};
ghost use Rattle.mmt_model.specs.Right.{IsFileName, IsKind};
ghost use Rattle.mmt_plan.specs.Alone.{IsAssetAlone};
ghost use Rattle.mmt_plan.specs.Reading.{IsAnswer, ok_map, each_with};

use crate::ends::{PlanEnd, PlanPart, Reason, Refusal};
use crate::members::{boolean, member, no_other, number, object, text};
use crate::names::FileNames;
use crate::parts::list_from;
use crate::spots::Spot;
use mmt_base::OutOfMemory;
use mmt_model::{Asset, List};
use serde_json::Value;
use std::alloc::Global;

/// The bytes of a text.
pub fn bytes_of(alloc: Global, text: &str) -> Result<List<u8>, OutOfMemory>
    ensures { IfOk result (λ list. list ≡ text.now) }
{
    match text.as_bytes().to_vec(alloc) {
        Ok(bytes) => Ok(List::from_vec(bytes)),
        Err(_) => Err(OutOfMemory),
    }
}

// Whether a byte is of the ASCII characters that are printed.
fn is_printed(byte: u8) -> bool
    ensures { result ≡ is_printed byte }
{
    32 <= byte && byte <= 126
}

// The asset type whose four characters a text is.
#[tactic(auto, using(crate::proofs::FourCharacters::four))]
fn kind_in(text: &str) -> Option<u32>
    ensures value { result ≡ kind_in text.now }
    ensures range { IfSome result IsKind }
{
    let bytes = text.as_bytes();
    if bytes.len() != 4 {
        return None;
    }
    let (a, b, c, d) = (bytes[0], bytes[1], bytes[2], bytes[3]);
    if is_printed(a) && is_printed(b) && is_printed(c) && is_printed(d) {
        Some(a as u32 * 0x100_0000 + b as u32 * 0x1_0000 + c as u32 * 0x100 + d as u32)
    } else {
        None
    }
}

// The type of an asset.
#[tactic(auto, unfolding(crate::specs::Assets::kind_at))]
fn kind(value: &Value, spot: Spot) -> Result<u32, Refusal>
    ensures value { result ≡ kind_at spot (view value.now) }
    ensures range { IfOk result IsKind }
{
    match member(value, spot, 3, "type")?.as_str() {
        Some(text) => match kind_in(text) {
            Some(kind) => Ok(kind),
            None => Err(spot.refused(Reason::Value, 3)),
        },
        None => Err(spot.refused(Reason::Value, 3)),
    }
}

// The asset that a value is. Its file gets the next number where its name is new.
#[tactic(auto, unfolding(crate::specs::Assets::asset_of))]
fn asset(alloc: Global, value: &Value, spot: Spot, files: &mut FileNames) -> Result<Asset, PlanEnd>
    requires start { spot.start ≤ 2 ^ 47 }
    requires small { nodes (view value.now) < 2 ^ 32 }
    requires room { length files.old < 2 ^ 32 }
    ensures value { IsAnswer (asset_of spot files.old (view value.now)) (ok_map (λ x. (x, files.new)) result) }
    ensures grows { OnOk result (length files.new ≤ length files.old + 1) }
    ensures kept { OnOk result (length files.old ≤ length files.new) }
    ensures right { IfOk result (IsAssetAlone spot.start (length files.new)) }
    ensures named { OnOk result (All IsFileName files.old → All IsFileName files.new) }
{
    object(value, spot)?;
    let packet_id = number(value, spot, 1, "packet_id", 1, 0xFFFF)?;
    let id = text(value, spot, 2, "id", 1, 255)?;
    let kind = kind(value, spot)?;
    let timed = boolean(value, spot, 4, "timed")?;
    let timescale = number(value, spot, 5, "timescale", 1, 0xFFFF_FFFF)?;
    let file = text(value, spot, 6, "file", 1, 255)?;
    let mpus = list_from(alloc, value, Spot { timed, ..spot }, 7, "mpus", 1)?;
    no_other(
        value,
        spot,
        &[
            "packet_id",
            "id",
            "type",
            "timed",
            "timescale",
            "file",
            "mpus",
        ],
    )?;
    let id = bytes_of(alloc, id)?;
    let file = files.number_of(alloc, file)?;
    Ok(Asset {
        packet_id: packet_id as u16,
        id,
        kind,
        timed,
        timescale: timescale as u32,
        file,
        mpus,
    })
}

/// The assets that the items of an array are, in order.
pub fn assets(
    alloc: Global,
    values: &Vec<Value>,
    spot: Spot,
    files: &mut FileNames,
) -> Result<List<Asset>, PlanEnd>
    requires start { spot.start ≤ 2 ^ 47 }
    requires small { item_nodes (items_view values.now.items) < 2 ^ 32 }
    requires room { length files.old + length values.now.items < 2 ^ 32 }
    ensures value { IsAnswer (each_with (asset_at spot) files.old 0 (items_view values.now.items))
        (ok_map (λ list. (list, files.new)) result) }
    ensures right { IfOk result (λ list. All (IsAssetAlone spot.start (length files.new)) list) }
    ensures count { IfOk result (λ list. length list ≡ length values.now.items) }
    ensures named { OnOk result (All IsFileName files.old → All IsFileName files.new) }
{
    let mut list = List::new(alloc);
    let mut number = 0u32;
    for value in values {
        let asset = match asset(alloc, value, spot.inner(PlanPart::Asset, number), files) {
            Ok(asset) => asset,
            Err(end) => return Err(end),
        };
        list.push(asset)?;
        number += 1;
    }
    Ok(list)
}

//! Reading assets.

ghost use Rattle.std.specs.Prelude.{◌≡◌, ◌+◌, ◌-◌, ◌<◌, ◌≤◌, ◌^◌, List, [], ◌∷◌, length, IfOk, IfErr, IfSome, Ok, Some, None, MatchResult, MatchOption};
ghost use Rattle.mmt_fields.specs.Reading.{Gives};
ghost use Rattle.mmt_lists.specs.Counted.{counted};
ghost use Rattle.mmt_mpt.specs.LocationView.{view_location};
ghost use Rattle.mmt_mpt.specs.AssetReading.{place_at as place_by, head_at as head_by, asset_at as asset_from, assets_from};
ghost use Rattle.mmt_mpt.specs.AssetView.{view_asset, view_placed};
ghost use Rattle.mmt_mpt.specs.HeadView.{view_head};

use crate::asset_view::AssetView;
use crate::head::Head;
use crate::location::Location;
use crate::part_why::{PartWhy, part_why};
use crate::reading_descriptors::descriptors_at;
use crate::reading_locations::location_at;
use mmt_base::Refused;
use mmt_fields::{bytes_at, u8_at, u32_at};

/// A location of an asset, and what follows it.
#[tactic(auto, unfolding(crate::specs::AssetReading::place_at))]
fn place_at(at: u32, bytes: &[u8]) -> Result<(Location<'_>, &[u8]), Refused<PartWhy>>
    requires { at + length bytes.now < 2 ^ 31 }
    ensures gives { Gives (λ x. (view_location x.0, x.1.now)) result (place_by at bytes.now) }
    ensures shorter { IfOk result (λ x. length x.1.now ≤ length bytes.now) }
    ensures place { IfErr result (λ e. e.at ≤ at + length bytes.now) }
{
    match location_at(at, bytes) {
        Ok(found) => Ok(found),
        Err(refused) => Err(Refused {
            at: refused.at,
            why: part_why(refused.why),
        }),
    }
}

/// The first of the locations that are left, and the bytes after it.
pub(crate) fn first_place(left: u8, at: u32, bytes: &[u8]) -> Option<(Location<'_>, &[u8])>
    requires some { 0 < left }
    requires fits { at + length bytes.now < 2 ^ 31 }
    ensures first { MatchOption result ((counted left place_by at bytes.now).items ≡ [])
        (λ x. (counted left place_by at bytes.now).items ≡ view_location x.0 ∷ (counted (left - 1) place_by (at + (length bytes.now - length x.1.now)) x.1.now).items) }
    ensures end { IfSome result (λ x. length x.1.now ≤ length bytes.now) }
{
    match place_at(at, bytes) {
        Ok(found) => Some(found),
        Err(_) => None,
    }
}

/// What follows so many locations.
#[tactic(auto, using(crate::proofs::AssetSteps::places_stop, crate::proofs::AssetSteps::places_rest, crate::proofs::AssetSteps::places_here))]
fn after_places(count: u8, from: u32, bytes: &[u8]) -> Result<&[u8], Refused<PartWhy>>
    requires { from + length bytes.now < 2 ^ 31 }
    ensures walk { MatchResult result
        (λ rest. ((counted count place_by from bytes.now).stop ≡ None) × (rest.now ≡ (counted count place_by from bytes.now).rest) × (length rest.now ≤ length bytes.now))
        (λ e. (counted count place_by from bytes.now).stop ≡ Some e) }
    ensures place { IfErr result (λ e. e.at ≤ from + length bytes.now) }
{
    let mut left = count;
    let mut at = from;
    let mut rest = bytes;
    while left > 0 {
        let (_, after) = place_at(at, rest)?;
        at += (rest.len() - after.len()) as u32;
        rest = after;
        left -= 1;
    }
    Ok(rest)
}

/// What stands before an asset's locations, and what follows it.
#[tactic(auto, unfolding(crate::specs::AssetReading::head_at))]
fn head_at(at: u32, bytes: &[u8]) -> Result<(Head<'_>, &[u8]), Refused<PartWhy>>
    requires { at + length bytes.now < 2 ^ 31 }
    ensures gives { Gives (λ x. (view_head x.0, x.1.now)) result (head_by at bytes.now) }
    ensures len { IfOk result (λ x. 12 + length x.0.id.now + length x.1.now ≡ length bytes.now) }
    ensures place { IfErr result (λ e. e.at ≤ at + length bytes.now) }
{
    let (identifier_type, rest) = u8_at(bytes, at, PartWhy::Short)?;
    let (scheme, rest) = u32_at(rest, at + 1, PartWhy::Short)?;
    let (len, rest) = u8_at(rest, at + 5, PartWhy::Short)?;
    let (id, rest) = bytes_at(rest, len as usize, at + 6, PartWhy::Short)?;
    let (kind, rest) = u32_at(rest, at + 6 + len as u32, PartWhy::Short)?;
    let (flags, rest) = u8_at(rest, at + 10 + len as u32, PartWhy::Short)?;
    if flags % 2 != 0 {
        return Err(Refused {
            at: at + 10 + len as u32,
            why: PartWhy::ClockRelation,
        });
    }
    let (count, rest) = u8_at(rest, at + 11 + len as u32, PartWhy::Short)?;
    let head = Head {
        identifier_type,
        scheme,
        id,
        kind,
        reserved: flags / 2,
        count,
    };
    Ok((head, rest))
}

/// An asset, and what follows it.
#[tactic(auto, unfolding(crate::specs::AssetReading::asset_at, crate::specs::AssetReading::asset_by, mmt_lists::specs::Counted::counted_of))]
pub(crate) fn asset_at(at: u32, bytes: &[u8]) -> Result<(AssetView<'_>, &[u8]), Refused<PartWhy>>
    requires { at + length bytes.now < 2 ^ 31 }
    ensures gives { Gives (λ x. (view_asset x.0, x.1.now)) result (asset_from at bytes.now) }
    ensures own_place { IfOk result (λ x. (view_placed x.0).at ≡ at) }
    ensures shorter { IfOk result (λ x. length x.1.now ≤ length bytes.now) }
    ensures place { IfErr result (λ e. e.at ≤ at + length bytes.now) }
{
    let end = at + bytes.len() as u32;
    let (head, locations) = head_at(at, bytes)?;
    let locations_at = at + 12 + head.id.len() as u32;
    let rest = after_places(head.count, locations_at, locations)?;
    let place = end - rest.len() as u32;
    let (descriptors, rest) = descriptors_at(place, rest)?;
    Ok((
        AssetView {
            identifier_type: head.identifier_type,
            scheme: head.scheme,
            id: head.id,
            kind: head.kind,
            reserved: head.reserved,
            at,
            count: head.count,
            locations_at,
            locations,
            descriptors_at: place + 2,
            descriptors,
        },
        rest,
    ))
}

/// The first of the assets that are left, and the bytes after it.
pub(crate) fn first_asset(left: u8, at: u32, bytes: &[u8]) -> Option<(AssetView<'_>, &[u8])>
    requires some { 0 < left }
    requires fits { at + length bytes.now < 2 ^ 31 }
    ensures first { MatchOption result (assets_from left at bytes.now ≡ [])
        (λ x. assets_from left at bytes.now ≡ view_placed x.0 ∷ assets_from (left - 1) (at + (length bytes.now - length x.1.now)) x.1.now) }
    ensures end { IfSome result (λ x. length x.1.now ≤ length bytes.now) }
{
    match asset_at(at, bytes) {
        Ok(found) => Some(found),
        Err(_) => None,
    }
}

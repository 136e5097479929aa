//! The members of an object of a plan, each by its number and its name.

ghost use Rattle.std.specs.Prelude.{◌≡◌, ◌<◌, ◌≤◌, map, length, IfOk, Some, string_bytes};
ghost use Rattle.serde_json.specs.Find.{as_object};
ghost use Rattle.serde_json.specs.View.{view, items_view, members_view};
ghost use Rattle.mmt_plan.specs.Reading.{ok_map};
ghost use Rattle.mmt_plan.specs.Nodes.{nodes, item_nodes};
ghost use Rattle.mmt_plan.specs.Members.{is_object_at, member_at, number_at, text_at, boolean_at, array_at, array_from_at, no_other_at, has_only, is_name_of};

use crate::ends::{Reason, Refusal};
use crate::spots::Spot;
use serde_json::{Map, Value};

/// That a value is an object.
#[tactic(auto, unfolding(crate::specs::Members::is_object_at))]
pub fn object(value: &Value, spot: Spot) -> Result<(), Refusal>
    ensures { result ≡ is_object_at spot (view value.now) }
{
    if value.is_object() {
        Ok(())
    } else {
        Err(spot.refused(Reason::NotObject, 0))
    }
}

/// The member of a name.
#[tactic(auto, unfolding(crate::specs::Members::member_at))]
pub fn member<'v>(
    object: &'v Value,
    spot: Spot,
    field: u32,
    name: &str,
) -> Result<&'v Value, Refusal>
    ensures { ok_map (λ v. view v.now) result ≡ member_at spot field name.now (view object.now) }
{
    match object.get(name) {
        Some(value) => Ok(value),
        None => Err(spot.refused(Reason::Missing, field)),
    }
}

/// The member that is a number in this range.
#[tactic(auto, unfolding(crate::specs::Members::number_at))]
pub fn number(
    object: &Value,
    spot: Spot,
    field: u32,
    name: &str,
    least: u64,
    most: u64,
) -> Result<u64, Refusal>
    ensures value { result ≡ number_at least most spot field name.now (view object.now) }
    ensures range { IfOk result (λ n. (least ≤ n) × (n ≤ most)) }
{
    match member(object, spot, field, name)?.as_u64() {
        Some(number) if least <= number && number <= most => Ok(number),
        _ => Err(spot.refused(Reason::Value, field)),
    }
}

/// The member that is a text of N bytes.
#[tactic(auto, unfolding(crate::specs::Members::text_at))]
pub fn text<'v>(
    object: &'v Value,
    spot: Spot,
    field: u32,
    name: &str,
    least: usize,
    most: usize,
) -> Result<&'v str, Refusal>
    ensures value { ok_map (λ t. t.now) result
        ≡ text_at least most spot field name.now (view object.now) }
    ensures size { IfOk result (λ t. (least ≤ length t.now) × (length t.now ≤ most)) }
{
    match member(object, spot, field, name)?.as_str() {
        Some(text) if least <= text.len() && text.len() <= most => Ok(text),
        _ => Err(spot.refused(Reason::Value, field)),
    }
}

/// The member that is true or false.
#[tactic(auto, unfolding(crate::specs::Members::boolean_at))]
pub fn boolean(object: &Value, spot: Spot, field: u32, name: &str) -> Result<bool, Refusal>
    ensures { result ≡ boolean_at spot field name.now (view object.now) }
{
    match member(object, spot, field, name)?.as_bool() {
        Some(value) => Ok(value),
        None => Err(spot.refused(Reason::Value, field)),
    }
}

/// The member that is an array of N items.
#[tactic(auto, using(crate::proofs::Keys::sizes), unfolding(crate::specs::Members::array_at))]
pub fn array<'v>(
    object: &'v Value,
    spot: Spot,
    field: u32,
    name: &str,
    least: usize,
    most: usize,
) -> Result<&'v Vec<Value>, Refusal>
    ensures value { ok_map (λ v. items_view v.now.items) result
        ≡ array_at least most spot field name.now (view object.now) }
    ensures size { IfOk result (λ v. (least ≤ length v.now.items) × (length v.now.items ≤ most)) }
    ensures within { IfOk result (λ v. item_nodes (items_view v.now.items) < nodes (view object.now)) }
{
    match member(object, spot, field, name)?.as_array() {
        Some(items) if least <= items.len() && items.len() <= most => Ok(items),
        _ => Err(spot.refused(Reason::Value, field)),
    }
}

/// The member that is an array of this many items or more.
#[tactic(auto, using(crate::proofs::Keys::sizes), unfolding(crate::specs::Members::array_from_at))]
pub fn array_from<'v>(
    object: &'v Value,
    spot: Spot,
    field: u32,
    name: &str,
    least: usize,
) -> Result<&'v Vec<Value>, Refusal>
    ensures value { ok_map (λ v. items_view v.now.items) result
        ≡ array_from_at least spot field name.now (view object.now) }
    ensures size { IfOk result (λ v. least ≤ length v.now.items) }
    ensures within { IfOk result (λ v. item_nodes (items_view v.now.items) < nodes (view object.now)) }
{
    match member(object, spot, field, name)?.as_array() {
        Some(items) if least <= items.len() => Ok(items),
        _ => Err(spot.refused(Reason::Value, field)),
    }
}

/// That each member has one of these names.
#[tactic(auto, unfolding(crate::specs::Members::no_other_at))]
pub fn no_other(object: &Value, spot: Spot, names: &[&str]) -> Result<(), Refusal>
    ensures { result ≡ no_other_at spot (map (λ n. n.now) names.now) (view object.now) }
{
    match object.as_object() {
        Some(members) if !only(members, names) => Err(spot.refused(Reason::UnknownKey, 0)),
        _ => Ok(()),
    }
}

// Whether each member has one of these names.
fn only(members: &Map<String, Value>, names: &[&str]) -> bool
    ensures { result ≡ has_only (map (λ n. n.now) names.now) (Some (members_view members.now.entries)) }
{
    members.keys().all(|key| is_name(names, key))
}

// Whether a key is one of these names.
fn is_name(names: &[&str], key: &String) -> bool
    ensures { result ≡ is_name_of (map (λ n. n.now) names.now) (string_bytes key.now) }
{
    names.contains(&key.as_str())
}

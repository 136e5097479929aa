//! A list of objects of one kind in a plan.

ghost use Rattle.std.specs.Prelude.{◌≡◌, ◌<◌, ◌≤◌, ◌^◌, ℕ, Result, length, IfOk};
ghost use Rattle.std.specs.List.{All};
ghost use Rattle.serde_json.specs.Data.{Data};
ghost use Rattle.serde_json.specs.View.{view, items_view};
ghost use Rattle.mmt_plan.specs.Reading.{each, IsAnswer};
ghost use Rattle.mmt_plan.specs.Nodes.{nodes, item_nodes};
ghost use Rattle.mmt_plan.specs.Members.{list_at, list_from_at};
ghost use Rattle.mmt_plan.specs.declared.ends.Refusal.{Refusal as Why};
ghost use Rattle.mmt_plan.specs.declared.spots.Spot.{Spot as At};

use crate::ends::PlanEnd;
use crate::members::{array, array_from};
use crate::spots::Spot;
use mmt_model::List;
use serde_json::Value;
use std::alloc::Global;

/// What an item of an array in a plan is read as.
pub trait Part: Drop {
    /// The item of a number in the object at a spot, by its value.
    ghost item_at: { At → ℕ → Data → Result Self Why };
    /// What holds of the items of the object at a spot.
    ghost is_right: { At → Self → Type 0 };

    /// The item of this number in the object at this spot.
    fn read(alloc: Global, value: &Value, spot: Spot, number: u32) -> Result<Self, PlanEnd>
        requires start { spot.start ≤ 2 ^ 47 }
        requires small { nodes (view value.now) < 2 ^ 32 }
        ensures value { IsAnswer (item_at spot number (view value.now)) result }
        ensures right { IfOk result (is_right spot) };
}

/// The items of an array, in order.
pub fn read_each<P: Part>(
    alloc: Global,
    values: &Vec<Value>,
    spot: Spot,
) -> Result<List<P>, PlanEnd>
    requires start { spot.start ≤ 2 ^ 47 }
    requires small { item_nodes (items_view values.now.items) < 2 ^ 32 }
    ensures value { IsAnswer (each (P.item_at spot) 0 (items_view values.now.items)) result }
    ensures right { IfOk result (λ xs. All (P.is_right spot) xs) }
    ensures count { IfOk result (λ xs. length xs ≡ length values.now.items) }
{
    let mut items = List::new(alloc);
    let mut number = 0u32;
    for value in values {
        let item = match P::read(alloc, value, spot, number) {
            Ok(item) => item,
            Err(end) => return Err(end),
        };
        items.push(item)?;
        number += 1;
    }
    Ok(items)
}

/// The member that is a list of N items.
#[tactic(auto, unfolding(crate::specs::Members::list_at))]
pub fn list<P: Part>(
    alloc: Global,
    object: &Value,
    spot: Spot,
    field: u32,
    name: &str,
    least: usize,
    most: usize,
) -> Result<List<P>, PlanEnd>
    requires start { spot.start ≤ 2 ^ 47 }
    requires small { nodes (view object.now) < 2 ^ 32 }
    ensures value { IsAnswer (list_at P.item_at least most spot field name.now (view object.now)) result }
    ensures right { IfOk result (λ xs. All (P.is_right spot) xs) }
    ensures size { IfOk result (λ xs. (least ≤ length xs) × (length xs ≤ most)) }
{
    let values = array(object, spot, field, name, least, most)?;
    read_each(alloc, values, spot)
}

/// The member that is a list of this many items or more.
#[tactic(auto, unfolding(crate::specs::Members::list_from_at))]
pub fn list_from<P: Part>(
    alloc: Global,
    object: &Value,
    spot: Spot,
    field: u32,
    name: &str,
    least: usize,
) -> Result<List<P>, PlanEnd>
    requires start { spot.start ≤ 2 ^ 47 }
    requires small { nodes (view object.now) < 2 ^ 32 }
    ensures value { IsAnswer (list_from_at P.item_at least spot field name.now (view object.now)) result }
    ensures right { IfOk result (λ xs. All (P.is_right spot) xs) }
    ensures size { IfOk result (λ xs. least ≤ length xs) }
{
    let values = array_from(object, spot, field, name, least)?;
    read_each(alloc, values, spot)
}

//! The access units of a plan, and pairs of numbers.

ghost use Rattle.std.specs.Prelude.{◌≡◌, ◌≤◌, IfSome};
ghost use Rattle.serde_json.specs.View.{view};
ghost use Rattle.mmt_model.specs.Right.{IsRightAu};
ghost use Rattle.mmt_plan.specs.Aus.{au_at, as_pair_in};
ghost use Rattle.mmt_plan.specs.Members.{as_number_in};

use crate::ends::{PlanEnd, PlanPart, Reason};
use crate::parts::Part;
use crate::spots::Spot;
use mmt_model::Au;
use serde_json::Value;
use std::alloc::Global;

// The number up to `most` that a value is.
fn number_up_to(value: &Value, most: u64) -> Option<u64>
    ensures value { result ≡ as_number_in 0 most (view value.now) }
    ensures range { IfSome result (λ n. n ≤ most) }
{
    match value.as_u64() {
        Some(number) if number <= most => Some(number),
        _ => None,
    }
}

/// The pair of numbers up to `most` that a value is.
#[tactic(auto, using(crate::proofs::Keys::not_two), unfolding(crate::specs::Aus::as_pair_in))]
pub fn pair_up_to(value: &Value, most: u64) -> Option<(u64, u64)>
    ensures value { result ≡ as_pair_in most (view value.now) }
    ensures range { IfSome result (λ p. (p.0 ≤ most) × (p.1 ≤ most)) }
{
    let items = value.as_array()?;
    if items.len() != 2 {
        return None;
    }
    let first = number_up_to(&items[0], most)?;
    let second = number_up_to(&items[1], most)?;
    Some((first, second))
}

impl Part for Au {
    ghost item_at = { au_at };

    ghost is_right = { λ _. IsRightAu };

    #[tactic(auto, unfolding(crate::specs::Aus::au_at))]
    fn read(_alloc: Global, value: &Value, spot: Spot, number: u32) -> Result<Au, PlanEnd> {
        let spot = spot.inner(PlanPart::Au, number);
        match pair_up_to(value, 0xFFFF) {
            Some((dts_pts, pts)) => Ok(Au {
                dts_pts: dts_pts as u16,
                pts: pts as u16,
            }),
            None => Err(spot.refused(Reason::Value, 0).into()),
        }
    }
}

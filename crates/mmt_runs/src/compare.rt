//! Comparing the places of units.

ghost use Rattle.std.specs.Prelude.{◌≡◌};
ghost use Rattle.mmt_model.specs.Handing.{precedes};
ghost use Rattle.mmt_runs.specs.Order.{numbers_of};

use crate::order::UnitOrder;
use mmt_model::UnitKey;

/// The place as numbers, from the first that counts to the last.
#[tactic(auto, unfolding(crate::specs::Order::numbers_of, mmt_model::specs::Handing::key_numbers))]
pub(crate) fn numbers(order: &UnitOrder) -> [u64; 9]
    ensures { result ≡ numbers_of order.now }
{
    let time = order.time.0;
    let packet_id = order.packet_id as u64;
    let mpu = order.mpu as u64;
    let number = order.first_number as u64;
    let place = order.place as u64;
    match order.key {
        UnitKey::Item { item } => [time, packet_id, mpu, 0, item as u64, 0, 0, number, place],
        UnitKey::Timed {
            movie_fragment,
            sample,
            offset,
        } => {
            let fragment = movie_fragment as u64;
            [
                time,
                packet_id,
                mpu,
                1,
                fragment,
                sample as u64,
                offset as u64,
                number,
                place,
            ]
        }
    }
}

/// Whether the first list is less in the first number in which the two differ.
#[tactic(auto, unfolding(mmt_model::specs::Handing::precedes))]
pub(crate) fn is_less(a: &[u64], b: &[u64]) -> bool
    ensures { result ≡ precedes a.now b.now }
{
    match a {
        [] => false,
        [x, xs @ ..] => match b {
            [] => false,
            [y, ys @ ..] => *x < *y || (*x == *y && is_less(xs, ys)),
        },
    }
}

/// Whether the first place stands before the second.
pub(crate) fn stands_before(a: &UnitOrder, b: &UnitOrder) -> bool
    ensures { result ≡ precedes (numbers_of a.now) (numbers_of b.now) }
{
    is_less(&numbers(a), &numbers(b))
}

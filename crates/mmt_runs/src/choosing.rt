//! Choosing the first of the units that are due.

ghost use Rattle.std.specs.Prelude.{◌≡◌, ◌&&◌, option_map};
ghost use Rattle.mmt_base.specs.Ticks.{is_passed, low, due_of as due_by};
ghost use Rattle.mmt_runs.specs.Lending.{the_presentation};
ghost use Rattle.mmt_runs.specs.Order.{follows, order_now};
ghost use Rattle.mmt_runs.specs.Choosing.{is_sought as sought, leads, Improves};

use crate::compare::stands_before;
use crate::order::UnitOrder;
use crate::parts::UnitParts;
use mmt_base::{Tick, due_of};
use mmt_times::Names;

/// Which units are looked for: those that are named and have a due tick after `from` and at most at
/// `to`, and that stand after a place, where one is given.
#[derive(Clone, Copy)]
pub(crate) struct Range<'r> {
    pub names: &'r Names,
    pub after: Option<&'r UnitOrder>,
    pub from: Tick,
    pub to: Tick,
}

// Whether a unit of this place is due, and stands after the given one.
fn is_sought(range: &Range<'_>, order: &UnitOrder) -> bool
    ensures { result ≡ (is_passed (low (due_by order.now.time.0)) range.now.from.0 range.now.to.0 && follows (order_now range.now.after) order.now) }
{
    if !due_of(order.time).is_passed(range.from, range.to) {
        return false;
    }
    match range.after {
        None => true,
        Some(after) => stands_before(after, order),
    }
}

// Whether a unit of this place stands before the best so far.
fn is_leading(order: &UnitOrder, best: &Option<UnitParts<'_>>) -> bool
    ensures { result ≡ leads (option_map the_presentation best.now) order.now }
{
    match best {
        None => true,
        Some(best) => stands_before(order, &best.order()),
    }
}

/// The place of a unit at its time, where it is the best so far: it is looked for, and stands
/// before `best`. `unit` is its place at any time.
pub(crate) fn improved(
    range: &Range<'_>,
    unit: &UnitOrder,
    best: &Option<UnitParts<'_>>,
) -> Option<UnitOrder>
    ensures { Improves range.now.names.now (sought (order_now range.now.after) range.now.from.0 range.now.to.0) (option_map the_presentation best.now) unit.now result }
{
    let time = match range.names.time_of(unit.packet_id, unit.mpu, &unit.key) {
        Some(time) => time,
        None => return None,
    };
    let order = UnitOrder { time, ..*unit };
    if !is_sought(range, &order) {
        return None;
    }
    if !is_leading(&order, best) {
        return None;
    }
    Some(order)
}

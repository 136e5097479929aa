//! The first of the units that are looked for.

ghost use Rattle.std.specs.Prelude.{◌≡◌, ℕ, ◌<◌, [], ◌∷◌, length, IfSome, true, map, option_map, slice_index, Some, if◌then◌else◌};
ghost use Rattle.mmt_base.specs.Ticks.{is_passed, low, due_of as due_by};
ghost use Rattle.mmt_model.specs.Handing.{Presentation};
ghost use Rattle.mmt_pool.specs.declared.types.Span.{Span};
ghost use Rattle.mmt_runs.specs.Choosing.{is_sought as sought, best as best_of};
ghost use Rattle.mmt_runs.specs.Index.{IsIn, at_span};
ghost use Rattle.mmt_runs.specs.Lending.{the_presentation};
ghost use Rattle.mmt_runs.specs.Order.{order_now, numbers_of};
ghost use Rattle.mmt_runs.specs.Seeking.{IsNamed, Passes, PassesAt, named_of, IsPast, IsRest, StandsBefore, LieIn};

use crate::choosing::Range;
use crate::compare::{is_less, numbers};
use crate::finding::best_in;
use crate::index::Due;
use crate::order::UnitOrder;
use crate::parts::UnitParts;
use crate::stretch::{Stretch, stretch_of};
use mmt_base::{Ntp, Tick, due_of};
use mmt_pool::{Pool, Span};
use std::collections::{BTreeMap, BTreeSet, btree_set};
use std::ops::Bound;

/// The first of the units that begin in these packets.
pub(crate) fn least_of_all<'a>(
    starts: &BTreeMap<Span, u32>,
    pool: &'a Pool,
    range: &Range<'_>,
) -> Option<UnitParts<'a>>
    ensures named { IsNamed (sought (order_now range.now.after) range.now.from.0 range.now.to.0) range.now.names.now pool.now.kept (option_map the_presentation result) }
    ensures least { let p = sought (order_now range.now.after) range.now.from.0 range.now.to.0 in (s : Span) (mpu : ℕ) → at_span starts.now.entries s ≡ Some mpu → Passes p range.now.names.now pool.now.kept (option_map the_presentation result) s }
{
    let mut best: Option<UnitParts<'a>> = None;
    for (span, _) in starts {
        best = best_in(pool, range, *span, best);
    }
    best
}

// The best of the units of a packet, where one of them is looked for at this place, and of the best
// so far.
fn best_at<'a>(
    pool: &'a Pool,
    range: &Range<'_>,
    due: Due,
    best: Option<UnitParts<'a>>,
) -> Option<UnitParts<'a>>
    ensures { option_map the_presentation result ≡ (if is_passed (low (due_by (slice_index due.numbers 0))) range.now.from.0 range.now.to.0 then best_of (sought (order_now range.now.after) range.now.from.0 range.now.to.0) (option_map the_presentation best.entry) (named_of range.now.names.now pool.now.kept due.span) else option_map the_presentation best.entry) }
{
    if due_of(Ntp(due.numbers[0])).is_passed(range.from, range.to) {
        best_in(pool, range, due.span, best)
    } else {
        best
    }
}

// Whether the best so far stands before this place.
fn is_past(best: &Option<UnitParts<'_>>, due: &Due) -> bool
    ensures { result ≡ true → IsPast (option_map the_presentation best.now) due.now.numbers }
{
    match best {
        Some(best) => is_less(&numbers(&best.order()), &due.numbers),
        None => false,
    }
}

// The place of a unit in the index, by its order.
fn place_of(order: &UnitOrder) -> Due
    ensures { result.numbers ≡ numbers_of order.now }
{
    Due {
        numbers: numbers(order),
        span: Span {
            packet_id: order.packet_id,
            number: order.first_number,
        },
    }
}

// The place in the index before all units that are later than this time.
fn at_time(time: u64) -> Due
    ensures { result.numbers ≡ time ∷ 0 ∷ 0 ∷ 0 ∷ 0 ∷ 0 ∷ 0 ∷ 0 ∷ 0 ∷ [] }
{
    Due {
        numbers: [time, 0, 0, 0, 0, 0, 0, 0, 0],
        span: Span {
            packet_id: 0,
            number: 0,
        },
    }
}

// A place before all units that are later than this time and stand after the given one.
fn start_of(after: Option<&UnitOrder>, time: u64) -> Due
    ensures start { StandsBefore (order_now after.entry) time result }
    ensures some { 0 < length result.numbers }
{
    match after {
        Some(after) => if time < after.time.0 {
            place_of(after)
        } else {
            at_time(time)
        },
        None => at_time(time),
    }
}

// The part of the index that stands after a place.
fn rest_after<'s>(
    index: &'s BTreeSet<Due>,
    after: Option<&UnitOrder>,
    from: Tick,
    to: Tick,
) -> btree_set::Range<'s, Due>
    ensures { IsRest index.now.keys (order_now after.entry) from.0 to.0 result }
{
    match after {
        Some(after) => index.range((Bound::Excluded(place_of(after)), Bound::Unbounded)),
        None => index.range(..),
    }
}

// The stretch of time in which all units of the index lie that are due between two ticks.
fn stretch_in(index: &BTreeSet<Due>, from: Tick, to: Tick) -> Option<Stretch>
    ensures { IfSome result (LieIn index.now.keys from.0 to.0) }
{
    let least = index.first()?;
    let greatest = index.last()?;
    stretch_of(Ntp(least.numbers[0]), Ntp(greatest.numbers[0]), from, to)
}

// The part of the index in which all units stand that are looked for.
fn sought_part<'s>(
    index: &'s BTreeSet<Due>,
    after: Option<&UnitOrder>,
    from: Tick,
    to: Tick,
) -> btree_set::Range<'s, Due>
    ensures { IsRest index.now.keys (order_now after.entry) from.0 to.0 result }
{
    let Some(stretch) = stretch_in(index, from, to) else {
        return rest_after(index, after, from, to);
    };
    let start = start_of(after, stretch.after);
    let end = at_time(stretch.before);
    if start.numbers[0] < end.numbers[0] {
        index.range((Bound::Excluded(start), Bound::Excluded(end)))
    } else {
        rest_after(index, after, from, to)
    }
}

/// The first of the units in the index, which are looked for in their order.
pub(crate) fn least_by_order<'a>(
    index: &BTreeSet<Due>,
    pool: &'a Pool,
    range: &Range<'_>,
) -> Option<UnitParts<'a>>
    ensures named { IsNamed (sought (order_now range.now.after) range.now.from.0 range.now.to.0) range.now.names.now pool.now.kept (option_map the_presentation result) }
    ensures least { let p = sought (order_now range.now.after) range.now.from.0 range.now.to.0 in (q : Due) → IsIn index.now.keys q → PassesAt p range.now.names.now pool.now.kept (option_map the_presentation result) q }
{
    let mut best: Option<UnitParts<'a>> = None;
    for due in sought_part(index, range.after, range.from, range.to) {
        if is_past(&best, due) {
            return best;
        }
        best = best_at(pool, range, *due, best);
    }
    best
}

//! The best of the units that begin in a packet.

ghost use Rattle.std.specs.Prelude.{◌≡◌, ◌≤◌, ◌<◌, ◌^◌, length, map, option_map, Some};
ghost use Rattle.std.specs.List.{AllByRecursion};
ghost use Rattle.mmt_model.specs.Handing.{named_units, presentations_by};
ghost use Rattle.mmt_mpu.specs.Head.{view_unit};
ghost use Rattle.mmt_mpu.specs.View.{view};
ghost use Rattle.mmt_pool.specs.Holding.{packet_at as kept_at};
ghost use Rattle.mmt_runs.specs.Reading.{heard};
ghost use Rattle.mmt_runs.specs.Lending.{the_presentation};
ghost use Rattle.mmt_runs.specs.Order.{order_now};
ghost use Rattle.mmt_runs.specs.Choosing.{is_sought as sought, best as best_of, named_at};
ghost use Rattle.mmt_runs.specs.Offers.{whole_at, whole_of, run_of, HasRest};

use crate::choosing::{Range, improved};
use crate::following::{Extent, rest_of_run, span_after};
use crate::links::{lone_unit, media_bytes};
use crate::order::UnitOrder;
use crate::parts::UnitParts;
use mmt_base::Ntp;
use mmt_model::Part;
use mmt_mpu::{DataUnit, MpuHead, MpuPayload, read_mpu};
use mmt_pool::{Pool, Span};

// The better of the best so far and a whole data unit.
fn better_whole<'a>(
    pool: &'a Pool,
    range: &Range<'_>,
    place: &UnitOrder,
    timed: bool,
    unit: &DataUnit<'a>,
    best: Option<UnitParts<'a>>,
) -> Option<UnitParts<'a>>
    requires { length unit.now.bytes.now < 2 ^ 31 }
    ensures { option_map the_presentation result ≡ best_of (sought (order_now range.now.after) range.now.from.0 range.now.to.0) (option_map the_presentation best.entry) (presentations_by range.now.names.now.sample_base range.now.names.now.entries (whole_at place.now (view_unit unit.now))) }
{
    let order = match improved(range, place, &best) {
        Some(order) => order,
        None => return best,
    };
    let extent = Extent {
        count: 1,
        length: unit.bytes.len() as u32,
    };
    Some(UnitParts::new(pool, order, timed, unit, extent))
}

// The best of those of a payload with whole data units, and of the best so far.
fn best_whole<'a>(
    pool: &'a Pool,
    range: &Range<'_>,
    span: Span,
    payload: &MpuPayload<'a>,
    best: Option<UnitParts<'a>>,
) -> Option<UnitParts<'a>>
    requires { AllByRecursion (λ u. length u.bytes < 2 ^ 31) (view payload.now).units }
    ensures { option_map the_presentation result ≡ best_of (sought (order_now range.now.after) range.now.from.0 range.now.to.0) (option_map the_presentation best.entry) (named_units range.now.names.now.sample_base range.now.names.now.entries (whole_of span.packet_id span.number (view payload.now).head.mpu 0 (view payload.now).units)) }
{
    let head = payload.head();
    let count = payload.count();
    let mut best = best;
    let mut place: u32 = 0;
    for unit in payload.units() {
        let order = UnitOrder {
            time: Ntp(0),
            packet_id: span.packet_id,
            mpu: head.mpu,
            key: unit.key,
            first_number: span.number,
            place,
        };
        best = better_whole(pool, range, &order, head.timed, &unit, best);
        prove!(place < count);
        place += 1;
    }
    best
}

// The better of the best so far and the unit whose first part is this data unit, where its run is
// whole. The rest of the run is looked for last.
fn better_run<'a>(
    pool: &'a Pool,
    range: &Range<'_>,
    span: Span,
    head: MpuHead,
    unit: &DataUnit<'a>,
    most: usize,
    best: Option<UnitParts<'a>>,
) -> Option<UnitParts<'a>>
    requires most { most < 2 ^ 63 }
    requires rest { HasRest pool.now.kept span.packet_id span.number head.timed head.mpu (length unit.now.bytes.now) }
    ensures { option_map the_presentation result ≡ best_of (sought (order_now range.now.after) range.now.from.0 range.now.to.0) (option_map the_presentation best.entry) (named_units range.now.names.now.sample_base range.now.names.now.entries (run_of (map heard pool.now.kept) span.packet_id span.number head.timed head.mpu most (Some (view_unit unit.now)))) }
{
    let place = UnitOrder {
        time: Ntp(0),
        packet_id: span.packet_id,
        mpu: head.mpu,
        key: unit.key,
        first_number: span.number,
        place: 0,
    };
    let order = match improved(range, &place, &best) {
        Some(order) => order,
        None => return best,
    };
    let rest = match rest_of_run(pool, span_after(span), head.timed, head.mpu, most) {
        Some(rest) => rest,
        None => return best,
    };
    let extent = Extent {
        count: rest.count + 1,
        length: unit.bytes.len() as u32 + rest.length,
    };
    Some(UnitParts::new(pool, order, head.timed, unit, extent))
}

/// The best of the units that begin in the packet of this span, and of the best so far.
pub(crate) fn best_in<'a>(
    pool: &'a Pool,
    range: &Range<'_>,
    span: Span,
    best: Option<UnitParts<'a>>,
) -> Option<UnitParts<'a>>
    ensures { option_map the_presentation result ≡ best_of (sought (order_now range.now.after) range.now.from.0 range.now.to.0) (option_map the_presentation best.entry) (named_at range.now.names.now (map heard pool.now.kept) (kept_at pool.now.kept span.packet_id span.number)) }
{
    let bytes = match media_bytes(pool, span) {
        Some(bytes) => bytes,
        None => return best,
    };
    let payload = match read_mpu(bytes) {
        Ok(payload) => payload,
        Err(_) => return best,
    };
    let head = payload.head();
    // A part has a header of its own, so a run has no more packets than bytes.
    let most = pool.held() as usize;
    match head.part {
        Part::Whole => best_whole(pool, range, span, &payload, best),
        Part::First => match lone_unit(payload.units()) {
            Some(unit) => better_run(pool, range, span, head, &unit, most, best),
            None => best,
        },
        Part::Middle => best,
        Part::Last => best,
    }
}

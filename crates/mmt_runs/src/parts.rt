//! A unit that is lent part by part.

ghost use Rattle.std.specs.Prelude.{◌≡◌};
ghost use Rattle.mmt_runs.specs.Lending.{link_bytes};
ghost use Rattle.mmt_runs.specs.Links.{view_link};

use crate::following::{Extent, span_after};
use crate::links::{Link, link_of};
use crate::order::UnitOrder;
use mmt_mpu::DataUnit;
use mmt_pool::{Pool, Span};
use std::marker::Model;

/// A whole unit, whose parts are lent from the pool that its packets are kept in, one after the
/// other. The pool cannot change before it is dropped.
#[derive(Drop)]
pub struct UnitParts<'a> {
    pool: &'a Pool,
    order: UnitOrder,
    priority: u8,
    dependency: u8,
    timed: bool,
    // how many parts are left
    left: usize,
    // how many bytes they have together
    length: u32,
    // the first of them, where some are left
    bytes: &'a [u8],
    // the number of the packet after that part's
    number: u32,
}

impl<'a> Model for UnitParts<'a> {
    ghost use Rattle.std.specs.Prelude.{◌≡◌, length as len};
    ghost use Rattle.mmt_model.specs.Units.{joined};
    ghost use Rattle.mmt_runs.specs.Lending.{Lending, kept_parts};

    ghost Value = { Lending };

    ghost view = { λ a. record { order = a.order; priority = a.priority; dependency = a.dependency; left = kept_parts a.pool.now.kept a.order a.timed a.left a.bytes.now a.number } };

    ghost invariant = { λ a. a.length ≡ len (joined (kept_parts a.pool.now.kept a.order a.timed a.left a.bytes.now a.number)) };
}

// The bytes of a part.
fn part_bytes(link: Link<'_>) -> &[u8]
    ensures { result.now ≡ link_bytes (view_link link.entry) }
{
    match link {
        Link::Inner(bytes) => bytes,
        Link::End(bytes) => bytes,
        Link::Break => &[],
    }
}

impl<'a> UnitParts<'a> {
    ghost use Rattle.std.specs.Prelude.{◌≡◌, length, map};
    ghost use Rattle.mmt_model.specs.Units.{joined, next_number};
    ghost use Rattle.mmt_mpu.specs.Head.{view_unit};
    ghost use Rattle.mmt_runs.specs.Lending.{Lends, lending_of, kept_parts};
    ghost use Rattle.mmt_runs.specs.Reading.{heard};

    /// The unit of this place, which takes so many packets of the pool, of which the first has this
    /// data unit.
    #[tactic(auto, unfolding(mmt_model::specs::Units::next_number))]
    pub(crate) fn new(
        pool: &'a Pool,
        order: UnitOrder,
        timed: bool,
        unit: &DataUnit<'a>,
        extent: Extent,
    ) -> UnitParts<'a>
        requires { extent.length ≡ length (joined (kept_parts pool.now.kept order timed extent.count unit.now.bytes.now (next_number order.first_number))) }
        ensures { result ≡ lending_of (map heard pool.now.kept) order timed (view_unit unit.now) extent.count }
    {
        UnitParts {
            pool,
            order,
            priority: unit.priority,
            dependency: unit.dependency,
            timed,
            left: extent.count,
            length: extent.length,
            bytes: unit.bytes,
            number: order.first_number.wrapping_add(1),
        }
    }

    /// Its place in the order in which units are handed out.
    pub fn order(&self) -> UnitOrder
        ensures { result ≡ self.now.order }
    {
        self.order
    }

    /// Its priority. 0 for an item, which has none.
    pub fn priority(&self) -> u8
        ensures { result ≡ self.now.priority }
    {
        self.priority
    }

    /// Its dependency counter. 0 for an item, which has none.
    pub fn dependency(&self) -> u8
        ensures { result ≡ self.now.dependency }
    {
        self.dependency
    }

    /// How many bytes the parts that are still to be lent have together: before the first call of
    /// `next`, the unit's.
    pub fn length(&self) -> u32
        ensures { result ≡ length (joined self.now.left) }
    {
        self.length
    }

    /// Lends the next part, which may have no bytes; `None` once all were lent.
    pub fn next(&mut self) -> Option<&'a [u8]>
        ensures { Lends self.old result self.new }
    {
        if self.left == 0 {
            return None;
        }
        let bytes = self.bytes;
        self.left -= 1;
        self.length -= bytes.len() as u32;
        if self.left == 0 {
            return Some(bytes);
        }
        let span = Span {
            packet_id: self.order.packet_id,
            number: self.number,
        };
        self.bytes = part_bytes(link_of(self.pool, span, self.timed, self.order.mpu));
        self.number = span_after(span).number;
        Some(bytes)
    }
}

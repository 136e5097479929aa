//! What was told of a pool, and the units that its packets make whole.

use crate::choosing::Range;
use crate::index::{Begun, Due, take_out};
use crate::order::UnitOrder;
use crate::parts::UnitParts;
use crate::seeking::{least_by_order, least_of_all};
use crate::starting::{begun_in, put_named, put_units};
use mmt_base::{OutOfMemory, Tick};
use mmt_pool::{Pool, Span};
use mmt_times::Names;
use std::alloc::Global;
use std::collections::{BTreeMap, BTreeSet};
use std::marker::Model;

#[cfg(test)]
mod inside;

/// The packets of a pool that units may begin in, as they were told of one by one, and an index of
/// these units in the order in which units are handed out. It has no bytes of them.
///
/// Where there is no memory for the index, it is given up, and all those packets are looked at.
#[derive(Drop)]
pub struct Runs {
    starts: BTreeMap<Span, u32>,
    index: BTreeSet<Due>,
    begun: BTreeSet<Begun>,
    is_indexed: bool,
}

impl Model for Runs {
    ghost use Rattle.mmt_runs.specs.Told.{Tracked};

    ghost Value = { Tracked };

    ghost view = { λ a. record { starts = a.starts.entries; index = a.index.keys; is_indexed = a.is_indexed } };
}

impl Runs {
    ghost use Rattle.std.specs.Prelude.{◌≡◌, [], ◌∷◌, ◌++◌, List, map, OnOk, OnErr, option_map};
    ghost use Rattle.mmt_model.specs.Entries.{Entry};
    ghost use Rattle.mmt_model.specs.Handing.{due_units};
    ghost use Rattle.mmt_model.specs.Sorted.{insert_by};
    ghost use Rattle.mmt_model.specs.Units.{units_of};
    ghost use Rattle.mmt_pool.specs.Doing.{span_of};
    ghost use Rattle.mmt_pool.specs.Holding.{Kept, IsInOrder, is_before, without};
    ghost use Rattle.mmt_times.specs.Known.{Known};
    ghost use Rattle.mmt_runs.specs.Leading.{first, rest_after};
    ghost use Rattle.mmt_runs.specs.Lending.{the_presentation};
    ghost use Rattle.mmt_runs.specs.Order.{order_now};
    ghost use Rattle.mmt_runs.specs.Reading.{heard};
    ghost use Rattle.mmt_runs.specs.Told.{IsTold};

    /// Nothing was told yet. It takes no memory.
    pub fn new(alloc: Global) -> Runs
        ensures { (known : Known) → known.entries ≡ [] → IsTold result [] known }
    {
        Runs {
            starts: BTreeMap::new(alloc),
            index: BTreeSet::new(alloc),
            begun: BTreeSet::new(alloc),
            is_indexed: true,
        }
    }

    /// Tells of a packet that was stored in the pool: it is to be called right after `Pool::store`
    /// gave `span`.
    ///
    /// # Errors
    ///
    /// Want of memory; it is then as it was.
    pub fn added(&mut self, pool: &Pool, span: Span, names: &Names) -> Result<(), OutOfMemory>
        ensures told { (kept : List Kept) (p : Kept) → IsTold self.old kept names.now → span ≡ span_of p → pool.now.kept ≡ insert_by is_before p kept → IsInOrder pool.now.kept → OnOk result (IsTold self.new pool.now.kept names.now) }
        ensures unchanged { OnErr result (self.new ≡ self.old) }
    {
        let payload = match begun_in(pool, span) {
            Some(payload) => payload,
            None => return Ok(()),
        };
        self.starts.insert(span, payload.head().mpu)?;
        if !put_units(&mut self.index, &mut self.begun, names, span, &payload) {
            self.is_indexed = false;
        }
        Ok(())
    }

    /// Tells of a name that was learned, of this packet id and MPU: it is to be called right after
    /// `Names::learn` kept the entry.
    ///
    /// # Errors
    ///
    /// Want of memory; it is then as it was.
    pub fn named(
        &mut self,
        pool: &Pool,
        names: &Names,
        packet_id: u16,
        mpu: u32,
    ) -> Result<(), OutOfMemory>
        ensures told { (before : List Entry) (e : Entry) → IsTold self.old pool.now.kept (record { entries = before; sample_base = names.now.sample_base }) → names.now.entries ≡ before ++ e ∷ [] → e.packet_id ≡ packet_id → e.mpu ≡ mpu → OnOk result (IsTold self.new pool.now.kept names.now) }
        ensures unchanged { OnErr result (self.new ≡ self.old) }
    {
        let _ = names.len();
        let starts = &self.starts;
        if !put_named(
            &mut self.index,
            &mut self.begun,
            starts,
            pool,
            names,
            packet_id,
            mpu,
        ) {
            self.is_indexed = false;
        }
        Ok(())
    }

    /// Tells of a packet that was taken out of the pool. It takes no memory.
    pub fn removed(&mut self, span: Span)
        ensures { (kept : List Kept) (known : Known) → IsTold self.old kept known → IsTold self.new (without kept span.packet_id span.number) known }
    {
        if let Some(_) = self.starts.remove(&span) {
            take_out(&mut self.index, &mut self.begun, span);
        }
    }

    /// The first of the whole units, in the order in which units are handed out, that is named, has
    /// a due tick after `from` and at most at `to`, modulo 2^32, and stands after `after`; `None`
    /// where there is none. Its parts are lent from the pool, and no memory is taken.
    pub fn least_due<'a>(
        &self,
        pool: &'a Pool,
        names: &Names,
        after: Option<&UnitOrder>,
        from: Tick,
        to: Tick,
    ) -> Option<UnitParts<'a>>
        ensures { IsTold self.now pool.now.kept names.now → option_map the_presentation result ≡ first (rest_after (order_now after.entry) (due_units names.now.sample_base names.now.entries (units_of (map heard pool.now.kept)) from.0 to.0)) }
    {
        let range = Range {
            names,
            after,
            from,
            to,
        };
        if self.is_indexed {
            least_by_order(&self.index, pool, &range)
        } else {
            least_of_all(&self.starts, pool, &range)
        }
    }
}

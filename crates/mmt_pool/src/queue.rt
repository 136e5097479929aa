//! The queue of kept packets, by their timestamps.

use crate::row::{ends_by, place_out};
use crate::strays::first_out;
use crate::types::Span;
use mmt_base::{OutOfMemory, Tick};
use std::alloc::Global;
use std::collections::{BTreeSet, VecDeque};
use std::marker::Model;

/// A kept packet in the queue: its timestamp, and then its span.
#[derive(Clone, Copy, PartialEq, Eq, PartialOrd, Ord)]
pub(crate) struct Queued {
    pub time: u32,
    pub span: Span,
}

/// The kept packets by their timestamps. Those that came in rising order, as numbers, stand in a
/// row; the others, the strays, in a tree.
#[derive(Drop)]
pub(crate) struct Queue {
    pub row: VecDeque<Queued>,
    pub strays: BTreeSet<Queued>,
}

impl Model for Queue {
    ghost use Rattle.std.specs.Prelude.{List, ◌++◌};
    ghost use Rattle.mmt_pool.specs.declared.queue.Queued.{Queued};
    ghost use Rattle.mmt_pool.specs.Queue.{IsQueue};

    ghost Value = { List Queued };

    ghost view = { λ a. a.row.items ++ a.strays.keys };

    ghost invariant = { λ a. IsQueue a.row.items a.strays.keys };
}

impl Queue {
    ghost use Rattle.std.specs.Prelude.{◌≡◌, ◌<◌, ◌^◌, [], false, OnOk, OnErr};
    ghost use Rattle.mmt_pool.specs.Queue.{has, IsShort, Puts, TakesOut};

    /// An empty queue.
    pub(crate) fn new(alloc: Global) -> Queue
        ensures { result ≡ [] }
    {
        Queue {
            row: VecDeque::new(alloc),
            strays: BTreeSet::new(alloc),
        }
    }

    /// Puts in a packet. It goes to the end of the row where its timestamp is, as a number, at
    /// least that of the row's last, and otherwise among the strays.
    ///
    /// # Errors
    ///
    /// Out of memory; the queue then stays as it was.
    pub(crate) fn put(&mut self, queued: Queued) -> Result<(), OutOfMemory>
        requires absent { has self.old queued ≡ false }
        ensures ok { OnOk result (Puts self.old queued self.new) }
        ensures err { OnErr result (self.new ≡ self.old) }
    {
        if ends_by(&self.row, queued.time) {
            self.row.push_back(queued)?;
        } else {
            self.strays.insert(queued)?;
        }
        Ok(())
    }

    /// Takes out some packet whose timestamp plus the window is not after the clock; `None` where
    /// there is none.
    ///
    /// For packets that came in the order of time it looks at the ends of the row alone.
    pub(crate) fn take_out(&mut self, clock: Tick, window: u32) -> Option<Queued>
        requires { clock.0 < 2 ^ 32 }
        ensures { TakesOut self.old clock.0 window result self.new }
    {
        if let Some(place) = place_out(&self.row, clock, window) {
            return self.row.remove(place);
        }
        let queued = first_out(&self.strays, clock, window)?;
        let _ = self.strays.remove(&queued);
        Some(queued)
    }
}

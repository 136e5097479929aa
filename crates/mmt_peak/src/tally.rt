//! Counting what becomes of packets.

ghost use Rattle.std.specs.Prelude.{◌≡◌, OnOk, OnErr, IfOk, Some};
ghost use Rattle.mmt_model.specs.Keeping.{Outcome};
ghost use Rattle.mmt_pool.specs.Outcome.{answer_outcome};
ghost use Rattle.mmt_peak.specs.Buffers.{tallied};
ghost use Rattle.mmt_peak.specs.Views.{tally_in};

use mmt_base::OutOfMemory;
use mmt_pool::{NotStored, Span};

/// How many packets were stored, late, repeated and without room. Each count stays at 2^64 - 1.
#[derive(Clone, Copy, Debug, PartialEq, Eq)]
pub struct Counts {
    pub stored: u64,
    pub late: u64,
    pub repeats: u64,
    pub full: u64,
}

/// The counts with one packet more.
pub fn with_answer(counts: Counts, answer: Result<Span, NotStored>) -> Result<Counts, OutOfMemory>
    ensures { IfOk result (λ next. (f : Outcome) × (answer_outcome answer ≡ Some f) × (tally_in next ≡ tallied f (tally_in counts))) }
{
    let mut next = counts;
    match answer {
        Ok(_) => {
            next.stored = counts.stored.saturating_add(1);
            Ok(next)
        }
        Err(NotStored::Late { clock: _ }) => {
            next.late = counts.late.saturating_add(1);
            Ok(next)
        }
        Err(NotStored::Repeat) => {
            next.repeats = counts.repeats.saturating_add(1);
            Ok(next)
        }
        Err(NotStored::Full { held: _, length: _ }) => {
            next.full = counts.full.saturating_add(1);
            Ok(next)
        }
        Err(NotStored::OutOfMemory) => Err(OutOfMemory),
    }
}

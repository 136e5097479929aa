//! The first and the last timestamp of the packets of each unit and of each table copy.

ghost use Rattle.std.specs.Prelude.{◌≡◌, ℕ, ◌+◌, ◌<◌, ◌≤◌, ◌^◌, Some, None, length, get_or, replicate, IfOk, if◌then◌else◌};
ghost use Rattle.std.specs.List.{AllByRecursion};
ghost use Rattle.mmt_model.specs.Carrying.{copy_place};
ghost use Rattle.mmt_pace.specs.Asked.{CanBePaced, IsCarriedBy};
ghost use Rattle.mmt_pace.specs.Spanned.{AreSpans, count_of as count_in, has_thing, is_among, with_tick};

use crate::limits::place_of_copy;
use mmt_base::{LongTick, OutOfMemory};
use mmt_model::{Carries, Cast, Sent};
use std::alloc::Global;

/// The first and the last timestamp of packets.
#[derive(Clone, Copy, Debug)]
pub(crate) struct Span {
    pub first: LongTick,
    pub last: LongTick,
}

/// What is sent in packets of a cast.
#[derive(Clone, Copy, Debug)]
pub(crate) enum Things {
    /// Its units.
    Units,
    /// Its table copies.
    Copies,
}

/// So many numbers from one on.
#[derive(Clone, Copy, Debug)]
pub(crate) struct Run {
    pub first: u32,
    pub count: u32,
}

/// No number.
fn no_run() -> Run
    ensures { result ≡ record { first = 0; count = 0 } }
{
    Run { first: 0, count: 0 }
}

/// The numbers of the units that a packet carries.
fn units_in(carries: Carries) -> Run
    ensures among { (cast : Cast) (n : ℕ) → has_thing cast Things.Units n carries ≡ is_among result n }
    ensures known { (cast : Cast) → IsCarriedBy cast carries → result.first + result.count ≤ length cast.units }
{
    match carries {
        Carries::Whole { unit } => Run {
            first: unit,
            count: 1,
        },
        Carries::Fragment { unit, .. } => Run {
            first: unit,
            count: 1,
        },
        Carries::Group { first, count } => Run { first, count },
        Carries::Parameters { .. } => no_run(),
        Carries::Table { .. } => no_run(),
        Carries::TablePart { .. } => no_run(),
    }
}

/// The place of the table copy that is a signalling message, as one number.
fn copy_run(cast: &Cast, signal: u32) -> Run
    requires cast { CanBePaced cast.now }
    requires known { copy_place cast.now.copies signal < length cast.now.copies }
    ensures among { result.first ≡ copy_place cast.now.copies signal }
    ensures known { result.count ≡ 1 }
{
    Run {
        first: place_of_copy(cast.copies.as_slice(), signal) as u32,
        count: 1,
    }
}

/// The place of the table copy of which a packet carries a part.
fn copies_in(cast: &Cast, carries: Carries) -> Run
    requires cast { CanBePaced cast.now }
    requires carried { IsCarriedBy cast.now carries }
    ensures among { (n : ℕ) → n < length cast.now.copies → has_thing cast.now Things.Copies n carries ≡ is_among result n }
    ensures known { result.first + result.count ≤ length cast.now.copies }
{
    match carries {
        Carries::Whole { .. } => no_run(),
        Carries::Fragment { .. } => no_run(),
        Carries::Group { .. } => no_run(),
        Carries::Parameters { .. } => no_run(),
        Carries::Table { signal } => copy_run(cast, signal),
        Carries::TablePart { signal, .. } => copy_run(cast, signal),
    }
}

/// The numbers of what a packet carries.
fn run_in(cast: &Cast, things: Things, carries: Carries) -> Run
    requires cast { CanBePaced cast.now }
    requires carried { IsCarriedBy cast.now carries }
    ensures among { (n : ℕ) → n < count_in cast.now things → has_thing cast.now things n carries ≡ is_among result n }
    ensures known { result.first + result.count ≤ count_in cast.now things }
{
    match things {
        Things::Units => units_in(carries),
        Things::Copies => copies_in(cast, carries),
    }
}

/// How many there are in a cast.
fn count_of(cast: &Cast, things: Things) -> usize
    ensures { result ≡ count_in cast.now things }
{
    match things {
        Things::Units => cast.units.len(),
        Things::Copies => cast.copies.len(),
    }
}

/// A span with one timestamp more.
fn widened(span: Option<Span>, at: LongTick) -> Span
    ensures { result ≡ with_tick at.0 span }
{
    match span {
        None => Span {
            first: at,
            last: at,
        },
        Some(span) => Span {
            first: LongTick(at.0.min(span.first.0)),
            last: LongTick(at.0.max(span.last.0)),
        },
    }
}

/// Widens the spans of a run of numbers by a timestamp.
fn widen(spans: &mut [Option<Span>], run: Run, at: LongTick)
    requires known { run.first + run.count ≤ length spans.old }
    requires few { length spans.old < 2 ^ 32 }
    ensures { (n : ℕ) → n < length spans.old → get_or spans.new n None ≡
        (if is_among run n then Some (with_tick at.0 (get_or spans.old n None)) else get_or spans.old n None) }
{
    for k in 0..run.count {
        let place = (run.first + k) as usize;
        spans[place] = Some(widened(spans[place], at));
    }
}

/// So many spans of no packet.
fn no_spans(alloc: Global, count: usize) -> Result<Vec<Option<Span>>, OutOfMemory>
    ensures { IfOk result (λ spans. spans.items ≡ replicate count None) }
{
    Ok(Vec::from_elem(alloc, None, count)?)
}

/// The spans of the units, or of the table copies, of a cast in these packets.
pub(crate) fn spans_of(
    alloc: Global,
    cast: &Cast,
    things: Things,
    packets: &[Sent],
) -> Result<Vec<Option<Span>>, OutOfMemory>
    requires cast { CanBePaced cast.now }
    requires carried { AllByRecursion (λ p. IsCarriedBy cast.now p.carries) packets.now }
    ensures { IfOk result (λ spans. AreSpans (count_in cast.now things) (has_thing cast.now things) packets.now spans.items) }
{
    let mut spans = no_spans(alloc, count_of(cast, things))?;
    let count = packets.len();
    for i in 0..count {
        let packet = &packets[count - 1 - i];
        let run = run_in(cast, things, packet.carries);
        widen(spans.as_mut_slice(), run, packet.at);
    }
    Ok(spans)
}

//! From when each MPU is named.

ghost use Rattle.std.specs.Prelude.{◌≡◌, ◌<◌, ℕ, length, get_or, replicate, None, IfOk};
ghost use Rattle.std.specs.List.{AllByRecursion};
ghost use Rattle.mmt_casting.specs.Named.{AreNamed, NamesPlaces, named_with};
ghost use Rattle.mmt_model.specs.Carrying.{least_with, tick_of};
ghost use Rattle.mmt_model.specs.Counts.{member};

use mmt_base::{LongTick, OutOfMemory};
use mmt_model::TableCopy;
use std::alloc::Global;

/// The earlier of a tick and one that may be there.
fn earlier(last: LongTick, named: Option<LongTick>) -> LongTick
    ensures { result.0 ≡ least_with last.0 (tick_of named) }
{
    match named {
        None => last,
        Some(other) => { if last.0 <= other.0 { last } else { other } }
    }
}

/// Names the MPUs at these places by a copy that ends at a tick.
fn name_by(named: &mut [Option<LongTick>], names: &[u32], last: LongTick)
    requires { AllByRecursion (λ p. p < length named.old) names.now }
    ensures { (m : ℕ) → m < length named.old → get_or named.new m None ≡ named_with (member m names.now) last (get_or named.old m None) }
{
    for j in 0..names.len() {
        let place = names[j] as usize;
        named[place] = Some(earlier(last, named[place]));
    }
}

/// So many MPUs that no copy names.
fn unnamed(alloc: Global, mpus: usize) -> Result<Vec<Option<LongTick>>, OutOfMemory>
    ensures { IfOk result (λ named. named.items ≡ replicate mpus None) }
{
    let mut named = Vec::new(alloc);
    for _m in 0..mpus {
        named.push(None)?;
    }
    Ok(named)
}

/// The tick from which each of N MPUs is named: the least at which a copy that names it ends.
pub fn named_from(
    alloc: Global,
    mpus: usize,
    copies: &[TableCopy],
) -> Result<Vec<Option<LongTick>>, OutOfMemory>
    requires { AllByRecursion (NamesPlaces mpus) copies.now }
    ensures { IfOk result (λ named. AreNamed mpus copies.now named.items) }
{
    let mut named = unnamed(alloc, mpus)?;
    let count = copies.len();
    for i in 0..count {
        let copy = &copies[count - 1 - i];
        name_by(named.as_mut_slice(), copy.names.as_slice(), copy.last);
    }
    Ok(named)
}

//! How far a delivery is when an MPU is first named.

ghost use Rattle.std.specs.Prelude.{◌≡◌, ℕ, ◌<◌, ◌≤◌, length, get_or, slice_index, EachIndex, All, IfOk};
ghost use Rattle.mmt_expect.specs.Reaches.{never};
ghost use Rattle.mmt_expect.specs.Named.{AreNamed, IsLowered};
ghost use Rattle.mmt_model.specs.Carrying.{no_table_copy};

use crate::reaching::NEVER;
use mmt_base::OutOfMemory;
use mmt_model::TableCopy;
use std::alloc::Global;

/// Lowers the numbers at these places to at most this one.
fn lower(numbers: &mut [u64], places: &[u32], greatest: u64)
    requires { All (λ (m : ℕ). m < length numbers.old) places.now }
    ensures { IsLowered numbers.old numbers.new places.now greatest }
{
    for i in 0..places.len() {
        let place = places[i] as usize;
        numbers[place] = numbers[place].min(greatest);
    }
}

/// The table copy at a place.
fn copy_at(copies: &[TableCopy], place: usize) -> &TableCopy
    requires { place < length copies.now }
    ensures { result.now ≡ get_or copies.now place no_table_copy }
{
    &copies[place]
}

/// Takes all table copies, where none was taken before.
fn take_copies(copies: &[TableCopy], signals: &[u64], named: &mut [u64])
    requires known { (c : ℕ) → c < length copies.now →
        All (λ (m : ℕ). m < length named.old) (get_or copies.now c no_table_copy).names }
    requires signals { (c : ℕ) → c < length copies.now → (get_or copies.now c no_table_copy).signal < length signals.now }
    requires none { EachIndex named.old (λ m. slice_index named.old m ≡ never) }
    ensures { AreNamed copies.now signals.now (length named.old) named.new }
{
    for c in 0..copies.len() {
        let copy = copy_at(copies, c);
        lower(named, copy.names.as_slice(), signals[copy.signal as usize]);
    }
}

/// For each of N MPUs the least reach of a table copy that names it, and `NEVER` where none does.
pub fn named(
    alloc: Global,
    copies: &[TableCopy],
    signals: &[u64],
    mpus: usize,
) -> Result<Vec<u64>, OutOfMemory>
    requires known { (c : ℕ) → c < length copies.now → All (λ (m : ℕ). m < mpus) (get_or copies.now c no_table_copy).names }
    requires signals { (c : ℕ) → c < length copies.now → (get_or copies.now c no_table_copy).signal < length signals.now }
    ensures { IfOk result (λ named. AreNamed copies.now signals.now mpus named.items) }
{
    let mut named = vec![in alloc; NEVER; mpus]?;
    take_copies(copies, signals, &mut named);
    Ok(named)
}

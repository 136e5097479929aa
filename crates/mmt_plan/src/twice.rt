//! The first of some numbers that stood before.

ghost use Rattle.std.specs.Prelude.{◌≡◌, ◌<◌, ◌^◌, ℕ, map, length, [], IfOk};
ghost use Rattle.mmt_plan.specs.Twice.{first_twice};

use indexmap::IndexSet;
use mmt_base::OutOfMemory;
use mmt_model::{Asset, Mpu};
use std::alloc::Global;

/// What has a number that is to stand once in a list.
pub trait Numbered {
    /// The number.
    ghost number_of: { Self → ℕ };

    /// The number.
    fn number(&self) -> u32
        ensures { result ≡ number_of self.now };
}

impl Numbered for Asset {
    ghost number_of = { λ a. a.packet_id };

    fn number(&self) -> u32 {
        self.packet_id as u32
    }
}

impl Numbered for Mpu {
    ghost number_of = { λ m. m.number };

    fn number(&self) -> u32 {
        self.number
    }
}

/// The place of the first item whose number an earlier one has. It takes memory for the numbers, and
/// is refused only when out of memory.
pub fn first_repeat<T: Numbered>(alloc: Global, items: &[T]) -> Result<Option<u32>, OutOfMemory>
    requires { length items.now < 2 ^ 32 }
    ensures { IfOk result (λ place. place ≡ first_twice [] 0 (map T.number_of items.now)) }
{
    let mut seen = IndexSet::new(alloc);
    let mut place = 0u32;
    for item in items {
        let added = match seen.insert_full(item.number()) {
            Ok(added) => added,
            Err(_) => return Err(OutOfMemory),
        };
        if !added.1 {
            return Ok(Some(place));
        }
        place += 1;
    }
    Ok(None)
}

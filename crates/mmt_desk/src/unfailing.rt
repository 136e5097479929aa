//! A shelf in memory no read of which fails.

ghost use Rattle.std.specs.Prelude.{◌≡◌, ℕ, [], List, true};
ghost use Rattle.mmt_io.specs.Shelf.{file_in};

use mmt_io::{MemoryShelf, Shelf, ShelfFault};
use std::marker::Model;

/// A shelf in memory no read of which fails.
#[derive(Drop)]
pub struct Unfailing {
    shelf: MemoryShelf,
}

impl Model for Unfailing {
    ghost Value = { List (List ℕ × List ℕ) };

    ghost view = { λ s. s.shelf.files };

    ghost invariant = { λ s. s.shelf.failing ≡ [] };
}

impl Unfailing {
    /// The shelf of these files. None of its reads is to fail.
    pub fn new(shelf: MemoryShelf) -> Unfailing
        requires { shelf.failing ≡ [] }
        ensures { result ≡ shelf.files }
    {
        Unfailing { shelf }
    }
}

impl Shelf for Unfailing {
    ghost tells = { λ _. true };

    ghost file = { λ s. file_in s };

    ghost faults = { λ _. 0 };

    fn read_at(&mut self, name: &str, at: u64, buf: &mut [u8]) -> Result<usize, ShelfFault> {
        match self.shelf.read_at(name, at, buf) {
            Ok(count) => Ok(count),
            Err(ShelfFault::Absent) => Err(ShelfFault::Absent),
            Err(ShelfFault::Failed) => unreachable!(),
        }
    }
}

//! A shelf in memory, whose reads may be made to fail.
ghost use Rattle.std.specs.Prelude.{◌≡◌, ℕ, ◌≤◌, ◌++◌, [], List, true, Some, Err, if◌then◌else◌, length, option_map, take, drop, min, MatchResult, OnOk, OnErr};
ghost use Rattle.std.specs.Str.{bytes_eq};
ghost use Rattle.mmt_io.specs.Memory.{is_listed};
ghost use Rattle.mmt_io.specs.Port.{one_more, counted};
ghost use Rattle.mmt_io.specs.Shelf.{file_in, bytes_from, answer_of};

use crate::shelf::{Shelf, ShelfFault};
use mmt_base::OutOfMemory;
use std::alloc::Global;
use std::collections::BTreeMap;
use std::marker::Model;

/// A shelf in memory: files by name, and the numbers of the reads that are to fail, counted from 0.
#[derive(Drop)]
pub struct MemoryShelf {
    alloc: Global,
    files: BTreeMap<String, Vec<u8>>,
    failing: Vec<u64>,
    reads: u64,
    faults: u64,
}

impl Model for MemoryShelf {
    ghost use Rattle.std.specs.Prelude.{map, string_bytes};
    ghost use Rattle.mmt_io.specs.Shelf.{MemoryFiles};

    ghost Value = { MemoryFiles };

    ghost view = { λ s. record {
      files = map (λ e. (string_bytes e.0, e.1.items)) s.files.entries;
      failing = s.failing.items;
      reads = s.reads;
      faults = s.faults;
    } };
}

impl MemoryShelf {
    /// A shelf without files, whose reads of these numbers, counted from 0, fail. It takes no memory.
    pub fn new(alloc: Global, failing: Vec<u64>) -> MemoryShelf
        ensures { result ≡ record { files = []; failing = failing.items; reads = 0; faults = 0 } }
    {
        MemoryShelf {
            alloc,
            files: BTreeMap::new(alloc),
            failing,
            reads: 0,
            faults: 0,
        }
    }

    // The bytes of the file of a name.
    fn file(&self, name: &str) -> Option<&[u8]>
        ensures { option_map (λ b. b.now) result ≡ file_in self.now.files name.now }
    {
        match self.files.get(name) {
            Some(bytes) => Some(bytes.as_slice()),
            None => None,
        }
    }

    /// Puts a file of this name on the shelf, in place of the one that it may have. It takes memory for
    /// the name, and is refused only where there is no memory; then the shelf is as it was.
    pub fn put(&mut self, name: &str, bytes: Vec<u8>) -> Result<(), OutOfMemory>
        ensures files { OnOk result ((n : List ℕ) → file_in self.new.files n ≡ (if bytes_eq n name.now then Some bytes.items else file_in self.old.files n)) }
        ensures kept { self.new ≡ record self.old { files = self.new.files } }
        ensures refused { OnErr result (self.new ≡ self.old) }
    {
        let Ok(name) = String::from_str(self.alloc, name) else {
            return Err(OutOfMemory);
        };
        match self.files.insert(name, bytes) {
            Ok(_) => Ok(()),
            Err(_) => Err(OutOfMemory),
        }
    }
}

/// Copies the bytes of a file from a place on, as many as fit and are there.
pub(crate) fn copy_from(bytes: &[u8], at: u64, buf: &mut [u8]) -> usize
    ensures count { result ≡ min (length buf.old) (length (drop at bytes.now)) }
    ensures given { buf.new ≡ take result (drop at bytes.now) ++ drop result buf.old }
{
    let rest = &bytes[bytes.len().min(at as usize)..];
    let count = buf.len().min(rest.len());
    buf[..count].copy_from_slice(&rest[..count]);
    count
}

impl Shelf for MemoryShelf {
    ghost tells = { λ _. true };

    ghost file = { λ s. file_in s.files };

    ghost faults = { λ s. s.faults };

    fn read_at(&mut self, name: &str, at: u64, buf: &mut [u8]) -> Result<usize, ShelfFault>
        ensures later { self.old.faults ≤ self.new.faults }
        ensures answer { result ≡ (if is_listed self.old.reads self.old.failing then Err ShelfFault.Failed else answer_of (file_in self.old.files name.now) at (length buf.old)) }
        ensures given { MatchResult result (λ n. buf.new ≡ take n (bytes_from (file_in self.old.files name.now) at) ++ drop n buf.old) (λ _. buf.new ≡ buf.old) }
        ensures counts { self.new ≡ record self.old { reads = one_more self.old.reads; faults = counted (is_listed self.old.reads self.old.failing) self.old.faults } }
    {
        let number = self.reads;
        self.reads = number.saturating_add(1);
        if self.failing.contains(&number) {
            self.faults = self.faults.saturating_add(1);
            return Err(ShelfFault::Failed);
        }
        match self.file(name) {
            Some(bytes) => Ok(copy_from(bytes, at, buf)),
            None => Err(ShelfFault::Absent),
        }
    }
}

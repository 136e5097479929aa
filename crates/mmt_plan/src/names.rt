//! The names of a programme's files.

ghost use Rattle.std.specs.Prelude.{◌≡◌, ◌<◌, ◌^◌, [], length, IfOk, OnOk, OnErr};
ghost use Rattle.mmt_plan.specs.Names.{place_of, with_name};

use indexmap::IndexSet;
use mmt_base::OutOfMemory;
use mmt_model::{List, Text};
use std::alloc::Global;
use std::marker::Model;

/// The names of files, each once, in the order in which they were first seen. Contracts see it as
/// the list of its names.
#[derive(Drop)]
pub struct FileNames {
    set: IndexSet<String>,
}

impl Model for FileNames {
    ghost use Rattle.std.specs.Prelude.{ℕ, List, map, string_bytes};

    ghost Value = { List (List ℕ) };

    ghost view = { λ names. map string_bytes names.set.keys };
}

impl FileNames {
    /// No name. It takes no memory.
    pub fn new(alloc: Global) -> FileNames
        ensures { result ≡ [] }
    {
        FileNames {
            set: IndexSet::new(alloc),
        }
    }

    /// The number of a file by its name. A new name goes last. It is refused only when out of memory; then
    /// the names are as they were.
    pub fn number_of(&mut self, alloc: Global, name: &str) -> Result<u32, OutOfMemory>
        requires { length self.old < 2 ^ 32 }
        ensures number { IfOk result (λ n. n ≡ place_of name.now self.old) }
        ensures names { OnOk result (self.new ≡ with_name name.now self.old) }
        ensures refused { OnErr result (self.new ≡ self.old) }
        ensures within { IfOk result (λ n. n < length self.new) }
    {
        let Ok(name) = String::from_str(alloc, name) else {
            return Err(OutOfMemory);
        };
        let found = match self.set.insert_full(name) {
            Ok(found) => found,
            Err(_) => return Err(OutOfMemory),
        };
        Ok(found.0 as u32)
    }

    /// The list of the names, in order. It takes the memory of their bytes, and is refused for want of
    /// memory alone.
    pub fn list(&self, alloc: Global) -> Result<List<Text>, OutOfMemory>
        ensures { IfOk result (λ list. list ≡ self.now) }
    {
        let mut list = List::new(alloc);
        for name in self.set.as_slice() {
            list.push(Text::from_str(alloc, name.as_str())?)?;
        }
        Ok(list)
    }
}

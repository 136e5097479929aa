//! The files of the programme.

ghost use Rattle.std.specs.Prelude.{◌≡◌, ◌<◌, ◌^◌, ℕ, List as Items, [], IfOk};
ghost use Rattle.mmt_io.specs.Shelf.{file_in};
ghost use Rattle.mmt_made.specs.Generator.{byte_at, file_bytes, made_file};

use mmt_base::OutOfMemory;
use mmt_io::MemoryShelf;
use std::alloc::Global;

/// Byte `place` of a file.
fn byte(seed: u16, file: u8, place: u32) -> u8
    ensures { result ≡ byte_at seed file place }
{
    ((seed as u64 + 31 * place as u64 + 7 * file as u64 + place as u64 / 256) % 256) as u8
}

/// The first bytes of a file.
pub fn bytes(alloc: Global, seed: u16, file: u8, size: u32) -> Result<Vec<u8>, OutOfMemory>
    ensures { IfOk result (λ v. v.items ≡ file_bytes seed file size) }
{
    let mut bytes = Vec::with_capacity(alloc, size as usize)?;
    for place in 0..size {
        bytes.push(byte(seed, file, place))?;
    }
    Ok(bytes)
}

/// A shelf with the three files, whose reads do not fail.
pub fn shelf(alloc: Global, seed: u16) -> Result<MemoryShelf, OutOfMemory>
    ensures files { IfOk result (λ shelf. (name : Items ℕ) → file_in shelf.files name ≡ made_file seed name) }
    ensures failing { IfOk result (λ shelf. shelf.failing ≡ []) }
{
    let video = bytes(alloc, seed, 0, 10_800_000)?;
    let audio = bytes(alloc, seed, 1, 288_000)?;
    let item = bytes(alloc, seed, 2, 5000)?;
    let mut shelf = MemoryShelf::new(alloc, Vec::new(alloc));
    shelf.put("item", item)?;
    shelf.put("audio", audio)?;
    shelf.put("video", video)?;
    Ok(shelf)
}

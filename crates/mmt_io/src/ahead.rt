//! Bytes of a file that are read ahead of those that are asked for.
ghost use Rattle.std.specs.Prelude.{◌≡◌, ◌≤◌, ◌++◌, [], true, false, length, take, drop, min};
ghost use Rattle.std.specs.Io.{ReadsAtMost};
ghost use Rattle.mmt_io.specs.Ahead.{bytes_at};

use crate::held::copy_from;
use crate::shelf::ShelfFault;
use std::alloc::Global;
use std::io::ErrorKind;
use std::marker::Model;
use std::os::unix::fs::FileExt;

// How many bytes are read at once where a read goes on where the bytes end that are held.
const FAR: usize = 65_536;

// How many bytes are read at least where a read begins elsewhere.
const NEAR: usize = 4096;

/// Bytes of a file, from a place on, as they were when they were read. It never holds that a file ends:
/// bytes behind those that it holds are asked of the file again.
#[derive(Drop)]
pub(crate) struct Ahead {
    alloc: Global,
    from: u64,
    // of `bytes` the first so many are held
    held: usize,
    bytes: Vec<u8>,
}

impl Model for Ahead {
    ghost use Rattle.std.specs.Prelude.{◌≤◌, length, take};
    ghost use Rattle.mmt_io.specs.Ahead.{Held};

    ghost Value = { Held };

    ghost view = { λ a. record { from = a.from; bytes = take a.held a.bytes.items } };

    ghost invariant = { λ a. a.held ≤ length a.bytes.items };
}

/// Reads once at a place of a file. What a signal interrupts is tried again.
fn read_once<F: FileExt>(file: &F, at: u64, buf: &mut [u8]) -> Result<usize, ShelfFault>
    ensures { ReadsAtMost result buf.new }
{
    for _ in 0..u64::MAX {
        match file.read_at(buf, at) {
            Ok(count) => return Ok(count),
            Err(error) => {
                if error.kind() != ErrorKind::Interrupted {
                    return Err(ShelfFault::Failed);
                }
            }
        }
    }
    Err(ShelfFault::Failed)
}

impl Ahead {
    /// Holds no bytes, at the start of a file. It takes no memory.
    pub(crate) fn new(alloc: Global) -> Ahead
        ensures { result ≡ record { from = 0; bytes = [] } }
    {
        Ahead {
            alloc,
            from: 0,
            held: 0,
            bytes: Vec::new(alloc),
        }
    }

    // Copies the bytes that are held from a place on, as many as fit.
    fn copy(&self, at: u64, buf: &mut [u8]) -> usize
        ensures count { result ≡ min (length buf.old) (length (bytes_at self.now at)) }
        ensures given { buf.new ≡ take result (bytes_at self.now at) ++ drop result buf.old }
    {
        if at < self.from {
            return 0;
        }
        copy_from(&self.bytes[..self.held], at - self.from, buf)
    }

    // How many bytes a read of so many is to read at once: far ahead where it goes on where the bytes
    // end that are held.
    fn reach(&self, at: u64, count: usize) -> usize {
        if at == self.from.saturating_add(self.held as u64) {
            FAR
        } else {
            count.max(NEAR)
        }
    }

    // Reads the bytes of a file from a place on in place of those that are held; answers whether it read.
    // It takes its memory the first time.
    fn fill<F: FileExt>(&mut self, file: &F, at: u64, count: usize) -> bool
        ensures place { result ≡ true → self.new.from ≡ at }
        ensures none { result ≡ false → self.new.bytes ≡ [] }
    {
        let reach = self.reach(at, count);
        self.held = 0;
        if self.bytes.is_empty() {
            match vec![in self.alloc; 0u8; FAR] {
                Ok(bytes) => self.bytes = bytes,
                Err(_) => return false,
            }
        }
        let reach = reach.min(self.bytes.len());
        match file.read_at(&mut self.bytes[..reach], at) {
            Ok(held) => {
                self.from = at;
                self.held = held;
                true
            }
            Err(_) => false,
        }
    }

    // Gives the next bytes from a place of a file on: those that are held, or where there are none, what is
    // read. A fault in reading ahead is none: then the bytes that are asked for are read by themselves.
    fn next<F: FileExt>(&mut self, file: &F, at: u64, buf: &mut [u8]) -> Result<usize, ShelfFault>
        ensures { ReadsAtMost result buf.new }
    {
        let held = self.copy(at, buf);
        if held > 0 {
            return Ok(held);
        }
        if buf.len() < FAR && self.fill(file, at, buf.len()) {
            return Ok(self.copy(at, buf));
        }
        read_once(file, at, buf)
    }

    /// Reads at a place of a file, as many bytes as fit and are there. A read of fewer than 65,536 bytes
    /// reads ahead.
    pub(crate) fn read<F: FileExt>(
        &mut self,
        file: &F,
        at: u64,
        buf: &mut [u8],
    ) -> Result<usize, ShelfFault>
        ensures { ReadsAtMost result buf.new }
    {
        let mut count = 0;
        for _ in 0..u64::MAX {
            if count == buf.len() {
                return Ok(count);
            }
            match self.next(file, at.wrapping_add(count as u64), &mut buf[count..]) {
                Ok(0) => return Ok(count),
                Ok(more) => count += more,
                Err(fault) => return Err(fault),
            }
        }
        Err(ShelfFault::Failed)
    }
}

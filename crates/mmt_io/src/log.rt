//! What passed through a port in memory, and the input that is left.
ghost use Rattle.std.specs.Prelude.{◌≡◌, ℕ, ◌+◌, ◌-◌, ◌<◌, ◌≤◌, min, ◌∷◌, ◌++◌, [], List, false, length, take, drop, not, vec_len, vec_capacity, IfOk};
ghost use Rattle.mmt_io.specs.History.{Event, bytes_written, bytes_noted};
ghost use Rattle.mmt_io.specs.History.Event.{In, Out, Note};
ghost use Rattle.mmt_io.specs.Pieces.{total, at_read, at_write, at_note};
ghost use Rattle.mmt_io.specs.Kept.{passes_room};

use crate::memory::CallKind;
use mmt_base::OutOfMemory;
use std::alloc::Global;
use std::marker::Model;

/// A piece of the history, by the call that it came by and its length in bytes.
#[derive(Clone, Copy, Debug, PartialEq, Eq)]
pub struct Piece {
    pub kind: CallKind,
    pub length: usize,
}

/// The input with how many of its bytes are read, the bytes that were written and noted, and the
/// history's pieces by their lengths; with room for `calls` pieces and `bytes` bytes of output and notes.
#[derive(Drop)]
pub struct Log {
    input: Vec<u8>,
    taken: usize,
    written: Vec<u8>,
    noted: Vec<u8>,
    pieces: Vec<Piece>,
    calls: usize,
    bytes: usize,
}

impl Model for Log {
    ghost use Rattle.std.specs.Prelude.{drop, vec_capacity};
    ghost use Rattle.mmt_io.specs.Kept.{Kept, IsKept};
    ghost use Rattle.mmt_io.specs.Pieces.{events_of};

    ghost Value = { Kept };

    ghost view = { λ l. record {
      history = events_of l.pieces.items l.input.items l.written.items l.noted.items;
      unread = drop l.taken l.input.items;
      calls = l.calls;
      bytes = l.bytes;
    } };

    ghost invariant = { λ l. IsKept l.input.items l.taken l.written.items l.noted.items l.pieces.items l.calls l.bytes
        (vec_capacity l.written) (vec_capacity l.noted) (vec_capacity l.pieces) };
}

// Adds a piece to the history.
fn push_piece(pieces: &mut Vec<Piece>, kind: CallKind, length: usize)
    requires { vec_len pieces.old < vec_capacity pieces.old }
    ensures pushed { pieces.new.items ≡ pieces.old.items ++ record { kind = kind; length = length } ∷ [] }
    ensures read { total at_read pieces.new.items ≡ total at_read pieces.old.items + at_read kind length }
    ensures written { total at_write pieces.new.items ≡ total at_write pieces.old.items + at_write kind length }
    ensures noted { total at_note pieces.new.items ≡ total at_note pieces.old.items + at_note kind length }
    ensures room { vec_capacity pieces.old ≤ vec_capacity pieces.new }
{
    pieces.push(Piece { kind, length }).unwrap();
}

// Adds bytes to those that are kept.
fn append(kept: &mut Vec<u8>, bytes: &[u8])
    requires { vec_len kept.old + length bytes.now ≤ vec_capacity kept.old }
    ensures bytes { kept.new.items ≡ kept.old.items ++ bytes.now }
    ensures length { vec_len kept.new ≡ vec_len kept.old + length bytes.now }
    ensures room { vec_capacity kept.old ≤ vec_capacity kept.new }
{
    kept.extend_from_slice(bytes).unwrap();
}

impl Log {
    /// Nothing passed yet. It takes all the memory of its room, and no later call takes memory.
    pub fn new(
        alloc: Global,
        input: Vec<u8>,
        calls: usize,
        bytes: usize,
    ) -> Result<Log, OutOfMemory>
        ensures { IfOk result (λ log. log ≡ record { history = []; unread = input.items; calls = calls; bytes = bytes }) }
    {
        let written = Vec::with_capacity(alloc, bytes)?;
        let noted = Vec::with_capacity(alloc, bytes)?;
        let pieces = Vec::with_capacity(alloc, calls)?;
        Ok(Log {
            input,
            taken: 0,
            written,
            noted,
            pieces,
            calls,
            bytes,
        })
    }

    /// What was written.
    pub fn written(&self) -> &[u8]
        ensures { result.now ≡ bytes_written self.now.history }
    {
        &self.written
    }

    /// What was noted.
    pub fn noted(&self) -> &[u8]
        ensures { result.now ≡ bytes_noted self.now.history }
    {
        &self.noted
    }

    /// Whether one more piece with so many bytes of output or notes fits.
    pub fn has_room(&self, length: usize) -> bool
        ensures { result ≡ not (passes_room self.now length) }
    {
        let used = self.written.len() + self.noted.len();
        self.pieces.len() < self.calls && length <= self.bytes - used
    }

    /// Reads as many of the next bytes as fit and are there.
    pub fn read(&mut self, buf: &mut [u8]) -> usize
        requires { passes_room self.old 0 ≡ false }
        ensures count { result ≡ min (length buf.old) (length self.old.unread) }
        ensures given { buf.new ≡ take result self.old.unread ++ drop result buf.old }
        ensures kept { self.new ≡ record self.old { history = self.old.history ++ In (take result self.old.unread) ∷ []; unread = drop result self.old.unread } }
    {
        let count = buf.len().min(self.input.len() - self.taken);
        buf[..count].copy_from_slice(&self.input[self.taken..self.taken + count]);
        self.taken += count;
        push_piece(&mut self.pieces, CallKind::Read, count);
        count
    }

    /// Adds bytes that are written, as one piece.
    pub fn write(&mut self, bytes: &[u8])
        requires { passes_room self.old (length bytes.now) ≡ false }
        ensures { self.new ≡ record self.old { history = self.old.history ++ Out bytes.now ∷ [] } }
    {
        push_piece(&mut self.pieces, CallKind::Write, bytes.len());
        append(&mut self.written, bytes);
    }

    /// Adds bytes that are noted, as one piece.
    pub fn note(&mut self, bytes: &[u8])
        requires { passes_room self.old (length bytes.now) ≡ false }
        ensures { self.new ≡ record self.old { history = self.old.history ++ Note bytes.now ∷ [] } }
    {
        push_piece(&mut self.pieces, CallKind::Note, bytes.len());
        append(&mut self.noted, bytes);
    }
}

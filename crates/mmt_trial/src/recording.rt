//! A stream that is kept in memory, packet by packet.

ghost use Rattle.std.specs.Prelude.{◌≡◌, ◌-◌, ◌^◌, ◌++◌, ◌∷◌, [], true, map, slice_get, option_map, OnOk, OnErr};
ghost use Rattle.mmt_io.specs.History.Event.{Out};

use mmt_base::OutOfMemory;
use mmt_io::{Fault, Port};
use std::alloc::Global;
use std::marker::Model;

/// Where a piece stands among the bytes of a recording, from the first byte to before the last.
#[derive(Clone, Copy, Debug, PartialEq, Eq)]
pub struct Span {
    pub from: usize,
    pub to: usize,
}

/// What was written piece by piece, one piece after the other. Contracts see it as the list of the pieces.
#[derive(Drop)]
pub struct Recording {
    bytes: Vec<u8>,
    spans: Vec<Span>,
}

impl Model for Recording {
    ghost use Rattle.std.specs.Prelude.{ℕ, List, map, length};
    ghost use Rattle.mmt_trial.specs.Pieces.{AreWithin, piece_in};

    ghost Value = { List (List ℕ) };

    ghost view = { λ r. map (piece_in r.bytes.items) r.spans.items };

    ghost invariant = { λ r. AreWithin (length r.bytes.items) r.spans.items };
}

impl Recording {
    /// A recording without a piece. It takes no memory.
    pub fn new(alloc: Global) -> Recording
        ensures { result ≡ [] }
    {
        Recording {
            bytes: Vec::new(alloc),
            spans: Vec::new(alloc),
        }
    }

    /// Puts a piece at the end. After a refusal, when out of memory, the pieces are those that they were.
    pub fn add(&mut self, piece: &[u8]) -> Result<(), OutOfMemory>
        ensures added { OnOk result (self.new ≡ self.old ++ piece.now ∷ []) }
        ensures refused { OnErr result (self.new ≡ self.old) }
    {
        let from = self.bytes.len();
        match self.bytes.extend_from_slice(piece) {
            Ok(()) => {}
            Err(_) => return Err(OutOfMemory),
        }
        let to = self.bytes.len();
        match self.spans.push(Span { from, to }) {
            Ok(()) => {}
            Err(_) => return Err(OutOfMemory),
        }
        Ok(())
    }

    /// The piece at a place, counted from 0, where there is one.
    pub fn get(&self, place: usize) -> Option<&[u8]>
        ensures { option_map (λ piece. piece.now) result ≡ slice_get self.now place }
    {
        match self.spans.get(place) {
            Some(span) => Some(&self.bytes[span.from..span.to]),
            None => None,
        }
    }
}

/// A port without input on which a stream is recorded. A call fails only when out of memory, and a note always; the counts
/// of failed calls stand at their last value.
impl Port for Recording {
    ghost tells = { λ _. true };

    ghost history = { λ r. map Out r };

    ghost left = { λ _. [] };

    ghost read_faults = { λ _. 2 ^ 64 - 1 };

    ghost write_faults = { λ _. 2 ^ 64 - 1 };

    fn read(&mut self, _buf: &mut [u8]) -> Result<usize, Fault> {
        Err(Fault)
    }

    fn write(&mut self, bytes: &[u8]) -> Result<(), Fault> {
        match self.add(bytes) {
            Ok(()) => Ok(()),
            Err(_) => Err(Fault),
        }
    }

    fn note(&mut self, _bytes: &[u8]) -> Result<(), Fault> {
        Err(Fault)
    }
}

//! The packets of a whole stream that comes in pieces.
ghost use Rattle.std.specs.Prelude.{◌≡◌, ℕ, ◌+◌, ◌^◌, ◌<◌, List, [], flat_map, length, IfOk};
ghost use Rattle.mmt_tlv.specs.Frames.{Cuts, CutOn, Frames, bytes_of};

use crate::{CutEnd, Cutter, Fed};
use mmt_base::OutOfMemory;
use std::alloc::Global;

/// Where a packet stands in a stream: the place of its first byte, counted from the start of the
/// stream, and how many bytes it has with its header.
#[derive(Clone, Copy, Debug, PartialEq, Eq)]
pub struct Span {
    pub place: u64,
    pub length: usize,
}

/// What is left of a stream behind its last whole packet.
#[derive(Clone, Copy, Debug, PartialEq, Eq)]
pub enum FrameEnd {
    /// Nothing.
    Whole,
    /// A proper prefix of a packet, from `place` on.
    Cut { place: u64 },
    /// A byte that begins no packet, at `place`.
    Sync { place: u64 },
}

/// The packets of a stream, in order, and what is left behind them.
#[derive(Debug, Drop)]
pub struct FramedStream {
    pub packets: Vec<Span>,
    pub end: FrameEnd,
}

// Feeds a piece until it is taken, each time from where a packet ended. Answers the place of a byte that
// begins no packet, where there is one.
fn feed_all(
    cutter: &mut Cutter,
    piece: &[u8],
    spans: &mut Vec<Span>,
) -> Result<Option<u64>, OutOfMemory>
    requires { cutter.old.place + length cutter.old.held + length piece.now < 2 ^ 63 }
    ensures { IfOk result (λ lost. (stream : List ℕ) → Cuts stream piece.now cutter.old spans.old.items → CutOn lost stream cutter.new spans.new.items) }
{
    let mut rest = piece;
    'packets: loop {
        match cutter.feed(rest) {
            Fed::Packet { used } => {
                spans.push(Span {
                    place: cutter.place(),
                    length: cutter.packet().len(),
                })?;
                rest = &rest[used..];
            }
            Fed::Taken => return Ok(None),
            Fed::Sync { place } => return Ok(Some(place)),
        }
    }
}

// How the stream ends that the cutter has taken.
fn end_of(cutter: &Cutter) -> FrameEnd
    ensures { (stream : List ℕ) → (spans : List Span) → Cuts stream [] cutter.now spans → Frames stream spans result }
{
    match cutter.finish() {
        CutEnd::Whole => FrameEnd::Whole,
        CutEnd::Cut { place } => FrameEnd::Cut { place },
    }
}

/// Feeds these pieces to a new cutter, each again from where a packet ended until it is taken, and
/// answers the packets that it gave. These are the packets of the pieces joined (ARIB STD-B32 Part 3,
/// the TLV packet), however the stream was cut into pieces.
pub fn frame(alloc: Global, pieces: &[Vec<u8>]) -> Result<FramedStream, OutOfMemory>
    requires { length (flat_map bytes_of pieces.now) < 2 ^ 63 }
    ensures { IfOk result (λ framed. Frames (flat_map bytes_of pieces.now) framed.packets.items framed.end) }
{
    let mut cutter = Cutter::new(alloc)?;
    let mut packets = Vec::new(alloc);
    for piece in pieces {
        match feed_all(&mut cutter, piece, &mut packets)? {
            None => {}
            Some(place) => {
                let end = FrameEnd::Sync { place };
                return Ok(FramedStream { packets, end });
            }
        }
    }
    let end = end_of(&cutter);
    Ok(FramedStream { packets, end })
}

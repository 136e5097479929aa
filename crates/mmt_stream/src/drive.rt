//! The loop that reads a stream.
ghost use Rattle.std.specs.Prelude.{◌≡◌, ◌≢◌, ℕ, ◌+◌, ◌^◌, ◌<◌, ◌≤◌, List, [], length, IsTrue};
ghost use Rattle.mmt_io.specs.History.{Event};
ghost use Rattle.mmt_io.specs.Port.{OnlySends, Rose};
ghost use Rattle.mmt_tlv.specs.Framing.{Packet};
ghost use Rattle.mmt_stream.specs.Streaming.{Streams, Does};
ghost use Rattle.mmt_stream.specs.Driving.{Turn, Serves, EndsWith, IsNew};

use crate::consumer::Consumer;
use crate::end::{BrokenKind, StreamEnd, end_of};
use mmt_io::{Halt, Port};
use mmt_tlv::{CutEnd, Cutter, Fed};
use std::alloc::Global;

/// What a piece of the stream left.
#[derive(Drop)]
pub enum Served<C> {
    /// The consumer has taken all its packets.
    On(C),
    /// The byte at this place begins no packet.
    Lost { consumer: C, place: u64 },
    /// The consumer was halted.
    Halted(Halt),
}

// Takes a piece, and gives the consumer each packet that ends in it.
fn serve<P: Port, C: Consumer<P>>(
    port: &mut P,
    cutter: &mut Cutter,
    consumer: C,
    piece: &[u8],
) -> Served<C>
    requires { cutter.old.place + length cutter.old.held + length piece.now < 2 ^ 63 }
    ensures sends { OnlySends P.tells P.left P.read_faults P.write_faults port.old port.new }
    ensures cause { result ≡ Served.Halted Halt.WriteFault →
        Rose (P.write_faults port.old) (P.write_faults port.new) }
    ensures size { (next : C) → result ≡ Served.On next →
        cutter.new.place + length cutter.new.held ≡ cutter.old.place + length cutter.old.held + length piece.now }
    ensures same { (next : C) → result ≡ Served.On next → C.meaning next ≡ C.meaning consumer }
    ensures same_lost { (next : C) (place : ℕ) → result ≡ Served.Lost next place →
        C.meaning next ≡ C.meaning consumer }
    ensures served { IsTrue (P.tells port.old) → (limit : ℕ) (start : List Event) (left : List ℕ) →
        Turn (C.meaning consumer) C.stands limit start (P.history port.old) left
        (P.left port.old) piece.now cutter.old consumer (C.gathered consumer) →
        Serves (C.meaning consumer) C.stands C.gathered limit start (P.history port.new) left
        (P.left port.new) cutter.new result }
{
    let mut consumer = consumer;
    let mut rest = piece;
    'packets: loop {
        match cutter.lend(rest) {
            Some(tlv) => {
                let place = cutter.place() - tlv.len() as u64;
                match consumer.push(port, place, tlv) {
                    Ok(next) => consumer = next,
                    Err(reason) => return Served::Halted(reason),
                }
                rest = &rest[tlv.len()..];
            }
            None => match cutter.feed(rest) {
                Fed::Taken => return Served::On(consumer),
                Fed::Sync { place } => return Served::Lost { consumer, place },
                Fed::Packet { used } => {
                    match consumer.push(port, cutter.place(), cutter.packet()) {
                        Ok(next) => consumer = next,
                        Err(reason) => return Served::Halted(reason),
                    }
                    rest = &rest[used..];
                }
            },
        }
    }
}

// Ends the stream, with this answer where the consumer ends well.
fn finish<P: Port, C: Consumer<P>>(port: &mut P, consumer: C, wanted: StreamEnd) -> StreamEnd
    requires done { wanted ≢ StreamEnd.ReadFault }
    requires written { wanted ≢ StreamEnd.WriteFault }
    ensures sends { OnlySends P.tells P.left P.read_faults P.write_faults port.old port.new }
    ensures read_fault { result ≢ StreamEnd.ReadFault }
    ensures write_fault { result ≡ StreamEnd.WriteFault →
        Rose (P.write_faults port.old) (P.write_faults port.new) }
    ensures finished { IsTrue (P.tells port.old) → (packets : List Packet) →
        C.stands consumer packets →
        EndsWith (C.meaning consumer) (C.gathered consumer) packets wanted (P.history port.old)
        (P.history port.new) result }
{
    match consumer.finish(port) {
        Ok(()) => wanted,
        Err(Halt::WriteFault) => StreamEnd::WriteFault,
        Err(Halt::OutOfMemory) => unreachable!(),
    }
}

// Ends a stream that is broken at a place.
fn finish_broken<P: Port, C: Consumer<P>>(
    port: &mut P,
    consumer: C,
    kind: BrokenKind,
    place: u64,
) -> StreamEnd
    ensures sends { OnlySends P.tells P.left P.read_faults P.write_faults port.old port.new }
    ensures read_fault { result ≢ StreamEnd.ReadFault }
    ensures write_fault { result ≡ StreamEnd.WriteFault →
        Rose (P.write_faults port.old) (P.write_faults port.new) }
    ensures finished { IsTrue (P.tells port.old) → (packets : List Packet) →
        C.stands consumer packets →
        EndsWith (C.meaning consumer) (C.gathered consumer) packets (StreamEnd.Broken kind place)
        (P.history port.old) (P.history port.new) result }
{
    finish(port, consumer, StreamEnd::Broken { kind, place })
}

// Reads the stream to its end, through a buffer.
fn read_through<P: Port, C: Consumer<P>>(
    port: &mut P,
    cutter: &mut Cutter,
    buffer: &mut [u8],
    consumer: C,
    limit: u64,
) -> StreamEnd
    requires limit { limit ≤ 2 ^ 40 }
    requires room { 0 < length buffer.old }
    requires start { cutter.old.place + length cutter.old.held ≡ 0 }
    ensures tells { P.tells port.new ≡ P.tells port.old }
    ensures read_fault { result ≡ StreamEnd.ReadFault →
        Rose (P.read_faults port.old) (P.read_faults port.new) }
    ensures write_fault { result ≡ StreamEnd.WriteFault →
        Rose (P.write_faults port.old) (P.write_faults port.new) }
    ensures streams { IsTrue (P.tells port.old) →
        Turn (C.meaning consumer) C.stands limit (P.history port.old) (P.history port.old)
        (P.left port.old) (P.left port.old) [] cutter.old consumer (C.gathered consumer) →
        Streams (C.meaning consumer) limit result (P.history port.old) (P.history port.new)
        (P.left port.old) (P.left port.new) }
{
    let mut consumer = consumer;
    let mut taken: u64 = 0;
    'reads: loop {
        match consumer.settle(port) {
            Ok(next) => consumer = next,
            Err(reason) => return end_of(reason),
        }
        let room = limit - taken;
        let ask = room.min(buffer.len() as u64).max(1) as usize;
        let piece = &mut buffer[..ask];
        let count = match port.read(piece) {
            Ok(count) => count,
            Err(_) => return StreamEnd::ReadFault,
        };
        if count == 0 {
            match cutter.finish() {
                CutEnd::Whole => return finish(port, consumer, StreamEnd::Done),
                CutEnd::Cut { place } => return finish_broken(
                    port,
                    consumer,
                    BrokenKind::Cut,
                    place,
                ),
            }
        }
        if room == 0 {
            return StreamEnd::TooLong;
        }
        taken += count as u64;
        match serve(port, cutter, consumer, &piece[..count]) {
            Served::On(next) => consumer = next,
            Served::Lost { consumer, place } => {
                return finish_broken(port, consumer, BrokenKind::Sync, place);
            }
            Served::Halted(reason) => return end_of(reason),
        }
    }
}

// How many bytes a read asks for at most.
const PIECE: usize = 65_536;

/// Gives the consumer the packets of the port's stream, of which it reads at most `limit` bytes and one more. It takes
/// the room for the longest packet and one buffer of 65,536 bytes, and asks each read for what fits the buffer and the
/// limit leaves, or for one byte where it leaves none.
pub fn stream<P: Port, C: Consumer<P>>(
    alloc: Global,
    port: &mut P,
    consumer: C,
    limit: u64,
) -> StreamEnd
    requires limit { limit ≤ 2 ^ 40 }
    requires new { IsNew C.stands C.gathered consumer }
    // A fault is answered only where the port's count rose.
    ensures read_fault { result ≡ StreamEnd.ReadFault →
        Rose (P.read_faults port.old) (P.read_faults port.new) }
    ensures write_fault { result ≡ StreamEnd.WriteFault →
        Rose (P.write_faults port.old) (P.write_faults port.new) }
    // What was read and what went out, read by read, and each answer where it belongs.
    ensures does { IsTrue (P.tells port.old) →
        Does (C.meaning consumer) limit result (P.history port.old) (P.history port.new)
        (P.left port.old) (P.left port.new)
        (P.read_faults port.old) (P.read_faults port.new) (P.write_faults port.old)
        (P.write_faults port.new) }
{
    let mut cutter = match Cutter::new(alloc) {
        Ok(cutter) => cutter,
        Err(_) => return StreamEnd::OutOfMemory,
    };
    let mut buffer = match vec![in alloc; 0u8; PIECE] {
        Ok(buffer) => buffer,
        Err(_) => return StreamEnd::OutOfMemory,
    };
    read_through(port, &mut cutter, &mut buffer, consumer, limit)
}

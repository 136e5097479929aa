//! The commands `expand` and `squeeze`: a gateway between streams of compressed and of plain headers.
ghost use Rattle.std.specs.Prelude.{◌≡◌, ◌≢◌, ℕ, ◌^◌, ◌<◌, ◌≤◌, IsTrue};
ghost use Rattle.mmt_io.specs.Port.{Rose};
ghost use Rattle.mmt_cli.specs.Gateways.{Expands, Squeezes};
ghost use Rattle.mmt_cli.specs.Moments.{moment};

use crate::status::Status;
use mmt_gateway::{ExpandCommand, SqueezeCommand};
use mmt_io::Port;
use mmt_stream::stream;
use std::alloc::Global;

/// Reads the stream of a port and writes it with all headers, and notes the packets that it leaves out.
pub fn expand_within<P: Port>(alloc: Global, port: &mut P, limit: u64) -> Status
    requires { limit ≤ 2 ^ 40 }
    ensures no_usage { (index : ℕ) → result ≢ Status.Usage index }
    ensures read_fault { result ≡ Status.ReadFault →
        Rose (P.read_faults port.old) (P.read_faults port.new) }
    ensures write_fault { result ≡ Status.WriteFault →
        Rose (P.write_faults port.old) (P.write_faults port.new) }
    ensures expands { IsTrue (P.tells port.old) → Expands limit result
        (moment (P.history port.old) (P.left port.old) (P.read_faults port.old)
        (P.write_faults port.old))
        (moment (P.history port.new) (P.left port.new) (P.read_faults port.new)
        (P.write_faults port.new)) }
{
    match ExpandCommand::new(alloc) {
        Ok(command) => Status::from(stream(alloc, port, command, limit)),
        Err(_) => Status::OutOfMemory,
    }
}

/// Reads the stream of a port and writes it with compressed headers, and notes the packets that it leaves out. The first
/// header has the context `context`, and each new header the next one; of the packets of a header one in `full_every`
/// carries it.
pub fn squeeze_within<P: Port>(
    alloc: Global,
    port: &mut P,
    context: u16,
    full_every: u32,
    limit: u64,
) -> Status
    requires limit { limit ≤ 2 ^ 40 }
    requires context { context < 2 ^ 12 }
    requires every { 1 ≤ full_every }
    ensures no_usage { (index : ℕ) → result ≢ Status.Usage index }
    ensures read_fault { result ≡ Status.ReadFault →
        Rose (P.read_faults port.old) (P.read_faults port.new) }
    ensures write_fault { result ≡ Status.WriteFault →
        Rose (P.write_faults port.old) (P.write_faults port.new) }
    ensures squeezes { IsTrue (P.tells port.old) → Squeezes context full_every limit result
        (moment (P.history port.old) (P.left port.old) (P.read_faults port.old)
        (P.write_faults port.old))
        (moment (P.history port.new) (P.left port.new) (P.read_faults port.new)
        (P.write_faults port.new)) }
{
    match SqueezeCommand::new(alloc, context, full_every) {
        Ok(command) => Status::from(stream(alloc, port, command, limit)),
        Err(_) => Status::OutOfMemory,
    }
}

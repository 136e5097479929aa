//! The command `peak`: what a receiver's buffer would have held of a stream.
ghost use Rattle.std.specs.Prelude.{◌≡◌, ◌≢◌, ℕ, ◌^◌, ◌≤◌, IsTrue};
ghost use Rattle.mmt_io.specs.Port.{Rose};
ghost use Rattle.mmt_cli.specs.Moments.{moment};
ghost use Rattle.mmt_cli.specs.Peaks.{Peaks};

use crate::status::Status;
use mmt_io::Port;
use mmt_model::{FlowChoice, Params};
use mmt_peak::PeakCommand;
use mmt_stream::stream;
use std::alloc::Global;

/// Puts the packets of a port's stream that are heard of a flow into a buffer, and writes one line at the end.
pub fn peak_within<P: Port>(
    alloc: Global,
    port: &mut P,
    flow: FlowChoice,
    params: Params,
    limit: u64,
) -> Status
    requires { limit ≤ 2 ^ 40 }
    ensures no_usage { (index : ℕ) → result ≢ Status.Usage index }
    ensures read_fault { result ≡ Status.ReadFault →
        Rose (P.read_faults port.old) (P.read_faults port.new) }
    ensures write_fault { result ≡ Status.WriteFault →
        Rose (P.write_faults port.old) (P.write_faults port.new) }
    ensures peaks { IsTrue (P.tells port.old) → Peaks flow params limit result
        (moment (P.history port.old) (P.left port.old) (P.read_faults port.old)
        (P.write_faults port.old))
        (moment (P.history port.new) (P.left port.new) (P.read_faults port.new)
        (P.write_faults port.new)) }
{
    match PeakCommand::new(alloc, flow, params) {
        Ok(command) => Status::from(stream(alloc, port, command, limit)),
        Err(_) => Status::OutOfMemory,
    }
}

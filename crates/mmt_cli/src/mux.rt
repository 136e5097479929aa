//! The command `mux`: the stream of a plan.
ghost use Rattle.std.specs.Prelude.{◌≡◌, ◌≢◌, ℕ, IsTrue};
ghost use Rattle.mmt_io.specs.Port.{Rose};
ghost use Rattle.mmt_cli.specs.Moments.{moment};
ghost use Rattle.mmt_cli.specs.Muxing.{Muxes, ReadsNothing};

use crate::status::Status;
use mmt_io::{Port, Shelf};
use mmt_mux::mux;
use std::alloc::Global;

/// Reads the plan of a name and its files, and writes the stream of its programme.
pub fn mux_within<P: Port, H: Shelf>(
    alloc: Global,
    name: &str,
    port: &mut P,
    shelf: &mut H,
) -> Status
    ensures no_usage { (index : ℕ) → result ≢ Status.Usage index }
    ensures read_fault { result ≡ Status.ReadFault →
        Rose (H.faults shelf.old) (H.faults shelf.new) }
    ensures write_fault { result ≡ Status.WriteFault →
        Rose (P.write_faults port.old) (P.write_faults port.new) }
    ensures reads { IsTrue (P.tells port.old) → ReadsNothing
        (moment (P.history port.old) (P.left port.old) (P.read_faults port.old)
        (P.write_faults port.old))
        (moment (P.history port.new) (P.left port.new) (P.read_faults port.new)
        (P.write_faults port.new)) }
    ensures muxes { IsTrue (P.tells port.old) → IsTrue (H.tells shelf.old) →
        Muxes (H.file shelf.old) name.now result
        (moment (P.history port.old) (P.left port.old) (P.read_faults port.old)
        (P.write_faults port.old))
        (moment (P.history port.new) (P.left port.new) (P.read_faults port.new)
        (P.write_faults port.new)) }
{
    match mux(alloc, name, shelf, port) {
        Ok(()) => Status::Done,
        Err(end) => Status::from(end),
    }
}

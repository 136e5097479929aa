//! The command `pace`: the stream of a plan, one packet to a slot.
ghost use Rattle.std.specs.Prelude.{◌≡◌, ◌≢◌, ◌≤◌, ℕ, IsTrue};
ghost use Rattle.mmt_io.specs.Port.{Rose};
ghost use Rattle.mmt_cli.specs.Moments.{moment};
ghost use Rattle.mmt_cli.specs.Muxing.{ReadsNothing};
ghost use Rattle.mmt_cli.specs.Pacing.{Paces};

use crate::status::Status;
use mmt_io::{Port, Shelf};
use mmt_mux::pace;
use std::alloc::Global;

/// Reads the plan of a name and its files, and writes the stream of its programme, one packet to a slot, the slots `step`
/// ticks apart (of 1/65536 second).
pub fn pace_within<P: Port, H: Shelf>(
    alloc: Global,
    name: &str,
    step: u32,
    port: &mut P,
    shelf: &mut H,
) -> Status
    requires { 1 ≤ step }
    ensures no_usage { (index : ℕ) → result ≢ Status.Usage index }
    ensures read_fault { result ≡ Status.ReadFault →
        Rose (H.faults shelf.old) (H.faults shelf.new) }
    ensures write_fault { result ≡ Status.WriteFault →
        Rose (P.write_faults port.old) (P.write_faults port.new) }
    ensures reads { IsTrue (P.tells port.old) → ReadsNothing
        (moment (P.history port.old) (P.left port.old) (P.read_faults port.old)
        (P.write_faults port.old))
        (moment (P.history port.new) (P.left port.new) (P.read_faults port.new)
        (P.write_faults port.new)) }
    ensures paces { IsTrue (P.tells port.old) → IsTrue (H.tells shelf.old) →
        Paces (H.file shelf.old) name.now step result
        (moment (P.history port.old) (P.left port.old) (P.read_faults port.old)
        (P.write_faults port.old))
        (moment (P.history port.new) (P.left port.new) (P.read_faults port.new)
        (P.write_faults port.new)) }
{
    match pace(alloc, name, step, shelf, port) {
        Ok(()) => Status::Done,
        Err(end) => Status::from(end),
    }
}

//! The commands `trial` and `make`: a receiver on the desk.
ghost use Rattle.std.specs.Prelude.{◌≡◌, ◌≢◌, ℕ, IsTrue};
ghost use Rattle.mmt_io.specs.Port.{Rose};
ghost use Rattle.mmt_cli.specs.Moments.{moment};
ghost use Rattle.mmt_cli.specs.Muxing.{ReadsNothing};
ghost use Rattle.mmt_cli.specs.Trying.{Trials, Makes};

use crate::status::Status;
use mmt_desk::{make, run_trial};
use mmt_io::{Port, Shelf};
use std::alloc::Global;

/// Sends the cast of the plan of a name through the list of deliveries of a name, and writes one line of what a receiver gave
/// back.
pub fn trial_within<P: Port, H: Shelf>(
    alloc: Global,
    plan: &str,
    list: &str,
    port: &mut P,
    shelf: &mut H,
) -> Status
    ensures no_usage { (index : ℕ) → result ≢ Status.Usage index }
    ensures read_fault { result ≡ Status.ReadFault →
        Rose (H.faults shelf.old) (H.faults shelf.new) }
    ensures write_fault { result ≡ Status.WriteFault →
        Rose (P.write_faults port.old) (P.write_faults port.new) }
    ensures reads { IsTrue (P.tells port.old) → ReadsNothing
        (moment (P.history port.old) (P.left port.old) (P.read_faults port.old)
        (P.write_faults port.old))
        (moment (P.history port.new) (P.left port.new) (P.read_faults port.new)
        (P.write_faults port.new)) }
    ensures trials { IsTrue (P.tells port.old) → IsTrue (H.tells shelf.old) →
        Trials (H.file shelf.old) plan.now list.now result
        (moment (P.history port.old) (P.left port.old) (P.read_faults port.old)
        (P.write_faults port.old))
        (moment (P.history port.new) (P.left port.new) (P.read_faults port.new)
        (P.write_faults port.new)) }
{
    match run_trial(alloc, plan, list, shelf, port) {
        Ok(()) => Status::Done,
        Err(end) => Status::from(end),
    }
}

/// Writes one line of what a receiver gave back of the programme and the delivery that come from a number.
pub fn make_within<P: Port>(alloc: Global, seed: u16, port: &mut P) -> Status
    ensures no_usage { (index : ℕ) → result ≢ Status.Usage index }
    ensures no_read_fault { result ≢ Status.ReadFault }
    ensures write_fault { result ≡ Status.WriteFault →
        Rose (P.write_faults port.old) (P.write_faults port.new) }
    ensures makes { IsTrue (P.tells port.old) → Makes seed result
        (moment (P.history port.old) (P.left port.old) (P.read_faults port.old)
        (P.write_faults port.old))
        (moment (P.history port.new) (P.left port.new) (P.read_faults port.new)
        (P.write_faults port.new)) }
{
    match make(alloc, seed, port) {
        Ok(()) => Status::Done,
        Err(halt) => Status::from(halt),
    }
}

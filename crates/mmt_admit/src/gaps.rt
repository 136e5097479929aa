//! Timestamps that fall, and long silences (rule A2).

ghost use Rattle.std.specs.Prelude.{◌≡◌, ◌<◌, length};
ghost use Rattle.mmt_admit.specs.Faults.{as_fault, PacketsFit};
ghost use Rattle.mmt_model.specs.Admission.{fault_of_gap, or_else};

use crate::answers::{NotAdmitted, Rule, earlier, unless};
use crate::reads::tick_at;
use mmt_model::Sent;

/// The fault of a packet's timestamp after the one before it.
fn gap_fault(packets: &[Sent], n: usize) -> Option<NotAdmitted>
    requires fit { PacketsFit packets.now }
    requires place { n < length packets.now }
    ensures { as_fault result ≡ fault_of_gap packets.now n }
{
    if n == 0 {
        return None;
    }
    let before = tick_at(packets, n - 1);
    let at = tick_at(packets, n);
    earlier(
        unless(before <= at, Rule::A2, n as u32, at, before),
        unless(
            at < before + 1_073_741_824,
            Rule::A2,
            n as u32,
            at,
            before + 1_073_741_823,
        ),
    )
}

/// The first fault of a timestamp so far, or else that of a packet's timestamp.
pub(crate) fn gap_by(packets: &[Sent], n: usize, so_far: Option<NotAdmitted>) -> Option<NotAdmitted>
    requires fit { PacketsFit packets.now }
    requires place { n < length packets.now }
    ensures { as_fault result ≡ or_else (as_fault so_far) (fault_of_gap packets.now n) }
{
    match so_far {
        Some(_) => so_far,
        None => gap_fault(packets, n),
    }
}

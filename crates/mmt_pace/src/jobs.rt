//! The jobs of a cast.

ghost use Rattle.std.specs.Prelude.{◌≡◌, replicate, None, IfOk};
ghost use Rattle.mmt_pace.specs.Asked.{CanBePaced};
ghost use Rattle.mmt_pace.specs.Deadlines.{jobs_by};

use crate::limits::{copy_limits, lesser, own_limit};
use mmt_base::OutOfMemory;
use mmt_model::{Cast, List};
use mmt_slots::Job;
use std::alloc::Global;

/// How many packet ids there are (ISO/IEC 23008-1, the packet id).
const PACKET_IDS: usize = 65_536;

/// No limit for each of N packet ids.
fn no_limits(alloc: Global, ids: usize) -> Result<Vec<Option<u64>>, OutOfMemory>
    ensures { IfOk result (λ limits. limits.items ≡ replicate ids None) }
{
    let mut limits = Vec::with_capacity(alloc, ids)?;
    for _id in 0..ids {
        limits.push(None)?;
    }
    Ok(limits)
}

/// So many jobs, which are to be replaced.
fn blank_jobs(alloc: Global, count: usize) -> Result<Vec<Job>, OutOfMemory>
    ensures { IfOk result (λ jobs. jobs.items ≡ replicate count (record { release = 0; deadline = 0 })) }
{
    let blank = Job {
        release: 0,
        deadline: 0,
    };
    Ok(Vec::from_elem(alloc, blank, count)?)
}

/// The jobs of a cast, one for each packet in their order, in ticks of 1/65536 second. A packet is released at its
/// timestamp. Its deadline is the least of the limits of the packets of its packet id from it on. A packet of units
/// has the limit that a delay ends before the first of them is due; a packet of a table copy, that it ends before the
/// first unit of each MPU that the copy names is due, or the last, where it is too late for the first; and any other
/// packet the window after its timestamp.
///
/// It asks for a cast as right programmes have. Its time and its memory are in proportion to the cast.
///
/// # Errors
///
/// `OutOfMemory`.
pub fn jobs_of(alloc: Global, cast: &Cast) -> Result<List<Job>, OutOfMemory>
    requires { CanBePaced cast.now }
    ensures { IfOk result (λ jobs. jobs ≡ jobs_by cast.now) }
{
    let limits = copy_limits(alloc, cast)?;
    let mut least = no_limits(alloc, PACKET_IDS)?;
    let packets = cast.packets.as_slice();
    let count = packets.len();
    let mut jobs = blank_jobs(alloc, count)?;
    for i in 0..count {
        let packet = &packets[count - 1 - i];
        let id = packet.packet_id as usize;
        let deadline = lesser(own_limit(cast, limits.as_slice(), packet), least[id]);
        least[id] = Some(deadline);
        jobs[count - 1 - i] = Job {
            release: packet.at.0,
            deadline,
        };
    }
    Ok(List::from_vec(jobs))
}

//! Which packets are kept.

ghost use Rattle.std.specs.Prelude.{◌≡◌, ◌≤◌, ◌<◌, ◌^◌, true, false, [], None, filter, length};
ghost use Rattle.mmt_pool.specs.Doing.{of_packet};
ghost use Rattle.mmt_pool.specs.Holding.{held, is_in_window};
ghost use Rattle.mmt_runs.specs.Index.{begun_by};
ghost use Rattle.mmt_runs.specs.Reading.{heard};
ghost use Rattle.mmt_runs.specs.Told.{IsTold};
ghost use Rattle.mmt_recv.specs.Keeping.{Keeps, UnlessNoMemory};

use mmt_base::Tick;
use mmt_packet::Packet;
use mmt_pool::{NotStored, Pool, Span};
use mmt_runs::Runs;
use mmt_times::Names;

/// Lets go of every packet whose timestamp plus the window is not after the clock.
pub(crate) fn expire(pool: &mut Pool, runs: &mut Runs, names: &Names, clock: Tick, window: u32)
    requires { IsTold runs.old pool.old.kept names.now }
    ensures told { IsTold runs.new pool.new.kept names.now }
    ensures kept { pool.new.kept ≡ filter (is_in_window clock.0 window) pool.old.kept }
    ensures bound { pool.new.bound ≡ pool.old.bound }
    ensures peak { pool.new.peak ≡ pool.old.peak }
    ensures held { held pool.new.kept ≤ pool.new.peak }
{
    'packets: while let Some(span) = pool.expire_one(clock, window) {
        runs.removed(span);
    }
}

/// Keeps a packet with an accepted payload, unless it is late, a repeat, or there is no room for it.
/// `begins` is false only where no media unit may begin in it; the runs need no word of it then.
pub(crate) fn keep(
    pool: &mut Pool,
    runs: &mut Runs,
    names: &Names,
    clock: Tick,
    delay: u32,
    packet: &Packet<'_>,
    begins: bool,
) -> Result<Span, NotStored>
    requires told { IsTold runs.old pool.old.kept names.now }
    requires opened { (heard (of_packet packet.now)).is_opened ≡ true }
    requires short { length packet.now.payload.now < 2 ^ 31 }
    requires shut { begins ≡ false → begun_by (heard (of_packet packet.now)).payload ≡ None }
    ensures told { UnlessNoMemory result (IsTold runs.new pool.new.kept names.now) }
    ensures bound { pool.new.bound ≡ pool.old.bound }
    ensures keeps { Keeps delay clock.0 pool.old (of_packet packet.now) result pool.new }
{
    let span = match pool.store(clock, delay, packet.payload, 0, packet) {
        Ok(span) => span,
        Err(reason) => return Err(reason),
    };
    if !begins {
        return Ok(span);
    }
    match runs.added(pool, span, names) {
        Ok(()) => Ok(span),
        Err(_) => Err(NotStored::OutOfMemory),
    }
}

// Lets go of every packet whose timestamp is not after a tick, whatever was told of it.
fn let_leave(pool: &mut Pool, clock: Tick)
    ensures kept { pool.new.kept ≡ filter (is_in_window clock.0 0) pool.old.kept }
    ensures bound { pool.new.bound ≡ pool.old.bound }
{
    'packets: while pool.expire_one(clock, 0).is_some() {}
}

/// Lets go of all packets, whatever was told of them: for a receiver that is used no more.
///
/// Half of all timestamps are not after tick 0, and the others not after tick 2^31.
pub(crate) fn let_go(pool: &mut Pool, runs: &Runs, names: &Names)
    ensures told { IsTold runs.now pool.new.kept names.now }
    ensures kept { pool.new.kept ≡ [] }
    ensures bound { pool.new.bound ≡ pool.old.bound }
    ensures held { held pool.new.kept ≤ pool.new.bound }
    ensures live { length names.now.entries ≤ 1024 }
{
    let _ = names.len();
    let_leave(pool, Tick(0));
    let_leave(pool, Tick(1 << 31));
    let _ = pool.held();
}

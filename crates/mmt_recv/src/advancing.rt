//! The clock goes on: what is due is handed out, entries are forgotten, and packets leave the window.

ghost use Rattle.std.specs.Prelude.{◌≡◌, ◌≤◌, filter, IsTrue, IsErr, IfOk, OnOk, OnErr};
ghost use Rattle.mmt_io.specs.Port.{OnlySends, Rose};
ghost use Rattle.mmt_model.specs.Entries.{forget as forgotten};
ghost use Rattle.mmt_io.specs.Output.{Writes};
ghost use Rattle.mmt_output.specs.Due.{due_among};
ghost use Rattle.mmt_output.specs.Records.{amount_of, records};
ghost use Rattle.mmt_pool.specs.Holding.{held, is_in_window};
ghost use Rattle.mmt_runs.specs.Told.{IsTold};

use crate::keeping::expire;
use mmt_base::Tick;
use mmt_io::{Fault, Port};
use mmt_output::{Handed, hand_out};
use mmt_pool::Pool;
use mmt_runs::Runs;
use mmt_times::Names;

// Hands out what is due where the clock goes from one tick to another: nothing, and no kept packet is looked at, where no
// time that a table gave is due then.
fn hand_out_due<P: Port>(
    port: &mut P,
    pool: &Pool,
    names: &Names,
    runs: &Runs,
    from: Tick,
    to: Tick,
) -> Result<Handed, Fault>
    requires { IsTold runs.now pool.now.kept names.now }
    ensures sends { OnlySends P.tells P.left P.read_faults P.write_faults port.old port.new }
    ensures cause { IsErr result → Rose (P.write_faults port.old) (P.write_faults port.new) }
    ensures put { Writes P.tells P.history port.old port.new
        (records (due_among names.now pool.now.kept from.0 to.0)) result }
    ensures counts { IfOk result (λ handed. handed ≡ amount_of (due_among names.now pool.now.kept from.0 to.0)) }
{
    if names.is_any_due(from, to) {
        hand_out(port, pool, names, runs, from, to)
    } else {
        Ok(Handed::nothing())
    }
}

/// Takes the clock from one tick to another: hands out the units that are due, in their order, then
/// forgets the entries of which the last due tick is passed, and then lets go of the packets that are
/// out of the window.
///
/// # Errors
///
/// The port failed, and wrote a prefix of the records; nothing else has changed.
pub(crate) fn advance_to<P: Port>(
    port: &mut P,
    pool: &mut Pool,
    names: &mut Names,
    runs: &mut Runs,
    from: Tick,
    to: Tick,
    window: u32,
) -> Result<Handed, Fault>
    requires { IsTold runs.old pool.old.kept names.old }
    ensures sends { OnlySends P.tells P.left P.read_faults P.write_faults port.old port.new }
    ensures cause { IsErr result → Rose (P.write_faults port.old) (P.write_faults port.new) }
    ensures put { Writes P.tells P.history port.old port.new
        (records (due_among names.old pool.old.kept from.0 to.0)) result }
    ensures counts { IfOk result (λ handed. handed ≡ amount_of (due_among names.old pool.old.kept from.0 to.0)) }
    ensures told { OnOk result (IsTold runs.new pool.new.kept names.new) }
    ensures names { OnOk result
        (names.new ≡ record { entries = forgotten from.0 to.0 names.old.entries; sample_base = names.old.sample_base }) }
    ensures kept { OnOk result (pool.new.kept ≡ filter (is_in_window to.0 window) pool.old.kept) }
    ensures bound { OnOk result (pool.new.bound ≡ pool.old.bound) }
    ensures unchanged { OnErr result ((pool.new ≡ pool.old) × (names.new ≡ names.old) × (runs.new ≡ runs.old)) }
    ensures peak { OnOk result (pool.new.peak ≡ pool.old.peak) }
    ensures held { OnOk result (held pool.new.kept ≤ pool.new.peak) }
{
    let handed = match hand_out_due(port, pool, names, runs, from, to) {
        Ok(handed) => handed,
        Err(fault) => return Err(fault),
    };
    names.forget(from, to);
    expire(pool, runs, names, to, window);
    Ok(handed)
}

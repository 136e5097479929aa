//! The names of an MPT, taken one after another.

ghost use Rattle.std.specs.Prelude.{◌≡◌, ◌+◌, ◌^◌, ◌<◌, ◌≤◌, [], ◌∷◌, map, length, slice_index, IsTrue, IsErrOf, OnOk};
ghost use Rattle.std.specs.List.{AllByRecursion};
ghost use Rattle.mmt_io.specs.Port.{OnlySends, Rose};
ghost use Rattle.mmt_runs.specs.Told.{IsTold};
ghost use Rattle.mmt_io.specs.Output.{Notes};
ghost use Rattle.mmt_naming.specs.Lines.{Learns, lines_by};
ghost use Rattle.mmt_mpt.specs.Table.{mpt_id};
ghost use Rattle.mmt_mpt.specs.TableReading.{mpt_of};
ghost use Rattle.mmt_times.specs.EntryView.{view_entry};
ghost use Rattle.mmt_times.specs.NamedView.{view_named};
ghost use Rattle.mmt_times.specs.NamedLeft.{named_left};
ghost use Rattle.mmt_naming.specs.Findings.{Naming, finding_of, findings_of_mpt};
ghost use Rattle.mmt_naming.specs.Places.{IsInTable};

use crate::by::By;
use crate::remarks::{remark, tell_any};
use crate::spot::Spot;
use mmt_io::Port;
use mmt_mpt::read_mpt;
use mmt_output::{Note, Untold, tell};
use mmt_pool::Pool;
use mmt_runs::Runs;
use mmt_times::{Entries, Entry, Learned, Named, Names, entries_of};

/// Learns an entry that message M names, or notes why it is left out.
fn take_entry<P: Port>(
    port: &mut P,
    pool: &Pool,
    names: &mut Names,
    runs: &mut Runs,
    by: &By,
    message: u32,
    entry: &Entry<'_>,
) -> Result<(), Untold>
    requires told { IsTold runs.old pool.now.kept names.old }
    ensures sends { OnlySends P.tells P.left P.read_faults P.write_faults port.old port.new }
    ensures cause { IsErrOf result Untold.WriteFault → Rose (P.write_faults port.old) (P.write_faults port.new) }
    ensures told { OnOk result (IsTold runs.new pool.now.kept names.new) }
    ensures names { Learns by.now (Naming message (view_entry entry.now) ∷ []) names.old names.new result }
    ensures put { Notes P.tells P.history port.old port.new
        (lines_by by.now names.old (Naming message (view_entry entry.now) ∷ [])) result }
{
    let learned = names.learn(by.clock, entry);
    match learned {
        Learned::New => match runs.named(pool, names, entry.packet_id(), entry.mpu()) {
            Ok(()) => Ok(()),
            Err(_) => Err(Untold::OutOfMemory),
        },
        _ => tell_any(port, by, remark(message, entry, learned)),
    }
}

/// Takes a name of the table at a place of a message: an entry, or the refusal of a timestamp
/// descriptor, which is noted.
fn take_name<P: Port>(
    port: &mut P,
    pool: &Pool,
    names: &mut Names,
    runs: &mut Runs,
    by: &By,
    spot: Spot,
    named: Named<'_>,
) -> Result<(), Untold>
    requires told { IsTold runs.old pool.now.kept names.old }
    requires fits { spot.at + 2 ^ 17 < 2 ^ 32 }
    requires place { IsInTable (view_named named) }
    ensures sends { OnlySends P.tells P.left P.read_faults P.write_faults port.old port.new }
    ensures cause { IsErrOf result Untold.WriteFault → Rose (P.write_faults port.old) (P.write_faults port.new) }
    ensures told { OnOk result (IsTold runs.new pool.now.kept names.new) }
    ensures names { Learns by.now (finding_of spot.message spot.at (view_named named.entry) ∷ [])
        names.old names.new result }
    ensures put { Notes P.tells P.history port.old port.new
        (lines_by by.now names.old (finding_of spot.message spot.at (view_named named.entry) ∷ [])) result }
{
    match named {
        Named::Entry(entry) => take_entry(port, pool, names, runs, by, spot.message, &entry),
        Named::Refused { at, why } => {
            let note = Note::Times {
                message: spot.message,
                at: spot.at + at,
                why,
            };
            tell(by.alloc, port, by.place, &note)
        }
    }
}

/// Takes the names of the table at a place of a message, from first to last.
fn take_names<P: Port>(
    port: &mut P,
    pool: &Pool,
    names: &mut Names,
    runs: &mut Runs,
    by: &By,
    spot: Spot,
    entries: Entries<'_>,
) -> Result<(), Untold>
    requires told { IsTold runs.old pool.now.kept names.old }
    requires fits { spot.at + 2 ^ 17 < 2 ^ 32 }
    requires places { AllByRecursion IsInTable (named_left entries) }
    ensures sends { OnlySends P.tells P.left P.read_faults P.write_faults port.old port.new }
    ensures cause { IsErrOf result Untold.WriteFault → Rose (P.write_faults port.old) (P.write_faults port.new) }
    ensures told { OnOk result (IsTold runs.new pool.now.kept names.new) }
    ensures names { Learns by.now (map (finding_of spot.message spot.at) (named_left entries.entry))
        names.old names.new result }
    ensures put { Notes P.tells P.history port.old port.new
        (lines_by by.now names.old (map (finding_of spot.message spot.at) (named_left entries.entry))) result }
{
    for named in entries {
        match take_name(port, pool, names, runs, by, spot, named) {
            Ok(()) => {}
            Err(untold) => return Err(untold),
        }
    }
    Ok(())
}

/// Takes the MPT at a place of a message, or notes why it is none.
pub(crate) fn take_mpt<P: Port>(
    port: &mut P,
    pool: &Pool,
    names: &mut Names,
    runs: &mut Runs,
    by: &By,
    spot: Spot,
    table: &[u8],
) -> Result<(), Untold>
    requires told { IsTold runs.old pool.now.kept names.old }
    requires fits { spot.at + 2 ^ 17 < 2 ^ 32 }
    requires len { length table.now < 2 ^ 17 }
    requires id { slice_index table.now 0 ≡ mpt_id }
    ensures sends { OnlySends P.tells P.left P.read_faults P.write_faults port.old port.new }
    ensures cause { IsErrOf result Untold.WriteFault → Rose (P.write_faults port.old) (P.write_faults port.new) }
    ensures told { OnOk result (IsTold runs.new pool.now.kept names.new) }
    ensures names { Learns by.now (findings_of_mpt by.now.timescale spot.message spot.at (mpt_of table.now))
        names.old names.new result }
    ensures put { Notes P.tells P.history port.old port.new
        (lines_by by.now names.old (findings_of_mpt by.now.timescale spot.message spot.at (mpt_of table.now))) result }
{
    match read_mpt(table) {
        Ok(mpt) => {
            let entries = entries_of(&mpt, by.timescale);
            take_names(port, pool, names, runs, by, spot, entries)
        }
        Err(refused) => {
            let note = Note::Mpt {
                message: spot.message,
                at: spot.at + refused.at,
                why: refused.why,
            };
            tell(by.alloc, port, by.place, &note)
        }
    }
}

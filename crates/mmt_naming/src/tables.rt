//! The tables of a PA message, taken one after another.

ghost use Rattle.std.specs.Prelude.{◌≡◌, ◌+◌, ◌*◌, ◌^◌, ◌<◌, ◌≤◌, length, slice_index, IsTrue, IsErrOf, OnOk};
ghost use Rattle.std.specs.List.{All};
ghost use Rattle.mmt_io.specs.Port.{OnlySends, Rose};
ghost use Rattle.mmt_runs.specs.Told.{IsTold};
ghost use Rattle.mmt_io.specs.Output.{Notes};
ghost use Rattle.mmt_naming.specs.Lines.{Learns, lines_by};
ghost use Rattle.mmt_sig.specs.TableView.{view_table};
ghost use Rattle.mmt_sig.specs.MessageView.{tables_left};
ghost use Rattle.mmt_naming.specs.Findings.{findings_of_table, findings_of_tables};

use crate::by::By;
use crate::entries::take_mpt;
use crate::spot::Spot;
use mmt_io::Port;
use mmt_output::Untold;
use mmt_pool::Pool;
use mmt_runs::Runs;
use mmt_sig::{Table, Tables};
use mmt_times::Names;

/// The id of an MPT (ARIB STD-B60).
const MPT: u8 = 0x20;

/// Takes the table at a place of a message, where it is an MPT.
fn take_table<P: Port>(
    port: &mut P,
    pool: &Pool,
    names: &mut Names,
    runs: &mut Runs,
    by: &By,
    spot: Spot,
    table: &Table<'_>,
) -> Result<(), Untold>
    requires told { IsTold runs.old pool.now.kept names.old }
    requires fits { spot.at + 2 ^ 17 < 2 ^ 32 }
    requires len { length table.now.bytes.now < 2 ^ 17 }
    requires id { slice_index table.now.bytes.now 0 ≡ table.now.id }
    ensures sends { OnlySends P.tells P.left P.read_faults P.write_faults port.old port.new }
    ensures cause { IsErrOf result Untold.WriteFault → Rose (P.write_faults port.old) (P.write_faults port.new) }
    ensures told { OnOk result (IsTold runs.new pool.now.kept names.new) }
    ensures names { Learns by.now (findings_of_table by.now.timescale spot.message spot.at (view_table table.now))
        names.old names.new result }
    ensures put { Notes P.tells P.history port.old port.new
        (lines_by by.now names.old (findings_of_table by.now.timescale spot.message spot.at (view_table table.now))) result }
{
    if table.id != MPT {
        return Ok(());
    }
    take_mpt(port, pool, names, runs, by, spot, table.bytes)
}

/// Takes the tables that follow one another from a place of a message on.
pub(crate) fn take_tables<P: Port>(
    port: &mut P,
    pool: &Pool,
    names: &mut Names,
    runs: &mut Runs,
    by: &By,
    spot: Spot,
    tables: Tables<'_>,
) -> Result<(), Untold>
    requires told { IsTold runs.old pool.now.kept names.old }
    requires fits { spot.at + 2 ^ 17 * (length (tables_left tables) + 1) < 2 ^ 32 }
    requires within { All (λ t. length t.bytes < 2 ^ 17) (tables_left tables) }
    requires begin { All (λ t. slice_index t.bytes 0 ≡ t.id) (tables_left tables) }
    ensures sends { OnlySends P.tells P.left P.read_faults P.write_faults port.old port.new }
    ensures cause { IsErrOf result Untold.WriteFault → Rose (P.write_faults port.old) (P.write_faults port.new) }
    ensures told { OnOk result (IsTold runs.new pool.now.kept names.new) }
    ensures names { Learns by.now (findings_of_tables by.now.timescale spot.message spot.at (tables_left tables.entry))
        names.old names.new result }
    ensures put { Notes P.tells P.history port.old port.new
        (lines_by by.now names.old (findings_of_tables by.now.timescale spot.message spot.at (tables_left tables.entry))) result }
{
    let mut at = spot.at;
    for table in tables {
        let here = Spot {
            message: spot.message,
            at,
        };
        match take_table(port, pool, names, runs, by, here, &table) {
            Ok(()) => {}
            Err(untold) => return Err(untold),
        }
        at += table.bytes.len() as u32;
    }
    Ok(())
}

//! Writing a PLT.

ghost use Rattle.std.specs.Prelude.{◌≡◌, ◌+◌, ◌<◌, ◌≤◌, ◌^◌, ◌++◌, length, vec_len, vec_capacity, None, Ok, OnOk, OnErr};
ghost use Rattle.mmt_lists.specs.Counted.{counted};
ghost use Rattle.mmt_services.specs.PackageReading.{package_at};
ghost use Rattle.mmt_services.specs.Table.{PltFits, plt_spelling};
ghost use Rattle.mmt_services.specs.TableReading.{plt_of};
ghost use Rattle.mmt_services.specs.TableView.{table_of, view};

use crate::plt::Plt;
use mmt_base::OutOfMemory;
use mmt_fields::{put_bytes, put_u8, put_u16};

const PLT_ID: u8 = 0x80;

/// Appends a table where there is room for it.
#[tactic(auto, using(std::proofs::Common::append_assoc), unfolding(crate::specs::Table::plt_spelling))]
fn put_table(out: &mut Vec<u8>, version: u8, count: u8, packages: &[u8])
    requires fits { 1 + length packages.now < 2 ^ 16 }
    requires whole { (counted count package_at 5 packages.now).stop ≡ None }
    requires room { vec_len out.old + 5 + length packages.now ≤ vec_capacity out.old }
    ensures items { out.new.items ≡ out.old.items ++ plt_spelling (table_of version count packages.now) }
    ensures right { PltFits (table_of version count packages.now) }
{
    put_u8(out, PLT_ID);
    put_u8(out, version);
    put_u16(out, (1 + packages.len()) as u16);
    put_u8(out, count);
    put_bytes(out, packages);
}

/// Appends the table, with the bytes after its last package: the very bytes that it was read from.
///
/// # Errors
///
/// `OutOfMemory`, which leaves `out` as it was.
#[tactic(auto, using(crate::proofs::TableLaw::read_back))]
pub fn write_plt(out: &mut Vec<u8>, plt: &Plt<'_>) -> Result<(), OutOfMemory>
    ensures ok { OnOk result (out.new.items ≡ out.old.items ++ plt_spelling (view plt.now)) }
    // What was written has a spelling, and is read back as that table.
    ensures fits { OnOk result (PltFits (view plt.now)) }
    ensures read { OnOk result (plt_of (plt_spelling (view plt.now)) ≡ Ok (view plt.now)) }
    // What a refusal leaves.
    ensures err { OnErr result (out.new.items ≡ out.old.items) }
{
    out.reserve(5 + plt.packages.len())?;
    put_table(out, plt.version, plt.count, plt.packages);
    Ok(())
}

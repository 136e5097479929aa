//! Reading a PLT.

ghost use Rattle.std.specs.Prelude.{◌≡◌, ◌<◌, ◌≤◌, ◌^◌, length, slice_index, IfOk, IfErr, Ok};
ghost use Rattle.mmt_fields.specs.Reading.{Gives};
ghost use Rattle.mmt_services.specs.Table.{PltValue, PltFits, plt_spelling, plt_id};
ghost use Rattle.mmt_services.specs.TableReading.{plt_of};
ghost use Rattle.mmt_services.specs.TableView.{view};

use crate::plt::Plt;
use crate::plt_why::PltWhy;
use crate::reading_packages::after_packages;
use mmt_base::Refused;
use mmt_fields::{u8_at, u16_at};

#[tactic(auto, unfolding(crate::specs::TableReading::plt_of, mmt_lists::specs::Counted::counted_of))]
fn plt_from(table: &[u8]) -> Result<Plt<'_>, Refused<PltWhy>>
    requires { length table.now < 2 ^ 31 }
    ensures gives { Gives view result (plt_of table.now) }
    ensures place { IfErr result (λ e. e.at ≤ length table.now) }
{
    let (_, rest) = u8_at(table, 0, PltWhy::Short)?;
    let (version, rest) = u8_at(rest, 1, PltWhy::Short)?;
    let (len, rest) = u16_at(rest, 2, PltWhy::Short)?;
    if rest.len() != len as usize {
        return Err(Refused {
            at: 2,
            why: PltWhy::Length,
        });
    }
    let (count, packages) = u8_at(rest, 4, PltWhy::Short)?;
    let rest = after_packages(count, packages)?;
    Ok(Plt {
        version,
        count,
        packages,
        rest,
    })
}

/// Reads the PLT that a table of id 0x80 is as a whole, or says which check fails first, and where.
/// It takes no memory (after ARIB STD-B60, Package List Table; the layout and the order of the
/// checks are this project's rule).
pub fn read_plt(table: &[u8]) -> Result<Plt<'_>, Refused<PltWhy>>
    requires len { length table.now < 2 ^ 31 }
    requires id { slice_index table.now 0 ≡ plt_id }
    // What is read is spelled so.
    ensures found { IfOk result (λ p. PltFits (view p) × (table.now ≡ plt_spelling (view p))) }
    // What is spelled so is read.
    ensures only { (v : PltValue) → PltFits v → table.now ≡ plt_spelling v → Gives view result (Ok v) }
    // Which refusal it is, and where.
    ensures exact { Gives view result (plt_of table.now) }
    // The place lies within the table, or directly behind it.
    ensures place { IfErr result (λ e. e.at ≤ length table.now) }
{
    plt_from(table)
}

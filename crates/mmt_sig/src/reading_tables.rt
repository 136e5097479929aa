//! Reading the tables of a PA message.

ghost use Rattle.std.specs.Prelude.{◌≡◌, ◌+◌, ◌-◌, ◌*◌, ◌<◌, ◌≤◌, ◌^◌, List, [], ◌∷◌, length, IfOk, IfErr, Ok, Some, None, MatchResult, MatchOption, IfSome};
ghost use Rattle.mmt_fields.specs.Reading.{Gives};
ghost use Rattle.mmt_lists.specs.Counted.{counted};
ghost use Rattle.mmt_sig.specs.MessageReading.{table_at as table_by, listed_at as entry_by};
ghost use Rattle.mmt_sig.specs.TablesLeft.{tables_by};
ghost use Rattle.mmt_sig.specs.TableView.{view_table, view_own};

use crate::message::MessageWhy;
use crate::table::{Table, Whole};
use mmt_base::Refused;
use mmt_fields::{bytes_at, u8_at, u16_at, u32_at};

/// A directory entry, and what follows it.
#[tactic(auto, unfolding(crate::specs::MessageReading::listed_at))]
fn listed_at(at: u32, bytes: &[u8]) -> Result<(u32, &[u8]), Refused<MessageWhy>>
    ensures gives { Gives (λ x. (x.0, x.1.now)) result (entry_by at bytes.now) }
    ensures len { IfOk result (λ x. length x.1.now + 4 ≡ length bytes.now) }
    ensures place { IfErr result (λ e. e.at ≡ at) }
{
    u32_at(bytes, at, MessageWhy::Short)
}

/// A table with its header, and what follows it.
#[tactic(auto, unfolding(crate::specs::MessageReading::table_at))]
fn table_at(at: u32, bytes: &[u8]) -> Result<(Whole<'_>, &[u8]), Refused<MessageWhy>>
    ensures gives { Gives (λ x. (view_own x.0, x.1.now)) result (table_by at bytes.now) }
    ensures shorter { IfOk result (λ x. length x.1.now ≤ length bytes.now) }
    ensures place { IfErr result (λ e. e.at ≡ at) }
{
    let (id, rest) = u8_at(bytes, at, MessageWhy::Short)?;
    let (version, rest) = u8_at(rest, at, MessageWhy::Short)?;
    let (len, _) = u16_at(rest, at, MessageWhy::Short)?;
    let (bytes, rest) = bytes_at(bytes, 4 + len as usize, at, MessageWhy::Short)?;
    Ok((Whole { id, version, bytes }, rest))
}

/// What follows so many directory entries.
#[tactic(auto, using(crate::proofs::TableSteps::directory_stop, crate::proofs::TableSteps::directory_rest, crate::proofs::TableSteps::directory_here))]
pub(crate) fn after_directory(count: u8, bytes: &[u8]) -> Result<&[u8], Refused<MessageWhy>>
    requires { 8 + length bytes.now < 2 ^ 31 }
    ensures walk { MatchResult result
        (λ rest. ((counted count entry_by 8 bytes.now).stop ≡ None) × (rest.now ≡ (counted count entry_by 8 bytes.now).rest) × (length rest.now + 4 * count ≡ length bytes.now))
        (λ e. (counted count entry_by 8 bytes.now).stop ≡ Some e) }
    ensures place { IfErr result (λ e. e.at ≤ 8 + length bytes.now) }
{
    let mut left = count;
    let mut at = 8;
    let mut rest = bytes;
    while left > 0 {
        let (_, after) = listed_at(at, rest)?;
        at += (rest.len() - after.len()) as u32;
        rest = after;
        left -= 1;
    }
    Ok(rest)
}

/// What follows so many tables.
#[tactic(auto, using(crate::proofs::TableSteps::tables_stop, crate::proofs::TableSteps::tables_rest, crate::proofs::TableSteps::tables_here))]
pub(crate) fn after_tables(count: u8, from: u32, bytes: &[u8]) -> Result<&[u8], Refused<MessageWhy>>
    requires { from + length bytes.now < 2 ^ 31 }
    ensures walk { MatchResult result
        (λ rest. ((counted count table_by from bytes.now).stop ≡ None) × (rest.now ≡ (counted count table_by from bytes.now).rest) × (length rest.now ≤ length bytes.now))
        (λ e. (counted count table_by from bytes.now).stop ≡ Some e) }
    ensures place { IfErr result (λ e. e.at ≤ from + length bytes.now) }
{
    let mut left = count;
    let mut at = from;
    let mut rest = bytes;
    while left > 0 {
        let (_, after) = table_at(at, rest)?;
        at += (rest.len() - after.len()) as u32;
        rest = after;
        left -= 1;
    }
    Ok(rest)
}

/// The first of the tables that are left, and the directory entries and the bytes after it.
pub(crate) fn first_table<'a>(
    left: u8,
    entry: u32,
    directory: &'a [u8],
    at: u32,
    bytes: &'a [u8],
) -> Option<(Table<'a>, &'a [u8], &'a [u8])>
    requires { 0 < left }
    ensures first { MatchOption result (tables_by left entry directory.now at bytes.now ≡ [])
        (λ x. tables_by left entry directory.now at bytes.now ≡ view_table x.0 ∷ tables_by (left - 1) (entry + (length directory.now - length x.1.now)) x.1.now (at + (length bytes.now - length x.2.now)) x.2.now) }
    ensures end { IfSome result (λ x. (length x.1.now ≤ length directory.now) × (length x.2.now ≤ length bytes.now)) }
{
    let (listed, entries) = match listed_at(entry, directory) {
        Ok(found) => found,
        Err(_) => return None,
    };
    let (table, rest) = match table_at(at, bytes) {
        Ok(found) => found,
        Err(_) => return None,
    };
    Some((
        Table {
            id: table.id,
            version: table.version,
            listed,
            bytes: table.bytes,
        },
        entries,
        rest,
    ))
}

//! Writers of what a line tells of the names of an MPT: the MPUs that its timestamp descriptors name.

ghost use Rattle.std.specs.Prelude.{◌≡◌, ◌+◌, ◌*◌, ◌<◌, ◌≤◌, ◌^◌, ◌++◌, length, take, vec_len, vec_capacity, OnOk};
ghost use Rattle.std.specs.List.{flat_map};
ghost use Rattle.mmt_mpt.specs.TableView.{view as view_mpt};
ghost use Rattle.mmt_times.specs.EntryView.{view_entry};
ghost use Rattle.mmt_times.specs.NamedView.{view_named};
ghost use Rattle.mmt_times.specs.NamesOf.{names_of};
ghost use Rattle.mmt_list.specs.Names.{configured, time_text, times_text, entry_text, named_text};

use itoa::Buffer;
use mmt_base::OutOfMemory;
use mmt_fields::put_bytes;
use mmt_mpt::Mpt;
use mmt_times::{Entry, Named, entries_of};
use mmt_words::put_number;

/// The timescale of the extended timestamp descriptors that have none, in units a second.
const TIMESCALE: u32 = 90_000;

// Appends the access unit times of an entry.
fn put_times(digits: &mut Buffer, out: &mut Vec<u8>, entry: &Entry<'_>)
    requires { vec_len out.old + 36 * length (view_entry entry.now).aus ≤ vec_capacity out.old }
    ensures items { out.new.items ≡ out.old.items ++ flat_map time_text (view_entry entry.now).aus }
    ensures grows { vec_len out.old ≤ vec_len out.new }
    ensures len { vec_len out.new ≤ vec_len out.old + 36 * length (view_entry entry.now).aus }
    ensures capacity { vec_capacity out.old ≤ vec_capacity out.new }
{
    for time in entry.times() {
        put_number(digits, out, b" ", time.0);
    }
}

// Appends the access unit times of an entry behind their word, where there are any.
fn put_some_times(digits: &mut Buffer, out: &mut Vec<u8>, entry: &Entry<'_>)
    requires { vec_len out.old + 6 + 36 * length (view_entry entry.now).aus ≤ vec_capacity out.old }
    ensures items { out.new.items ≡ out.old.items ++ times_text (view_entry entry.now).aus }
    ensures grows { vec_len out.old ≤ vec_len out.new }
    ensures len { vec_len out.new ≤ vec_len out.old + 6 + 36 * length (view_entry entry.now).aus }
    ensures capacity { vec_capacity out.old ≤ vec_capacity out.new }
{
    if entry.count() > 0 {
        put_bytes(out, b" times");
        put_times(digits, out, entry);
    }
}

// Appends an entry.
#[tactic(auto, unfolding(crate::specs::Names::entry_text))]
fn put_entry(digits: &mut Buffer, out: &mut Vec<u8>, entry: &Entry<'_>) -> Result<(), OutOfMemory>
    ensures items { OnOk result (out.new.items ≡ out.old.items ++ entry_text (view_entry entry.now)) }
    ensures front { take (vec_len out.old) out.new.items ≡ out.old.items }
{
    out.reserve(120 + 36 * entry.count() as usize)?;
    put_number(digits, out, b" [name ", entry.packet_id() as u64);
    put_number(digits, out, b" ", entry.mpu() as u64);
    put_number(digits, out, b" ", entry.time().0);
    put_some_times(digits, out, entry);
    put_bytes(out, b"]");
    Ok(())
}

// Appends a name where it is an entry.
fn put_named(digits: &mut Buffer, out: &mut Vec<u8>, named: &Named<'_>) -> Result<(), OutOfMemory>
    ensures items { OnOk result (out.new.items ≡ out.old.items ++ named_text (view_named named.now)) }
    ensures front { take (vec_len out.old) out.new.items ≡ out.old.items }
{
    match named {
        Named::Entry(entry) => put_entry(digits, out, entry),
        Named::Refused { .. } => Ok(()),
    }
}

/// Appends the entries of an MPT.
pub fn put_names(digits: &mut Buffer, out: &mut Vec<u8>, mpt: &Mpt<'_>) -> Result<(), OutOfMemory>
    ensures items { OnOk result (out.new.items ≡ out.old.items ++ flat_map named_text (names_of configured (view_mpt mpt.now))) }
    ensures front { take (vec_len out.old) out.new.items ≡ out.old.items }
{
    for named in entries_of(mpt, TIMESCALE) {
        put_named(digits, out, &named)?;
    }
    Ok(())
}

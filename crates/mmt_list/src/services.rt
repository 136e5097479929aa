//! Writers of what a line tells of a table that lists services.

ghost use Rattle.std.specs.Prelude.{◌≡◌, ◌+◌, ◌^◌, ◌<◌, ◌≤◌, ◌++◌, length, take, slice_index, vec_len, vec_capacity, Ok, Err, OnOk};
ghost use Rattle.std.specs.List.{flat_map};
ghost use Rattle.mmt_services.specs.PackageView.{view_package};
ghost use Rattle.mmt_services.specs.Table.{plt_id};
ghost use Rattle.mmt_services.specs.TableReading.{plt_of};
ghost use Rattle.mmt_services.specs.TableView.{view as view_plt};
ghost use Rattle.mmt_list.specs.Services.{plt_word, package_text, plt_text};

use itoa::Buffer;
use mmt_base::{OutOfMemory, Refused};
use mmt_fields::put_bytes;
use mmt_mpt::Location;
use mmt_services::{Package, Plt, PltWhy, read_plt};
use mmt_words::put_number;

// Appends the word of the refusal of a PLT.
#[tactic(auto, unfolding(crate::specs::Services::plt_word))]
fn put_plt_why(out: &mut Vec<u8>, why: PltWhy)
    requires { vec_len out.old + 20 ≤ vec_capacity out.old }
    ensures items { out.new.items ≡ out.old.items ++ plt_word why }
    ensures grows { vec_len out.old ≤ vec_len out.new }
    ensures len { vec_len out.new ≤ vec_len out.old + 20 }
    ensures capacity { vec_capacity out.old ≤ vec_capacity out.new }
{
    match why {
        PltWhy::Short => put_bytes(out, b"plt-short"),
        PltWhy::Length => put_bytes(out, b"plt-length"),
        PltWhy::LocationKind(_) => put_bytes(out, b"plt-location"),
    }
}

// Appends the refusal of a PLT.
#[tactic(auto, unfolding(crate::specs::Services::plt_text))]
fn put_refused_plt(out: &mut Vec<u8>, refused: Refused<PltWhy>) -> Result<(), OutOfMemory>
    ensures items { OnOk result (out.new.items ≡ out.old.items ++ plt_text (Err refused)) }
    ensures front { take (vec_len out.old) out.new.items ≡ out.old.items }
{
    out.reserve(40)?;
    put_bytes(out, b" [refused ");
    put_plt_why(out, refused.why);
    put_bytes(out, b"]");
    Ok(())
}

// Appends the packet id of a package's location, where it is one in the same flow.
#[tactic(auto, unfolding(crate::specs::Services::place_text))]
fn put_package(
    digits: &mut Buffer,
    out: &mut Vec<u8>,
    listed: &Package<'_>,
) -> Result<(), OutOfMemory>
    ensures items { OnOk result (out.new.items ≡ out.old.items ++ package_text (view_package listed.now)) }
    ensures front { take (vec_len out.old) out.new.items ≡ out.old.items }
{
    match listed.location {
        Location::Here { packet_id } => {
            out.reserve(36)?;
            put_number(digits, out, b" ", packet_id as u64);
            Ok(())
        }
        Location::Ip4 { .. } => Ok(()),
        Location::Ip6 { .. } => Ok(()),
        Location::Stream { .. } => Ok(()),
        Location::Ip6Stream { .. } => Ok(()),
        Location::Url { .. } => Ok(()),
    }
}

// Appends the packages of a PLT.
fn put_packages(digits: &mut Buffer, out: &mut Vec<u8>, plt: &Plt<'_>) -> Result<(), OutOfMemory>
    ensures items { OnOk result (out.new.items ≡ out.old.items ++ flat_map package_text (view_plt plt.now).packages) }
    ensures front { take (vec_len out.old) out.new.items ≡ out.old.items }
{
    for package in plt.packages() {
        put_package(digits, out, &package)?;
    }
    Ok(())
}

// How many packages a PLT has.
fn packages_of(plt: &Plt<'_>) -> u32
    requires { length (view_plt plt.now).packages < 2 ^ 8 }
    ensures { result ≡ length (view_plt plt.now).packages }
{
    let mut count = 0;
    for _package in plt.packages() {
        count += 1;
    }
    count
}

// Appends a PLT that was read.
#[tactic(auto, unfolding(crate::specs::Services::plt_text))]
fn put_read_plt(digits: &mut Buffer, out: &mut Vec<u8>, plt: &Plt<'_>) -> Result<(), OutOfMemory>
    requires { length (view_plt plt.now).packages < 2 ^ 8 }
    ensures items { OnOk result (out.new.items ≡ out.old.items ++ plt_text (Ok (view_plt plt.now))) }
    ensures front { take (vec_len out.old) out.new.items ≡ out.old.items }
{
    out.reserve(36)?;
    put_number(digits, out, b" [plt ", packages_of(plt) as u64);
    put_packages(digits, out, plt)?;
    out.reserve(1)?;
    put_bytes(out, b"]");
    Ok(())
}

/// Appends the PLT that a table is.
#[tactic(auto, unfolding(crate::specs::Services::plt_text))]
pub fn put_plt(digits: &mut Buffer, out: &mut Vec<u8>, table: &[u8]) -> Result<(), OutOfMemory>
    requires short { length table.now < 2 ^ 17 }
    requires id { slice_index table.now 0 ≡ plt_id }
    ensures items { OnOk result (out.new.items ≡ out.old.items ++ plt_text (plt_of table.now)) }
    ensures front { take (vec_len out.old) out.new.items ≡ out.old.items }
{
    match read_plt(table) {
        Ok(plt) => put_read_plt(digits, out, &plt),
        Err(refused) => put_refused_plt(out, refused),
    }
}

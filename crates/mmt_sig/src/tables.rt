//! Going over the tables of a PA message.

ghost use Rattle.std.specs.Prelude.{◌+◌, ◌<◌, ◌^◌, length};

use crate::reading_tables::first_table;
use crate::table::Table;

/// The tables of a PA message from first to last, each with its directory entry. It takes no memory.
#[derive(Clone, Copy, Debug)]
pub struct Tables<'a> {
    pub(crate) left: u8,
    pub(crate) entry: u32,
    pub(crate) directory: &'a [u8],
    pub(crate) at: u32,
    pub(crate) rest: &'a [u8],
    ghost listed: { entry + length directory.now < 2 ^ 31 },
    ghost fits: { at + length rest.now < 2 ^ 31 },
}

impl<'a> Tables<'a> {
    ghost use Rattle.std.specs.Prelude.{◌≡◌, ◌+◌, ◌<◌, ◌^◌, length, slice_index};
    ghost use Rattle.std.specs.List.{All};
    ghost use Rattle.mmt_sig.specs.TablesLeft.{tables_by};
    ghost use Rattle.mmt_sig.specs.MessageView.{tables_left};

    /// So many tables and their directory entries, which begin at byte 8 of a message.
    pub(crate) fn new(count: u8, directory: &'a [u8], at: u32, bytes: &'a [u8]) -> Tables<'a>
        requires listed { 8 + length directory.now < 2 ^ 31 }
        requires fits { at + length bytes.now < 2 ^ 31 }
        ensures tables { tables_left result ≡ tables_by count 8 directory.now at bytes.now }
        ensures within { All (λ t. length t.bytes < 2 ^ 17) (tables_by count 8 directory.now at bytes.now) }
        ensures begin { All (λ t. slice_index t.bytes 0 ≡ t.id) (tables_by count 8 directory.now at bytes.now) }
    {
        Tables {
            left: count,
            entry: 8,
            directory,
            at,
            rest: bytes,
        }
    }
}

impl<'a> Iterator for Tables<'a> {
    ghost use Rattle.std.specs.Iterator.{YieldsFirstBy, item_count};
    ghost use Rattle.mmt_sig.specs.TableView.{view_table};
    ghost use Rattle.mmt_sig.specs.MessageView.{tables_left};

    type Item = Table<'a>;

    ghost next_gives = { YieldsFirstBy view_table tables_left };

    ghost remaining = { item_count tables_left };

    fn next(&mut self) -> Option<Table<'a>> {
        if self.left == 0 {
            return None;
        }
        let (table, directory, rest) = first_table(
            self.left,
            self.entry,
            self.directory,
            self.at,
            self.rest,
        )?;
        self.left -= 1;
        self.entry += (self.directory.len() - directory.len()) as u32;
        self.directory = directory;
        self.at += (self.rest.len() - rest.len()) as u32;
        self.rest = rest;
        Some(table)
    }
}

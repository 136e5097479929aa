//! A PA message, over the bytes that it was read from.

ghost use Rattle.std.specs.Prelude.{◌≡◌, ◌+◌, ◌<◌, ◌^◌, length};
ghost use Rattle.mmt_sig.specs.TablesLeft.{tables_by};

use crate::tables::Tables;

/// A PA message: its version and its tables (ISO/IEC 23008-1, PA message).
#[derive(Clone, Copy, Debug)]
pub struct Pa<'a> {
    pub(crate) version: u8,
    pub(crate) count: u8,
    pub(crate) directory: &'a [u8],
    pub(crate) at: u32,
    pub(crate) tables: &'a [u8],
    ghost listed: { 8 + length directory.now < 2 ^ 31 },
    ghost fits: { at + length tables.now < 2 ^ 31 },
    ghost counted: { count ≡ length (tables_by count 8 directory.now at tables.now) },
}

impl<'a> Pa<'a> {
    ghost use Rattle.std.specs.Prelude.{◌≡◌, ◌<◌, ◌^◌, length, slice_index};
    ghost use Rattle.std.specs.List.{All};
    ghost use Rattle.mmt_sig.specs.MessageView.{view_pa, tables_left};

    /// The message's version.
    pub fn version(&self) -> u8
        ensures { result ≡ (view_pa self.now).version }
    {
        self.version
    }

    /// How many tables there are.
    pub fn count(&self) -> u32
        ensures { result ≡ length (view_pa self.now).tables }
    {
        self.count as u32
    }

    /// The tables, from first to last.
    pub fn tables(&self) -> Tables<'a>
        ensures tables { tables_left result ≡ (view_pa self.now).tables }
        // Each is short enough to be read as a table.
        ensures within { All (λ t. length t.bytes < 2 ^ 17) (view_pa self.now).tables }
        // Each begins with its id.
        ensures begin { All (λ t. slice_index t.bytes 0 ≡ t.id) (view_pa self.now).tables }
    {
        Tables::new(self.count, self.directory, self.at, self.tables)
    }
}

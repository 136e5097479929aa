//! A descriptor.

/// A descriptor, over the table that it was read from (ARIB STD-B60, MMT-SI descriptors).
#[derive(Clone, Copy, Debug)]
pub struct Descriptor<'a> {
    pub tag: u16,
    /// The place of the content in the table, in bytes.
    pub from: u32,
    /// The content.
    pub bytes: &'a [u8],
}

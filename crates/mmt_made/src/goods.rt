//! What is made from a number.

use mmt_io::MemoryShelf;
use mmt_model::{List, Programme};

/// A programme with the files of its assets, and a delivery of its cast.
#[derive(Drop)]
pub struct Made {
    pub programme: Programme,
    pub shelf: MemoryShelf,
    pub deliveries: List<u32>,
}

//! The room in which a packet is made.

ghost use Rattle.std.specs.Prelude.{◌≡◌, []};

use std::alloc::Global;

/// Two vectors in which a packet is made: `outer` has the TLV packet so far. Where headers are compressed it is made
/// there from first to last. Otherwise `inner` has its UDP payload, since the checksum stands before it.
#[derive(Drop)]
pub struct Made {
    pub inner: Vec<u8>,
    pub outer: Vec<u8>,
}

impl Made {
    /// No packet. It takes no memory.
    pub fn new(alloc: Global) -> Made
        ensures inner { result.inner.items ≡ [] }
        ensures outer { result.outer.items ≡ [] }
    {
        Made {
            inner: Vec::new(alloc),
            outer: Vec::new(alloc),
        }
    }
}

//! Why bytes could not be read.

/// The first check that the bytes fail: the place that it is about, in bytes from the start of the
/// slice that was read, and what is wrong there.
#[derive(Clone, Copy, Debug, PartialEq, Eq)]
pub struct Refused<W> {
    pub at: u32,
    pub why: W,
}

//! The reading of a stream of TLV packets, written once for all commands that read one.
#![tactic(auto)]

pub mod consumer;
pub mod drive;
pub mod end;

pub use consumer::Consumer;
pub use drive::stream;
pub use end::{BrokenKind, StreamEnd};
pub use mmt_io::Halt;

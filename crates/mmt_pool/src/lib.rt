//! The pool of kept packets, with their payloads: the receiver's buffer.
#![tactic(auto)]

mod key;
mod pool;
mod queue;
mod row;
mod strays;
#[cfg(test)]
mod tests;
mod types;

pub use pool::Pool;
pub use types::{NotStored, Span};

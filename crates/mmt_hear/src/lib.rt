//! Hearing: which TLV packets carry an MMTP packet of the chosen flow.
#![tactic(auto)]

mod hearer;
mod reasons;
mod why;

pub use hearer::{Heard, Hearer, opened};
pub use reasons::{ctx_reason, ip_reason, mmtp_reason};
pub use why::Why;

#[cfg(test)]
mod tests;

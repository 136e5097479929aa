//! The words of refusals and the numbers behind them, which are the same wherever a refusal is told:
//! in the lines of a capture and in the notes of a receiver.
#![tactic(auto)]

mod numbers;
mod refusals;
mod signalling;

pub use numbers::put_number;
pub use refusals::{put_mpu_why, put_why};
pub use signalling::{put_message_why, put_mpt_why, put_sig_why, put_times_why};

#[cfg(test)]
mod tests;

//! What the words of the command line ask for.
#![tactic(auto)]

mod assumed;
mod flows;
mod gateway_words;
mod make_words;
mod numbers;
mod options;
mod pace_words;
mod peak_words;
#[cfg(test)]
mod plan_tests;
mod plan_words;
#[cfg(test)]
mod take_tests;
mod take_words;
#[cfg(test)]
mod tests;
mod words;

pub use flows::flow_of;
pub use numbers::number_in;
pub use take_words::TakeOptions;
pub use words::{Command, command_of};

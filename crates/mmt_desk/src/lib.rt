//! Trials as commands: of a programme, a list of deliveries and files, and of a number from which all of them are made.
#![tactic(auto)]

mod listing;
mod loading;
mod making;
mod planning;
mod running;
mod telling;
mod trying;
mod unfailing;

pub use making::make;
pub use running::run_trial;
pub use telling::tell;
pub use trying::try_list;

#[cfg(test)]
mod tests;

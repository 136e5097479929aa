//! The jobs of a cast, and the cast that is paced: one packet to a slot of a transmitter that sends at a
//! fixed rate.
#![tactic(auto)]

mod jobs;
mod laws;
mod limits;
mod recasting;
#[cfg(test)]
mod samples;
mod spans;
mod steps;
#[cfg(test)]
mod tests;
mod timing;

pub use jobs::jobs_of;
pub use laws::{
    casts_are_told, casts_begin_in_time, casts_can_be_paced, paced_casts_are_one,
    paced_casts_are_readable, recast_programmes_are_delivered, recast_programmes_are_right,
    recasts_are_right,
};
pub use recasting::paced;
pub use steps::pace_cast;

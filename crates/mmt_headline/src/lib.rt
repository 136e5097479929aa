//! What a receiver gives back of a delivery of the cast of a programme: from the bytes of each packet to a
//! run of `take`. Each law is the contract of a function that does nothing.
#![tactic(auto)]

pub mod bytes_heard;
pub mod definitions_agree;
pub mod programmes_received;
pub mod take_runs;
pub mod whole_casts;
pub mod worked_plans;

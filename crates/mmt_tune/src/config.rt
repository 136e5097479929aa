//! The configuration of a receiver.

use mmt_model::FlowChoice;

/// What a receiver goes by.
#[derive(Clone, Copy, Debug)]
pub struct Config {
    /// How many payload bytes may be kept, from 1 to 1,073,741,824.
    pub bound: u32,
    /// The packets of which flow are heard.
    pub flow: FlowChoice,
    /// Which sample number the first access unit of an MPU has, 0 or 1.
    pub sample_base: u32,
    /// The timescale of descriptors that carry none, in units a second, at least 1.
    pub timescale: u32,
    /// The window and the delay in ticks, for a stream that holds no buffer message.
    pub assumed: Option<(u32, u32)>,
}

//! What a receiver is made of.

use crate::{Config, Receiver};
use mmt_model::FlowChoice;
use std::test::Fail;

// A further field doesn't compile. All packets that are kept are in the pool.
#[test]
fn fields_of_receiver(rt: HostRuntime) -> Result<(), Fail> {
    let bound = 4000;
    let asked = Config {
        bound,
        flow: FlowChoice::Any,
        sample_base: 1,
        timescale: 90_000,
        assumed: None,
    };
    let Receiver {
        alloc: _,
        config,
        hearer: _,
        tuned,
        pool,
        names: _,
        runs: _,
        message,
        counts,
    } = Receiver::new(rt.alloc(), asked)?;
    assert_eq!(rt; (config.bound, pool.held(), message.len()), (bound, 0, 0));
    assert!(rt; tuned.is_none());
    assert_eq!(rt; (counts.units, counts.peak), (0, 0));
    Ok(())
}

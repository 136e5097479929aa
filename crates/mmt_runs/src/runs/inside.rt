//! What the runs are made of.

use crate::runs::Runs;
use std::test::Fail;

// A further field doesn't compile. None is of bytes.
#[test]
fn fields_of_runs(rt: HostRuntime) -> Result<(), Fail> {
    let Runs {
        starts,
        index,
        begun,
        is_indexed,
    } = Runs::new(rt.alloc());
    assert_eq!(rt; (starts.len(), index.len(), begun.len()), (0, 0, 0));
    assert!(rt; is_indexed);
    Ok(())
}

//! What a pool is made of.

use crate::pool::{Pool, cut};
use crate::queue::Queue;
use std::test::Fail;

// A further field doesn't compile.
#[test]
fn fields_of_pool(rt: HostRuntime) -> Result<(), Fail> {
    let Pool {
        alloc: _,
        packets,
        queue,
        total,
        bound,
        peak,
    } = Pool::new(rt.alloc(), 9)?;
    let Queue { row, strays } = queue;
    assert_eq!(rt; (packets.len(), row.len(), strays.len()), (0, 0, 0));
    assert_eq!(rt; (total, bound, peak), (0, 9, 0));
    Ok(())
}

#[test]
fn pool_shares_the_buffer(rt: HostRuntime) -> Result<(), Fail> {
    let kept = cut(rt.alloc(), &[7, 1, 2, 3], 1, 3)?;
    assert!(rt; kept.is_unique());
    let part = kept.slice(1..3)?;
    assert_eq!(rt; &*part, [2, 3].as_slice());
    assert!(rt; !kept.is_unique());
    drop(part);
    assert!(rt; kept.is_unique());
    Ok(())
}

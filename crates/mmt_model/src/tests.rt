//! Calls that take memory, where there is enough.

use super::{List, Text};
use std::test::Fail;

#[test]
fn a_list_grows_at_its_end(rt: HostRuntime) -> Result<(), Fail> {
    let mut list = List::new(rt.alloc());
    assert_eq!(rt; list.len(), 0);
    list.push(7u32).ok().ok_or("no memory")?;
    list.push(9).ok().ok_or("no memory")?;
    assert_eq!(rt; list.as_slice(), [7, 9].as_slice());
    assert_eq!(rt; list.get(1).copied(), Some(9));
    assert!(rt; list.get(2).is_none());
    let same = List::from_vec([7u32, 9].to_vec(rt.alloc())?);
    assert_eq!(rt; same.len(), list.len());
    Ok(())
}

#[test]
fn a_text_is_a_copy(rt: HostRuntime) -> Result<(), Fail> {
    let text = Text::from_str(rt.alloc(), "v.bin").ok().ok_or("no memory")?;
    assert_eq!(rt; text.as_str(), "v.bin");
    Ok(())
}

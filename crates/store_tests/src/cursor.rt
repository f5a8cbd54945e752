use mon_bytes::{Cursor, Short};
use std::test::Fail;

#[test]
fn what_does_not_fit_is_left(rt: HostRuntime) -> Result<(), Fail> {
    let mut cursor = Cursor::new(&[1, 2]);
    assert!(rt; cursor.take_u32() == Err(Short { at: 0 }));
    assert!(rt; cursor.at() == 0);
    assert!(rt; cursor.take_u16() == Ok(513));
    Ok(())
}

//! What the program says of the statuses with which no run here ends.

use cephmon_run::Status;
use std::test::Fail;

#[test]
fn each_other_status_has_its_text(rt: HostRuntime) -> Result<(), Fail> {
    let full = Status::Full {
        would_be: 268_435_457,
    };
    let said = format!(in rt.alloc(); "{}, {full}", Status::OutOfMemory)?;
    assert!(rt; said.as_str() == "out of memory, store full: 268435457");
    Ok(())
}

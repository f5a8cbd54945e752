use mon_tx::Op;
use std::test::Fail;
use svc_core::mon_trim::trim_ops;

/// The versions that a trim erases, from the first one up to but not including the last one, or 0 twice if it erases none.
fn erased(ops: &[Op]) -> (u64, u64) {
    match ops {
        [Op::EraseRange { from, to, .. }, Op::Put { .. }] => (from.get(), to.get()),
        _ => (0, 0),
    }
}

#[test]
fn a_long_log_loses_its_oldest_versions(rt: HostRuntime) -> Result<(), Fail> {
    let rows = [
        (1, 751, (0, 0)),
        (1, 752, (1, 252)),
        (252, 1_002, (0, 0)),
        (1, 2_000, (1, 501)),
    ];
    for (first, last, wanted) in rows {
        let ops = trim_ops(rt.alloc(), first, last)?;
        let found = erased(ops.as_slice());
        drop(ops);
        assert!(rt; found == wanted, "{first} {last}");
    }
    Ok(())
}

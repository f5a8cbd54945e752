//! An import whose disk fails.

use crate::rig::played;
use std::alloc::Global;
use std::test::Fail;

/// What an import of the entry `kv/a` = `x` leaves if disk A fails from a call on, with an image.
fn left(alloc: Global, call: u64, image: u8) -> Result<String, Fail> {
    let lines = format!(in alloc;
        "> failing-a {call} {image}\n> bytes 434550484558503100018001000000026b7601610100000078\n> run store-import 0 1 a b\n\
         > power-cut\n> run dump-keys 0 1 a b\n"
    )?;
    let text = played(alloc, lines.as_str())?;
    let (_, left) = text.as_str().split_once("status 6").ok_or("a disk fault")?;
    Ok(left.to_string(alloc)?)
}

/// A whole store, a store without keys, and no store.
const WHOLE: &str =
    ", \"disk fault\"\n> power-cut\n> run dump-keys 0 1 a b\nkv / a\nstatus 0, \"\"\n";

const EMPTY: &str = ", \"disk fault\"\n> power-cut\n> run dump-keys 0 1 a b\nstatus 0, \"\"\n";

const NONE: &str =
    ", \"disk fault\"\n> power-cut\n> run dump-keys 0 1 a b\nstatus 8, \"not a store: disk a at 0\"\n";

#[test]
fn an_import_that_fails_leaves_no_store_or_the_whole(rt: HostRuntime) -> Result<(), Fail> {
    for call in 1..=7u64 {
        for image in 0..=3u8 {
            let left = left(rt.alloc(), call, image)?;
            let left = left.as_str();
            let is_whole = call >= 6 && image == 1;
            assert!(rt;
                if is_whole {
                    left == WHOLE
                } else {
                    left == EMPTY || left == NONE
                },
                "{call} {image}{left}"
            );
        }
    }
    Ok(())
}

//! What links pass on.

use crate::layers::played;
use crate::naming::{CAME, FLOODS, FOLLOWS, LIVED, SENT};
use crate::watching::{ANSWERED, FAULTY, NOTED, OF_MONITORS, ONCE};
use std::alloc::Global;
use std::test::Fail;

const CASES: &[&[&str]] = &[
    CAME,
    FLOODS,
    FOLLOWS,
    SENT,
    LIVED,
    &[ANSWERED, ONCE, FAULTY, OF_MONITORS, NOTED],
];

/// What another text than the stated one came of, if there is any.
fn first_other(alloc: Global, cases: &[&str]) -> Result<Option<String>, Fail> {
    for case in cases {
        let found = played(alloc, *case)?;
        if found.as_str() != *case {
            return Ok(Some(found));
        }
    }
    Ok(None)
}

#[test]
fn a_link_does_what_its_text_states(rt: HostRuntime) -> Result<(), Fail> {
    for cases in CASES {
        let other = first_other(rt.alloc(), cases)?;
        assert!(rt; other.is_none(), "{other:?}");
    }
    Ok(())
}

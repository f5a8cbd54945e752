//! What runs do.

use crate::rig::played;
use crate::{clients, leaders, nodes, schedules, stores};
use std::test::Fail;

const CASES: &[&str] = &[
    nodes::SHOWN,
    nodes::KEPT,
    nodes::NODE_CHECKPOINT,
    nodes::HEARD,
    nodes::NODE_ENDS,
    nodes::NODE_REFUSED,
    nodes::SPENT,
    nodes::WAITS,
    leaders::UNHEARD,
    leaders::HEARD_ONCE,
    leaders::HEARD_ALWAYS,
    clients::CLIENT_ENDS,
    clients::FOLLOWED,
    schedules::REPLAYED,
    schedules::SCHEDULE_REFUSED,
    schedules::MADE,
    stores::LOOKED_INTO,
    stores::IMPORTED,
    stores::NO_EXPORT,
    stores::COMPARED,
];

#[test]
fn a_run_does_what_its_text_states(rt: HostRuntime) -> Result<(), Fail> {
    for case in CASES {
        let found = played(rt.alloc(), *case)?;
        assert!(rt; found.as_str() == *case, "{found}");
    }
    Ok(())
}

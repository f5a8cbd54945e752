use schedule_text::*;
use std::alloc::Global;
use std::test::Fail;

/// A line of each form of event, and values at their bounds.
const SCHEDULE: &str = "monitors 13 disallow=0,2,12\n\
client 12 0 1 1 show log\n\
start 0 0\n\
client 0 4611686018427387904 4294967295 4611686018427387904 set ~ \n\
client 0 30 1 3 set b \"\\ y \n\
deliver 18446744073709551615 1\n\
timer 10 leaseack 2\n\
crash a 1000 3 client 1 2 3 4 log \n\
fail b 1 0 client 1 2 3 4 since kv 7\n\
client 3 4 5 6 remove k\n";

/// How many events a text's schedule has, whether it has a text, and whether it is printed as it was read.
pub(crate) fn read(alloc: Global, text: &[u8]) -> Result<(usize, bool, bool), Fail> {
    let schedule = parse(alloc, text)?;
    let (count, has_text) = (schedule.events.as_slice().len(), schedule.has_text());
    let printed = print(alloc, &schedule);
    drop(schedule);
    let alike = printed?.as_slice() == text;
    Ok((count, has_text, alike))
}

#[test]
fn what_is_read_is_printed_again(rt: HostRuntime) -> Result<(), Fail> {
    assert!(rt; read(rt.alloc(), SCHEDULE.as_bytes())? == (9, true, true));
    Ok(())
}

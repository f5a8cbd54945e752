use crate::schedule::read;
use schedule_made::*;
use schedule_text::print;
use std::alloc::Global;
use std::test::Fail;

/// What every schedule of 33 events or more begins with.
const OPENING: &str = "\
monitors 3 classic\n\
start 0 0\nstart 1 0\nstart 2 0\n\
deliver 1 0\ndeliver 2 0\ndeliver 3 0\ndeliver 4 0\ndeliver 5 0\ndeliver 6 0\n\
deliver 7 0\ndeliver 8 0\ndeliver 9 0\ndeliver 10 0\ndeliver 11 0\ndeliver 12 0\n\
deliver 13 0\ndeliver 14 0\ndeliver 15 0\ndeliver 16 0\ndeliver 17 0\ndeliver 18 0\n\
deliver 19 0\ndeliver 20 0\ndeliver 21 0\ndeliver 22 0\ndeliver 23 0\ndeliver 24 0\n\
deliver 25 0\ndeliver 26 0\ndeliver 27 0\ndeliver 28 0\ndeliver 29 0\ndeliver 30 0\n";

/// A number, how many events its schedule has, and those that follow the opening.
const LATER: [(u64, u32, &str); 3] = [
    (0, 33, ""),
    (
        2,
        48,
        "client 0 1000 1 1 set k17 v535747897\n\
         deliver 31 1000\ndeliver 32 1000\ndeliver 33 1000\ndeliver 34 1000\ndeliver 35 1000\n\
         deliver 36 1000\ndeliver 37 1000\ndeliver 38 1000\ndeliver 39 1000\ndeliver 40 1000\n\
         client 0 1000 2 1 show kv\ndeliver 35 1000\nclient 0 2000 1 2 log t2741366835\ndeliver 41 2000\n",
    ),
    (
        7,
        46,
        "deliver 31 340\ntimer 1 lease 350\nclient 0 360 3 36 set k8 v3804052768\ndeliver 32 370\n\
         deliver 33 380\nclient 1 390 3 39 set k16 v3679627213\ndeliver 7 400\ndeliver 25 410\n\
         deliver 34 420\ndeliver 35 430\ndeliver 36 440\ndeliver 37 450\ndeliver 38 460\n",
    ),
];

/// The text of the schedule that a number has.
fn printed(alloc: Global, number: u64, events: u32) -> Result<Vec<u8>, Fail> {
    if events == 0 || events > 100_000 {
        return Err("a schedule".into());
    }
    let schedule = made(alloc, number, events)?;
    let printed = print(alloc, &schedule);
    drop(schedule);
    Ok(printed?)
}

/// Whether a number has the schedule that begins with the opening, and goes on with this.
fn is_made(alloc: Global, number: u64, events: u32, later: &str) -> Result<bool, Fail> {
    let printed = printed(alloc, number, events)?;
    let text = printed.as_slice();
    let alike = text.starts_with(OPENING.as_bytes())
        && text.get(OPENING.len()..) == Some(later.as_bytes());
    drop(printed);
    Ok(alike)
}

#[test]
fn each_number_has_its_schedule(rt: HostRuntime) -> Result<(), Fail> {
    for (number, events, later) in &LATER {
        assert!(rt; is_made(rt.alloc(), *number, *events, *later)?, "{number}");
    }
    Ok(())
}

/// Whether the opening begins with a number's schedule, how many events are read of it, and whether it is printed the
/// same again.
fn read_again(alloc: Global, number: u64, events: u32) -> Result<(bool, usize, bool), Fail> {
    let text = printed(alloc, number, events)?;
    let opens = OPENING.as_bytes().starts_with(&text);
    let again = read(alloc, &text);
    drop(text);
    let (count, _, alike) = again?;
    Ok((opens, count, alike))
}

#[test]
fn a_short_one_is_read_as_it_is_printed(rt: HostRuntime) -> Result<(), Fail> {
    assert!(rt; read_again(rt.alloc(), 1, 10)? == (true, 10, true));
    Ok(())
}

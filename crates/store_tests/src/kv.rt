use crate::transaction::transaction;
use mon_bytes::KeyPlace;
use mon_kv::{KeyRun, Kv};
use mon_tx::{Area, Key, Transaction};
use std::alloc::Global;
use std::fmt::Write;
use std::test::Fail;

/// `FOUR` puts keys of three areas, one of them a monitor's own. `RANGE` puts versions, and erases versions 99 and 100.
const FOUR: &str = "\
010400000001057061786f730e6c6173745f636f6d6d697474656408000000010000000000000001076d6f6e69746f720a\
    626f6f745f636f756e7408000000010000000000000001057061786f730131010000007901026b7601610100000078";

const RANGE: &str = "\
020500000001057061786f73023939010000006101057061786f7303313030010000006201057061786f73043130303001\
    0000006301057061786f730f66697273745f636f6d6d697474656408000000630000000000000004057061786f7363000000\
    000000006500000000000000";

/// A transaction that puts a pending value as version 7 under number 201, and version 9 as the one that a full
/// synchronization must reach.
const WAITING: &str = "\
010500000001086d6f6e5f73796e63146c6173745f636f6d6d69747465645f666c6f6f720800000009000000000000000105\
    7061786f73013705000000010000000001057061786f730e6c6173745f636f6d6d697474656408000000060000000000\
    000001057061786f730a70656e64696e675f706e08000000c90000000000000001057061786f730970656e64696e675f\
    76080000000700000000000000";

/// The map after a transaction on the empty map.
fn made(alloc: Global, digits: &str) -> Result<Kv, Fail> {
    let tx = transaction(alloc, digits)?;
    let mut kv = Kv::empty(alloc);
    let done = kv.apply(&tx);
    drop(tx);
    match done {
        Ok(()) => Ok(kv),
        Err(why) => {
            drop(kv);
            Err(why.into())
        }
    }
}

/// Puts the name of a key, with a space after it.
fn push_name(names: &mut String, prefix: &[u8], key: &[u8]) -> Result<(), Fail> {
    let (prefix, key) = (str::from_utf8(prefix)?, str::from_utf8(key)?);
    Ok(write!(names, "{prefix}/{key} ")?)
}

/// The keys of a map of at most five.
fn keys(alloc: Global, kv: &Kv) -> Result<String, Fail> {
    let mut keys = String::new(alloc);
    let (mut prefix, mut key) = (b"".as_slice(), b"".as_slice());
    for _ in 0..5 {
        let Some(entry) = kv.next_entry(prefix, key) else {
            break;
        };
        push_name(&mut keys, entry.prefix, entry.key)?;
        (prefix, key) = (entry.prefix, entry.key);
    }
    Ok(keys)
}

/// The keys of a map of at most five keys, its size, its pending value, and the version that a full synchronization
/// must reach.
fn summary(alloc: Global, kv: &Kv) -> Result<String, Fail> {
    let keys = keys(alloc, kv)?;
    let (size, pending, floor) = (kv.size(), kv.pending(), kv.floor());
    Ok(format!(in alloc; "{keys}{size} {pending:?} {floor}")?)
}

/// The summary of the map after a transaction on the empty map.
fn summary_after(alloc: Global, digits: &str) -> Result<String, Fail> {
    let kv = made(alloc, digits)?;
    let shown = summary(alloc, &kv);
    drop(kv);
    shown
}

#[test]
fn keys_stand_in_order_and_a_range_erases_the_numbers_in_it(rt: HostRuntime) -> Result<(), Fail> {
    for (digits, shown) in [
        (
            FOUR,
            "kv/a monitor/boot_count paxos/1 paxos/last_committed 127 None 0",
        ),
        (RANGE, "paxos/1000 paxos/first_committed 70 None 0"),
        (
            WAITING,
            "mon_sync/last_committed_floor paxos/7 paxos/last_committed paxos/pending_pn paxos/pending_v 199 \
             Some(Pending { v: 7, pn: 201, value: [1, 0, 0, 0, 0] }) 9",
        ),
    ] {
        assert!(rt;
            summary_after(rt.alloc(), digits)?.as_str() == shown,
            "{shown}"
        );
    }
    Ok(())
}

/// The keys of a run, and whether it reaches the end of the map.
fn shown(alloc: Global, run: &KeyRun) -> Result<String, Fail> {
    let mut keys = String::new(alloc);
    for entry in run.entries.iter() {
        push_name(&mut keys, entry.prefix.as_slice(), entry.key.as_slice())?;
    }
    Ok(format!(in alloc; "{keys}{}", run.done)?)
}

/// The first run of shared keys of `FOUR` in `room` bytes, with at most `most` entries.
fn run(alloc: Global, room: usize, most: usize) -> Result<String, Fail> {
    let kv = made(alloc, FOUR)?;
    let run = kv.chunk_from(&KeyPlace::Start, room, most);
    drop(kv);
    let run = run?;
    let shown = shown(alloc, &run);
    drop(run);
    shown
}

#[test]
fn a_run_of_shared_keys_stops_at_the_room_and_the_count(rt: HostRuntime) -> Result<(), Fail> {
    for (room, most, shown) in [
        (9usize, 9usize, "false"),
        (10, 9, "kv/a false"),
        (22, 9, "kv/a false"),
        (23, 1, "kv/a false"),
        (23, 9, "kv/a paxos/1 true"),
    ] {
        assert!(rt; run(rt.alloc(), room, most)?.as_str() == shown, "{room}");
    }
    Ok(())
}

/// Puts a thousand versions in their order.
fn put_thousand(alloc: Global, kv: &mut Kv, first: u64) -> Result<(), Fail> {
    let mut tx = Transaction::new(alloc);
    for v in 0..1_000u64 {
        tx.put_number(Area::Paxos, Key::Version(first.saturating_add(v)), v)?;
    }
    let done = kv.apply(&tx);
    drop(tx);
    Ok(done?)
}

/// Puts 100,000 versions in their order, and erases those from 11 to 99,989.
fn put_and_erase(alloc: Global, kv: &mut Kv) -> Result<(), Fail> {
    for thousand in 0..100u64 {
        put_thousand(alloc, kv, 1_000 * thousand)?;
    }
    let mut tx = Transaction::new(alloc);
    tx.erase_range(Area::Paxos, 11, 99_990)?;
    let done = kv.apply(&tx);
    drop(tx);
    Ok(done?)
}

/// Whether two versions are there.
fn stay(kv: &Kv, first: u64, second: u64) -> (bool, bool) {
    (kv.stored(first).is_some(), kv.stored(second).is_some())
}

// If the tree degenerated to a list, its recursion would overflow the stack. The test sees no more of its height.
#[test]
fn keys_that_come_in_order_make_no_list(rt: HostRuntime) -> Result<(), Fail> {
    let mut kv = Kv::empty(rt.alloc());
    let done = put_and_erase(rt.alloc(), &mut kv);
    let (low, high) = (stay(&kv, 10, 11), stay(&kv, 99_989, 99_990));
    drop(kv);
    done?;
    assert!(rt; low == (true, false) && high == (false, true));
    Ok(())
}

//! A store whose disk failed.

ghost use Rattle.mon_store.specs.Whole.{IsSound};

use crate::transaction::transaction;
use mon_disk::{Disk, MemoryDisk, NodeDisks};
use mon_store::Store;
use mon_types::{Member, Rank};
use std::alloc::Global;
use std::test::Fail;

/// The transaction that puts `kv/b` = `y`.
const NEXT: &str = "010100000001026b7601620100000079";

/// Applies the transaction `NEXT`, and returns the result as text.
fn applied<D: Disk>(alloc: Global, store: &mut Store<D>) -> Result<String, Fail>
    requires { IsSound D.state store.old }
    ensures { IsSound D.state store.new }
{
    let tx = transaction(alloc, NEXT)?;
    let answer = store.apply(&tx);
    drop(tx);
    Ok(format!(in alloc; "{answer:?}")?)
}

/// Applies `NEXT` twice and asks for a checkpoint. Returns the three results, and whether the store is broken, as text.
fn answers<D: Disk>(alloc: Global, store: &mut Store<D>) -> Result<String, Fail>
    requires { IsSound D.state store.old }
{
    let first = applied(alloc, store)?;
    let second = applied(alloc, store)?;
    let begun = store.restart_if_due();
    let broken = store.is_broken();
    Ok(format!(in alloc; "{first} {second} {begun:?} {broken}")?)
}

/// The same for a new store whose disk A fails from call number `call` on.
fn outcome_of_call(alloc: Global, call: u64) -> Result<String, Fail> {
    let member = Member::new(Rank::known(0), 1).ok_or("a member")?;
    let mut a = MemoryDisk::new(alloc);
    a.upset(call.max(1), 0);
    let b = MemoryDisk::new(alloc);
    match Store::open(alloc, NodeDisks { a, b }, member) {
        Ok(mut store) => {
            let outcome_of_call = answers(alloc, &mut store);
            drop(store);
            outcome_of_call
        }
        Err(refused) => {
            drop(refused);
            Err("a store".into())
        }
    }
}

// Calls 8 to 11 of disk A append the first transaction. The calls before create the store.
#[test]
fn a_store_whose_disk_failed_is_broken(rt: HostRuntime) -> Result<(), Fail> {
    for (call, wanted) in [
        (8u64, "Err(DiskFault) Err(Broken) Err(Broken) true"),
        (11, "Err(DiskFault) Err(Broken) Err(Broken) true"),
        (12, "Ok(()) Err(DiskFault) Err(Broken) true"),
        (100, "Ok(()) Ok(()) Ok(false) false"),
    ] {
        assert_eq!(rt;
            outcome_of_call(rt.alloc(), call)?.as_str(),
            wanted,
            "call {call}"
        );
    }
    Ok(())
}

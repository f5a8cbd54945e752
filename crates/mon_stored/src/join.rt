//! Transactions in which each key is put once.

ghost use Rattle.std.specs.Prelude.{◌≡◌, ℕ, ◌+◌, ◌<◌, ◌^◌, true, List, length, IsTrue, IfOk, OnOk};
ghost use Rattle.std.specs.List.{AllByRecursion, list_all};
ghost use Rattle.mon_tx.specs.Map.{number_bytes, apply_op};
ghost use Rattle.mon_tx.specs.Text.{is_upward};
ghost use Rattle.mon_msg.specs.Joined.{joined};
ghost use Rattle.mon_stored.specs.Joining.{op_at, picked, IsJoined};
ghost use Rattle.mon_stored.specs.Taking.{is_taking};

use mon_bytes::{Bytes, Name, Out, OutOfMemory, Prefix};
use mon_kv::Kv;
use mon_tx::{Op, Transaction};
use mon_types::GREATEST;
use std::alloc::Global;

/// Puts a number under a key of the index.
#[tactic(auto, unfolding(mon_tx::specs::Map::number_bytes))]
fn note(
    alloc: Global,
    index: &mut Kv,
    prefix: &Prefix,
    key: &Name,
    n: u64,
) -> Result<(), OutOfMemory>
    ensures { OnOk result (index.new ≡ apply_op (Op.Put prefix.now key.now (number_bytes n)) index.old) }
{
    let mut out = Out::new(alloc);
    out.put_u64(n)?;
    let mut tx = Transaction::new(alloc);
    tx.push(Op::Put {
        prefix: prefix.copy(alloc)?,
        key: key.copy(alloc)?,
        value: Bytes::new(out.into_bytes()),
    })?;
    index.apply(&tx)
}

/// Makes one change in the index.
fn make(alloc: Global, index: &mut Kv, op: &Op) -> Result<(), OutOfMemory>
    requires { IsTrue (is_upward op.now) }
    ensures { OnOk result (index.new ≡ apply_op op.now index.old) }
{
    let mut tx = Transaction::new(alloc);
    tx.push(op.copy(alloc)?)?;
    index.apply(&tx)
}

/// Joins the put `i` to the changes before it.
fn join_put(
    alloc: Global,
    order: &mut Vec<usize>,
    index: &mut Kv,
    ops: &[Op],
    i: usize,
    prefix: &Prefix,
    key: &Name,
) -> Result<(), OutOfMemory>
    requires joined { IsJoined ops.now i order.old.items index.old }
    requires within { i < length ops.now }
    requires few { length ops.now < 2 ^ 62 }
    requires put { (v : List ℕ) × (op_at ops.now i ≡ Op.Put prefix.now key.now v) }
    ensures { OnOk result (IsJoined ops.now (i + 1) order.new.items index.new) }
{
    let prefix_bytes = prefix.as_slice();
    let key_bytes = key.as_slice();
    let at = index.number(prefix_bytes, key_bytes);
    if at > 0 {
        let k = (at - 1) as usize;
        order[k] = i;
        return Ok(());
    }
    let n = order.len() as u64 + 1;
    note(alloc, index, prefix, key, n)?;
    order.push(i)?;
    Ok(())
}

/// Joins the change `i`, which takes keys away, to those before it.
fn join_taking(
    alloc: Global,
    order: &mut Vec<usize>,
    index: &mut Kv,
    ops: &[Op],
    i: usize,
    op: &Op,
) -> Result<(), OutOfMemory>
    requires joined { IsJoined ops.now i order.old.items index.old }
    requires within { i < length ops.now }
    requires taking { is_taking op.now ≡ true }
    requires here { op_at ops.now i ≡ op.now }
    requires upward { IsTrue (is_upward op.now) }
    ensures { OnOk result (IsJoined ops.now (i + 1) order.new.items index.new) }
{
    make(alloc, index, op)?;
    order.push(i)?;
    Ok(())
}

/// Joins the change `i` to those before it.
fn join(
    alloc: Global,
    order: &mut Vec<usize>,
    index: &mut Kv,
    ops: &[Op],
    i: usize,
) -> Result<(), OutOfMemory>
    requires joined { IsJoined ops.now i order.old.items index.old }
    requires within { i < length ops.now }
    requires few { length ops.now < 2 ^ 62 }
    requires upward { IsTrue (list_all is_upward ops.now) }
    ensures { OnOk result (IsJoined ops.now (i + 1) order.new.items index.new) }
{
    let op = &ops[i];
    match op {
        Op::Put { prefix, key, .. } => join_put(alloc, order, index, ops, i, prefix, key),
        _ => join_taking(alloc, order, index, ops, i, op),
    }
}

/// The indices of the changes that remain when the list is joined, in their order.
fn order_of(alloc: Global, ops: &[Op]) -> Result<Vec<usize>, OutOfMemory>
    requires few { length ops.now < 2 ^ 62 }
    requires upward { IsTrue (list_all is_upward ops.now) }
    ensures joined { IfOk result (λ order. picked ops.now order.items ≡ joined ops.now) }
    ensures below { IfOk result (λ order. AllByRecursion (λ i. i < length ops.now) order.items) }
{
    let mut order = Vec::new(alloc);
    let mut index = Kv::empty(alloc);
    for i in 0..ops.len() {
        join(alloc, &mut order, &mut index, ops, i)?;
    }
    Ok(order)
}

/// Joins the puts of a key that no erasure separates to one put: in the place of the first of them, with the value of
/// the last. Each remaining change is copied once. Time: the number of changes, times the height of a tree of their
/// keys. Erasing a range or a prefix takes as long as on such a tree.
pub fn joined(alloc: Global, tx: &Transaction) -> Result<Transaction, OutOfMemory>
    ensures { IfOk result (λ joined_tx. joined_tx ≡ joined tx.now) }
{
    let ops = tx.ops();
    if ops.len() as u64 >= GREATEST {
        return Err(OutOfMemory);
    }
    let order = order_of(alloc, ops)?;
    let mut joined = Transaction::new(alloc);
    for i in &order {
        joined.push(ops[*i].copy(alloc)?)?;
    }
    Ok(joined)
}

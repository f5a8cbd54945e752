//! The transaction of an event, in which each key is put once.

ghost use Rattle.std.specs.Prelude.{◌≡◌, IfOk};
ghost use Rattle.std.specs.List.{list_any};
ghost use Rattle.mon_msg.specs.Joined.{joined, puts};
ghost use Rattle.mon_core.specs.Joining.{is_put_again, are_put_once};

use mon_bytes::OutOfMemory;
use mon_tx::{Op, Transaction, is_at};
use std::alloc::Global;

/// Up to this many changes, all pairs are compared to see whether a key is put twice. Most transactions are no longer,
/// and put no key twice.
const SHORT: usize = 32;

/// Whether a change puts a key.
fn puts(prefix: &[u8], key: &[u8], op: &Op) -> bool
    ensures { result ≡ puts (prefix.now, key.now) op.now }
{
    match op {
        Op::Put {
            prefix: other_prefix,
            key: other_key,
            ..
        } => is_at(prefix, key, other_prefix.as_slice(), other_key.as_slice()),
        Op::Erase { .. } | Op::ErasePrefix { .. } | Op::EraseRange { .. } => false,
    }
}

/// Whether one of the changes puts a key.
fn any_puts(prefix: &[u8], key: &[u8], ops: &[Op]) -> bool
    ensures { result ≡ list_any (puts (prefix.now, key.now)) ops.now }
{
    ops.iter().any(|op| puts(prefix, key, op))
}

/// Whether one of the changes after a put puts its key again.
fn is_put_again(op: &Op, behind: &[Op]) -> bool
    ensures { result ≡ is_put_again op.now behind.now }
{
    match op {
        Op::Put { prefix, key, .. } => any_puts(prefix.as_slice(), key.as_slice(), behind),
        Op::Erase { .. } | Op::ErasePrefix { .. } | Op::EraseRange { .. } => false,
    }
}

/// Whether each key is put at most once.
fn are_put_once(ops: &[Op]) -> bool
    ensures { result ≡ are_put_once ops.now }
{
    for i in 0..ops.len() {
        if is_put_again(&ops[i], &ops[i + 1..]) {
            return false;
        }
    }
    true
}

/// The transaction with each key put once. A short one that puts no key twice is returned as it is, and takes no
/// memory.
#[tactic(auto, using(crate::proofs::PutOnce::joined_once))]
pub(crate) fn joined(alloc: Global, tx: Transaction) -> Result<Transaction, OutOfMemory>
    ensures { IfOk result (λ joined_tx. joined_tx ≡ joined tx) }
{
    if tx.ops().len() > SHORT || !are_put_once(tx.ops()) {
        return mon_stored::joined(alloc, &tx);
    }
    Ok(tx)
}

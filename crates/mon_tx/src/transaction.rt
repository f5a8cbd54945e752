ghost use Rattle.std.specs.Prelude.{◌≡◌, List, [], ◌∷◌, ◌++◌, IsTrue, IfOk, OnOk, OnErr};
ghost use Rattle.std.specs.List.{list_all};
ghost use Rattle.mon_tx.specs.declared.op.Op.{Op};
ghost use Rattle.mon_tx.specs.Text.{is_upward};

use crate::op::Op;
use mon_bytes::{OutOfMemory, TryCopy};
use std::alloc::Global;
use std::marker::Model;

/// A list of changes that are made together, in order. Each range in it goes upward. Calls that append changes take
/// no allocator: a transaction has its own.
#[derive(Drop)]
pub struct Transaction {
    ops: Vec<Op>,
}

impl Model for Transaction {
    ghost use Rattle.std.specs.Prelude.{List, IsTrue};
    ghost use Rattle.std.specs.List.{list_all};
    ghost use Rattle.mon_tx.specs.declared.op.Op.{Op};
    ghost use Rattle.mon_tx.specs.Text.{is_upward};

    ghost Value = { List Op };

    ghost view = { λ t. t.ops.items };

    ghost invariant = { λ t. IsTrue (list_all is_upward t.ops.items) };
}

impl Transaction {
    /// No changes. It takes no memory.
    pub fn new(alloc: Global) -> Transaction
        ensures { result ≡ [] }
    {
        Transaction {
            ops: Vec::new(alloc),
        }
    }

    /// The changes, in order.
    pub fn ops(&self) -> &[Op]
        ensures value { result.now ≡ self.now }
        ensures upward { IsTrue (list_all is_upward self.now) }
    {
        self.ops.as_slice()
    }

    /// Appends a change. After an `Err` the transaction is unchanged.
    pub fn push(&mut self, op: Op) -> Result<(), OutOfMemory>
        requires { IsTrue (is_upward op) }
        ensures ok { OnOk result (self.new ≡ self.old ++ op ∷ []) }
        ensures err { OnErr result (self.new ≡ self.old) }
    {
        self.ops.push(op)?;
        Ok(())
    }

    /// The changes, taken out without memory.
    pub fn into_ops(self) -> Vec<Op>
        ensures value { result.items ≡ self }
        ensures upward { IsTrue (list_all is_upward self) }
    {
        self.ops
    }

    /// The allocator that the transaction was made with.
    pub fn allocator(&self) -> Global {
        *self.ops.allocator()
    }

    /// An equal transaction.
    pub fn copy(&self) -> Result<Transaction, OutOfMemory>
        ensures { IfOk result (λ t. t ≡ self.now) }
    {
        let alloc = self.allocator();
        let mut ops = Vec::new(alloc);
        for op in &self.ops {
            ops.push(op.copy(alloc)?)?;
        }
        Ok(Transaction { ops })
    }
}

impl TryCopy for Transaction {
    fn try_copy(&self, _alloc: Global) -> Result<Transaction, OutOfMemory> {
        self.copy()
    }
}

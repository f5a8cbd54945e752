//! What a core answers.

use mon_bytes::Items;
use mon_msg::plan::Sent;
use mon_tx::Transaction;

/// What an input makes a monitor do.
#[derive(Drop)]
pub struct Reaction {
    /// What is written to its store, each key once.
    pub tx: Transaction,
    /// What is sent once that is durable, in order.
    pub out: Items<Sent>,
}

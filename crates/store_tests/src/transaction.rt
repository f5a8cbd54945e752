use mon_tx::Transaction;
use std::alloc::Global;
use std::test::Fail;

/// The transaction whose encoding the hexadecimal digits are.
pub(crate) fn transaction(alloc: Global, digits: &str) -> Result<Transaction, Fail> {
    let bytes = hex::decode(alloc, digits)?;
    let tx = mon_tx::decode(alloc, &bytes);
    drop(bytes);
    Ok(tx?)
}

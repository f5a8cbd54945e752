//! Transactions on a monitor's map, their one encoding, and the names of the map's keys.
#![tactic(auto)]

mod changes;
mod encode;
mod encoded_op;
mod encoded_ops;
mod fields;
mod key;
mod kinds;
mod law;
mod op;
mod place;
mod reading;
mod refusal;
mod scan;
mod transaction;

pub use encode::{EncodeRefused, MOST_TRANSACTION};
pub use encoded_op::EncodedOp;
pub use encoded_ops::EncodedOps;
pub use key::{Area, Key};
pub use law::{law_distinct_encodings, law_last_decides, law_no_prefix, law_range, law_reading};
pub use op::Op;
pub use place::is_at;
pub use reading::decode;
pub use refusal::TxRefused;
pub use scan::is_text;
pub use transaction::Transaction;

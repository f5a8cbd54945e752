//! What answers promise beside `Safe`: acknowledged writes and reads of one epoch are linearizable, refusals are those
//! of the services over the log, and answers with changes have the next one.
#![tactic(auto)]

mod laws;
mod since;

pub use laws::{law_reads, law_refusals};
pub use since::law_since;

//! Messages that are longer than a datagram: cut into pieces, and put together again.
#![tactic(auto)]

mod assembly;
mod cutting;
mod header;
mod law;
mod partial;
mod refused;

pub use assembly::{Assembly, is_whole};
pub use cutting::{DATAGRAM, pieces};
pub use header::{Header, PART, PIECE, PIECE_HEADER, is_piece, piece_payload, read_header};
pub use law::law_whole;
pub use refused::FragRefused;

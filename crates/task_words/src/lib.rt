//! What the arguments of a command line ask for.
#![tactic(auto)]

mod addresses;
mod asked;
mod command;
mod matched;
mod numbers;
mod parts;
mod task;
mod words;

pub use asked::LONGEST_WORD;
pub use task::{Task, WordsStop};
pub use words::read_words;

//! When clients are answered: each at most once in a second, so that a monitor that is asked without end goes on.
#![tactic(auto)]

mod times;

pub use times::AnswerTimes;

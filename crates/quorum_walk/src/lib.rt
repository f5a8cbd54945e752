//! What holds of each event of a monitor, whatever happened before: it passes on only values of commands, its numbers
//! fit, and what its course says is what its transaction writes.
#![tactic(auto)]

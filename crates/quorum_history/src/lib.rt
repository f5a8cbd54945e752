//! The history of a run, as lists that only grow. Every row of the protocol preserves what the history says of a
//! monitor and of its messages.
#![tactic(auto)]

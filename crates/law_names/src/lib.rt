//! The names of definitions that proofs of laws import: of the protocol's table, and of the runs of a quorum.
#![tactic(auto)]

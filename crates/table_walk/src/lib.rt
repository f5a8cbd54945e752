//! The protocol's table, walked once. Each event is a row of small steps, each with the reason for which the table makes
//! it. A law that proves what each step does holds of every event.
#![tactic(auto)]

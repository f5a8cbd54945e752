//! That a quorum which is led stays led, in a run whose messages and timers are punctual.
#![tactic(auto)]

mod laws;

pub use laws::{
    law_leader_steps_down, law_lease_of_leader_ends, law_leases_stand, law_lost_leader_is_left,
    law_nothing_is_begun, law_reads_are_answered, law_serves, law_stays_led,
    law_values_are_committed,
};

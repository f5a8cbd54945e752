//! That a quorum which loses a monitor is led again in time, in a run whose messages and timers are punctual.
#![tactic(auto)]

mod laws;

pub use laws::{
    law_failover, law_first_leases_lead, law_found_value_is_committed, law_leader_has_the_log,
    law_led_quorum_has_the_log, law_lost_leader_deserts, law_lost_leader_is_replaced,
    law_lost_peon_parts, law_new_leader_hears_all, law_new_leader_serves, law_winner_serves,
};

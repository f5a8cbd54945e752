//! Runs in time: no monitor waits forever, and what comes is punctual from some time on.
#![tactic(auto)]

mod laws;

pub use laws::{
    law_event_waits, law_leads_runs, law_time_goes_on, law_timed_run_begins, law_waits,
};

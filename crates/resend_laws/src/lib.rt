//! The laws of the copies that are sent again.
#![tactic(auto)]

mod laws;

pub use laws::{
    law_answered, law_dropped, law_forwards, law_leaves, law_next_forward, law_older, law_tried,
};

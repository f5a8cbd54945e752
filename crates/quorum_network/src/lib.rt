//! Whatever several processes do on a network, a run of the model does it too. The laws state this, what follows from
//! it for the processes, and what each iteration of a process does.
#![tactic(auto)]

mod laws;

pub use laws::{
    law_any_disk, law_iterations, law_leaders, law_lives, law_maps, law_network, law_opening,
    law_wire,
};

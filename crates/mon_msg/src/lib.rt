//! The protocol of the monitors: what each event does, what the roles of a monitor remember, and their plans. The messages come
//! from the crate below, `mon_wire`.
#![tactic(auto)]

mod clients;
mod election;
pub mod input;
mod laws;
mod limits;
mod paxos;
pub mod plan;
mod synchronization;
mod view;

pub use clients::{Asked, Clients, Waiting};
pub use election::{Elector, Prober};
pub use laws::{law_changes, law_due, law_joined, law_longest, law_readings};
pub use limits::{
    FULL_EVERY, MOST_PROPOSED, MOST_REPLAYED, MOST_REPLAYED_BYTES, MOST_SINCE_BYTES, MOST_WAITING,
    PAXOS_DUE, PAXOS_GOES, PAXOS_KEEPS, SERVICE_DUE, SERVICE_GOES, SERVICE_KEEPS,
};
pub use mon_wire::{
    Body, Cookie, Items, MOST_ITEMS, MOST_MESSAGE, Message, Phase, Place, Reply, Request,
    ScoreTable, Service, Session, ShownMap, Timer, Told,
};
pub use paxos::{Found, Leader, LeaderStage, Peon};
pub use plan::{Arming, Next, Origin, Plan, RoleStop};
pub use synchronization::{Provider, Requester, SyncStage};
pub use view::{Me, View};

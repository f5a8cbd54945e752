use mon_types::{Moment, Rank, Side};
use mon_wire::{Request, Session};

/// What happens to a monitor from outside.
#[derive(Drop)]
pub enum Plain {
    /// The monitor is stopped, if it is up, and starts.
    Start {
        rank: Rank,
        at: Moment,
    },
    /// The sent message of this number, counted from 1, arrives.
    Deliver {
        message: u64,
        at: Moment,
    },
    /// A timer of the monitor fires.
    Timer {
        rank: Rank,
        kind: mon_wire::Timer,
        at: Moment,
    },
    /// A client asks the monitor.
    Client {
        rank: Rank,
        at: Moment,
        session: Session,
        request: Request,
    },
}

/// One event of a schedule.
#[derive(Drop)]
pub enum Event {
    Plain(Plain),
    /// The event happens, and the monitor stops at this call of this disk, counted from 1. The image says what the
    /// disk keeps of the writes that weren't synced.
    Crash {
        disk: Side,
        call: u16,
        image: u8,
        event: Plain,
    },
    /// The event happens, and this call of this disk fails.
    Fail {
        disk: Side,
        call: u16,
        image: u8,
        event: Plain,
    },
}

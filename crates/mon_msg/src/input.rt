use mon_wire::{Message, Request, Session, Timer};

/// What a monitor takes.
#[derive(Drop)]
pub enum Input {
    /// It starts, and has forgotten all that its store doesn't keep.
    Start,
    /// A message from another monitor.
    Deliver(Message),
    /// A timer.
    Timer(Timer),
    /// A client asks.
    Client(Session, Request),
}

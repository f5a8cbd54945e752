//! A link whose monitors greet one another.

ghost use Rattle.std.specs.Prelude.{◌≡◌};
ghost use Rattle.mon_link.specs.Histories.Happened.{Received, WasSent};
ghost use Rattle.mon_link.specs.Layers.{Above, Grows};
ghost use Rattle.mon_link.specs.Links.{CallsSend, unseen};
ghost use Rattle.mon_hello.specs.Greets.{AsksOnce, passed, rounds};
ghost use Rattle.mon_hello.specs.Histories.{AnyOwn, GreetingDoes};

use crate::heard::Heard;
use crate::hello::is_hello;
use crate::lines::Say;
use crate::own::Own;
use crate::sending::greet;
use mon_link::{Clock, Got, Link, Peer};
use mon_types::Stop;

/// The time from one round of hellos to the next, in milliseconds.
pub const INTERVAL: u64 = 10_000;

/// A link that sends its monitor's hello to each other monitor, at the first call of `next` and then every 10 s. It answers
/// the hello of a client, unless that is an answer or the client was answered less than a second ago. It takes the hellos
/// of others, and writes lines about how they differ.
#[derive(Drop)]
pub struct Greeting<L: Link + Drop, C: Clock + Drop, S: Say + Drop> {
    pub inner: L,
    pub clock: C,
    pub say: S,
    pub own: Own,
    pub heard: Heard,
    /// When the next round of hellos is due, in milliseconds of the clock.
    pub due: u64,
}

/// What is handed up: `Idle` in place of a hello.
fn passed(got: Got) -> Got
    ensures { result ≡ passed got }
{
    match got {
        Got::Datagram { from, bytes } => {
            if is_hello(bytes.as_slice()) {
                return Got::Idle;
            }
            Got::Datagram { from, bytes }
        }
        Got::Idle => Got::Idle,
        Got::Closed => Got::Closed,
    }
}

impl<L: Link + Drop, C: Clock + Drop, S: Say + Drop> Greeting<L, C, S> {
    /// A link over `inner` that has sent no hello yet.
    pub fn new(inner: L, clock: C, say: S, own: Own, heard: Heard) -> Greeting<L, C, S>
        ensures inner { result.inner ≡ inner }
        ensures clock { result.clock ≡ clock }
        ensures own { result.own ≡ own }
        ensures heard { result.heard.answered ≡ heard.answered }
        ensures due { result.due ≡ 0 }
    {
        Greeting {
            inner,
            clock,
            say,
            own,
            heard,
            due: 0,
        }
    }
}

impl<L: Link + Drop, C: Clock + Drop, S: Say + Drop> Link for Greeting<L, C, S> {
    ghost state = { λ r. unseen (L.state r.inner).faults };

    ghost history = { λ r. Above GreetingDoes AnyOwn (L.history r.inner) r.own };

    /// Asks the link below once, with the same wait. Then it answers a client that sent a hello and doesn't wait, and
    /// greets each other monitor if a round is due. A hello whose send fails is left out. If memory runs out, that is the error, what was
    /// received is dropped, and a due round stays due.
    fn next(&mut self, wait: u64) -> Result<Got, Stop>
        ensures asks { AsksOnce self.old.own wait result
            (rounds self.old.due self.old.heard.answered (C.left self.old.clock))
            (rounds self.new.due self.new.heard.answered (C.left self.new.clock))
            (L.state self.old.inner) (L.state self.new.inner) }
        ensures does { Grows (L.history self.old.inner)
            (λ calls. GreetingDoes self.old.own (Received wait result) calls self.new.own) (L.history self.new.inner) }
        ensures own { self.new.own ≡ self.old.own }
    {
        let got = self.inner.next(wait)?;
        let moment = self.clock.now();
        let now = moment.get();
        let Ok(asker) = self.heard.takes(&self.own, &got, now, &mut self.say) else {
            return Err(Stop::OutOfMemory);
        };
        let asker = self.heard.admits(asker, moment);
        let due = self.due <= now;
        greet(&mut self.inner, &self.own, asker, due)?;
        if due {
            self.due = now + INTERVAL;
        }
        Ok(passed(got))
    }

    /// Sends a datagram as it is.
    fn send(&mut self, to: Peer, bytes: &[u8]) -> Result<(), Stop>
        ensures sends { CallsSend to bytes.now result (L.state self.old.inner) (L.state self.new.inner) }
        ensures does { Grows (L.history self.old.inner)
            (λ calls. GreetingDoes self.old.own (WasSent to bytes.now result) calls self.new.own) (L.history self.new.inner) }
        ensures own { self.new.own ≡ self.old.own }
        ensures clock { self.new.clock ≡ self.old.clock }
        ensures due { self.new.due ≡ self.old.due }
    {
        self.inner.send(to, bytes)
    }
}

//! The law of the links of a monitor.

ghost use Rattle.std.specs.Prelude.{◌≡◌, List, [], false};
ghost use Rattle.mon_link.specs.Histories.{Happened};
ghost use Rattle.mon_resend.specs.World.{fresh};
ghost use Rattle.mon_watch.specs.Traffic.{no_notes};
ghost use Rattle.stack_laws.specs.Stack.{Stack};

use mon_hello::{Greeting, Say};
use mon_link::{Clock, Link};
use mon_name::{Awake, Named};
use mon_resend::Resending;
use mon_watch::{LineReceiver, Watched};

/// Let the five links of a monitor stand on any link, and let any calls have led to them. Then each datagram that they
/// handed up came on the link below: as a monitor's only in a frame of the tag from this monitor, as a client's as it
/// was. They came in this order, and each at least as often. What the link below was asked to send is a datagram that
/// they were given to send in this life, as it goes over the wire, or a copy of one; the answer to a client's status
/// request that came; a hello to another monitor; or the answer to a client's hello that came.
pub fn law_stack<
    L: Link + Drop,
    C: Clock + Drop,
    B: Clock + Drop,
    G: Clock + Drop,
    W: Clock + Drop,
    S: LineReceiver + Drop,
    T: Say + Drop,
>(link: &Watched<Resending<Awake<Named<Greeting<L, G, T>>, B>, C>, W, S>)
    ensures { (h : List Happened)
        → ⟦<Watched<Resending<Awake<Named<Greeting<L, G, T>>, B>, C>, W, S> as Link>⟧.history link.now h
        → (below : List Happened) × L.history link.now.inner.inner.inner.inner.inner below
        × Stack link.now.watch.member link.now.inner.inner.inner.inner.own link.now.inner.inner.inner.tag
        link.now.inner.inner.inner.life h below }
{}

/// A monitor's links that are new have the empty history, if the link below has it.
pub fn law_new_stack<
    L: Link + Drop,
    C: Clock + Drop,
    B: Clock + Drop,
    G: Clock + Drop,
    W: Clock + Drop,
    S: LineReceiver + Drop,
    T: Say + Drop,
>(link: &Watched<Resending<Awake<Named<Greeting<L, G, T>>, B>, C>, W, S>)
    ensures { L.history link.now.inner.inner.inner.inner.inner [] → link.now.notes ≡ no_notes
        → link.now.inner.copies ≡ fresh → link.now.inner.inner.gaps.stood ≡ false
        → ⟦<Watched<Resending<Awake<Named<Greeting<L, G, T>>, B>, C>, W, S> as Link>⟧.history link.now [] }
{}

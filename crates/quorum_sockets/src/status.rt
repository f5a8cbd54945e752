ghost use Rattle.std.specs.Prelude.{◌≡◌, ℕ, ◌<◌, List};
ghost use Rattle.mon_link.specs.Histories.{Happened, sent};
ghost use Rattle.mon_msg.specs.Protocol.Readings.{epoch_of, readings_of};
ghost use Rattle.mon_node.specs.Nodes.{Serving};
ghost use Rattle.mon_watch.specs.Traffic.{no_notes};
ghost use Rattle.quorum_model.specs.Monitors.{Monitors};
ghost use Rattle.quorum_network.specs.Network.{AllMay, Step};
ghost use Rattle.quorum_sockets.specs.Status.{IsLinkOf, Watches};
ghost use Rattle.watch_laws.specs.Watching.{IsSo};

use mon_link::{Clock, Keeps, Link};
use mon_watch::{LineReceiver, Watched};

/// What a monitor's status answers show. Let a link that watches stand on any link, and let any calls have led to it.
///
/// `answers` says that each of its answers shows what the datagrams make of it that went and came until then: its phase,
/// its epoch, its leader, its version, and all counts. All other datagrams went as they were given, in order.
///
/// `processes` says that what it shows is true of the process whose link it is, or lags, as `law_watch` says of a model's
/// monitor: after any steps of a network of two monitors or more, the phase and the leader are the process', and the
/// epoch is that of its map. `law_lives` says that a life's steps send what its link was asked to send.
pub fn law_status<L: Link + Keeps + Drop, C: Clock + Drop, S: LineReceiver + Drop>(
    link: &Watched<L, C, S>,
)
    ensures answers { (h : List Happened) → ⟦<Watched<L, C, S> as Link>⟧.history link.now h
        → (below : List Happened) × L.history link.now.inner below
        × Watches link.now.watch.member (sent h) no_notes below link.now.notes }
    ensures processes { (ms : Monitors) → 1 < ms.count → (steps : List Step) → AllMay ms steps
        → (i : ℕ) (s : Serving) (h : List Happened) → IsLinkOf ms steps i s h → link.now.watch.member.rank ≡ i
        → ⟦<Watched<L, C, S> as Link>⟧.history link.now h
        → IsSo i link.now.notes.seen (epoch_of (readings_of s.node.store.kv)) s.node.state }
{}

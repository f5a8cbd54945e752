ghost use Rattle.std.specs.FinMap.{empty};
ghost use Rattle.std.specs.List.{AllByRecursion, Contains};
ghost use Rattle.std.specs.Prelude.{◌≡◌, ℕ, ◌<◌, ◌≤◌, ◌^◌, List, [], ◌∷◌, ◌++◌, map, take, false, Option, Some, Ok, Result};
ghost use Rattle.mon_core.specs.Core.{Monitor as Core};
ghost use Rattle.mon_core.specs.Reacts.{IsReaction};
ghost use Rattle.mon_core.specs.declared.reaction.Reaction.{Reaction};
ghost use Rattle.mon_link.specs.Clocks.{Readings};
ghost use Rattle.mon_link.specs.Histories.{sent};
ghost use Rattle.mon_link.specs.Links.{Observed};
ghost use Rattle.mon_link.specs.declared.link.Got.TheVariants.{Datagram};
ghost use Rattle.mon_link.specs.declared.link.Got.{Got};
ghost use Rattle.mon_link.specs.declared.link.Peer.TheVariants.{Monitor, Client};
ghost use Rattle.mon_msg.specs.Protocol.Timers.{due};
ghost use Rattle.mon_msg.specs.declared.view.Me.{Me};
ghost use Rattle.mon_name.specs.Frames.{framed};
ghost use Rattle.mon_name.specs.Naming.{HandsOn, is_foreign, wired};
ghost use Rattle.mon_node.specs.Hearing.{Given};
ghost use Rattle.mon_node.specs.Lasting.{RemainsAfter, IsWithinIteration, On, store_view_kept};
ghost use Rattle.mon_node.specs.Nodes.{Serving, unstarted};
ghost use Rattle.mon_node.specs.Sends.{AreFirstSent, Send};
ghost use Rattle.mon_node.specs.Serving.{EndsAfter, Has, OfInput, Serves, sends_of};
ghost use Rattle.mon_node.specs.Talking.{AllSent, AllSentBefore, Said, happened};
ghost use Rattle.mon_node.specs.Iterations.{Iteration, ended_iteration, last_iteration, iteration};
ghost use Rattle.mon_node.specs.declared.end.NodeEnd.TheVariants as end;
ghost use Rattle.mon_node.specs.declared.end.NodeEnd.{NodeEnd};
ghost use Rattle.mon_node.specs.declared.hearing.TimedInput.{TimedInput};
ghost use Rattle.mon_store.specs.Times.{EachPair, WhileOpening};
ghost use Rattle.mon_store.specs.Opening.{Alike};
ghost use Rattle.mon_store.specs.StoreView.{StoreView, opens_as};
ghost use Rattle.mon_tx.specs.Map.{Store};
ghost use Rattle.mon_types.specs.declared.member.Member.{Member};
ghost use Rattle.mon_types.specs.declared.names.Stop.{Stop};
ghost use Rattle.mon_wire.specs.declared.phase.Timer.{Timer};
ghost use Rattle.quorum_model.specs.Monitors.{Monitors, me_of};
ghost use Rattle.quorum_network.specs.AnyDisk.{AllMayAnyhow, AreNamed, ClientsJoinWhole, JoinsWhole, mailed};
ghost use Rattle.quorum_network.specs.EachIteration.{IsAskedInTime, IsKeptFirst, IsOfReaction, Takes};
ghost use Rattle.quorum_network.specs.Lives.{alone, life, own, sent_of, IsOutcomeOf, IsLife, IsLifeThatSends, LeavesKept, OpensWith};
ghost use Rattle.quorum_network.specs.Network.{AllMay, Begins, IsAnswer, Kept, May, Network, Step, Until, Whole, outcome_of, map_of, network, under};
ghost use Rattle.quorum_network.specs.Promises.{AgreeWith, Leads};
ghost use Rattle.quorum_network.specs.Requests.{Leadership, leaderships, requests};
ghost use Rattle.quorum_network.specs.Running.{DoesARun};
ghost use Rattle.quorum_network.specs.Wire.{CameOver, IsOverWire};

use mon_disk::{Disk, NodeDisks};

/// Whatever processes do, a run of the model does it too. The monitors of a map are processes that all began with empty
/// stores. Their network loses, repeats and delays datagrams. Each process may end, be killed and be started again at
/// any point, on the map that its disks keep. Each start begins a life, with a number that its rank didn't have before.
/// Whatever happens, there is a run of the model that has the map of each store, what each process that is up remembers,
/// and each message and reply of which a datagram was sent. In it clients ask the requests that came to processes, each
/// as often and in the same order, and it is safe. A request that a process lost when it ended is one of these.
pub fn law_network()
    ensures runs { (ms : Monitors) (steps : List Step) → AllMay ms steps
        → DoesARun ms (requests ms steps) (network ms steps) }
{}

/// Any two maps have the same bytes of each version that both keep, at any two points in time. If neither map is under a
/// full synchronization, and both have the same last version, their shared keys have the same values.
pub fn law_maps()
    ensures { (ms : Monitors) (later earlier : List Step) → AllMay ms (later ++ earlier)
        → (i j : ℕ) → i < ms.count → j < ms.count
        → AgreeWith (map_of ((network ms earlier).process i)) (map_of ((network ms (later ++ earlier)).process j)) }
{}

/// No two processes ever lead in one epoch, at any two points in time. Those that are up and lead are among the leaders of
/// all steps. So are those that were killed in the iteration in which they began to lead.
pub fn law_leaders()
    ensures one_leads { (ms : Monitors) (steps : List Step) → AllMay ms steps
        → (a b : Leadership) → Contains (leaderships ms steps) a → Contains (leaderships ms steps) b
        → a.epoch ≡ b.epoch → a.rank ≡ b.rank }
    ensures leads { (ms : Monitors) (steps : List Step) → AllMay ms steps
        → (i e : ℕ) → i < ms.count → Leads (network ms steps) i e
        → Contains (leaderships ms steps) (record { rank = i; epoch = e }) }
    ensures leaders { (ms : Monitors) (later earlier : List Step) → AllMay ms (later ++ earlier)
        → (i j e : ℕ) → i < ms.count → j < ms.count
        → Leads (network ms earlier) i e → Leads (network ms (later ++ earlier)) j e → i ≡ j }
{}

/// What crosses the wire is what a network's steps allow. A link that names the quorum hands on what a step may be
/// given: from a monitor, a datagram that it sent to this one, with the number of its life, or nothing. From the
/// address of a monitor, beside its datagrams, any bytes at all may come that aren't framed with this quorum's tag:
/// datagrams of other quorums, and datagrams that begin with another byte than a frame's. These are foreign: such a
/// link drops them, asks the link below again, and hands its last answer on. A datagram in the frame of this quorum's
/// tag is never foreign. Such a link asks the link below to send what the network's steps send, framed if it goes to a
/// monitor.
pub fn law_wire()
    ensures comes { (tag : ℕ) → tag < 2 ^ 64 → (net : Network) (i : ℕ) (gave result : Result Got Stop)
        → IsOverWire tag net i gave → HandsOn tag gave result → IsAnswer net i result }
    ensures others { (tag other : ℕ) → other < 2 ^ 64 → ¬ (other ≡ tag) → (net : Network) (i j : ℕ) (bytes : List ℕ)
        → CameOver tag net i (Monitor j) (framed other bytes) }
    ensures unframed { (tag mark : ℕ) → ¬ (mark ≡ 3) → (net : Network) (i j : ℕ) (bytes : List ℕ)
        → CameOver tag net i (Monitor j) (mark ∷ bytes) }
    ensures never_dropped { (tag : ℕ) → tag < 2 ^ 64 → (j : ℕ) (datagram : List ℕ)
        → is_foreign tag (Ok (Datagram (Monitor j) (framed tag datagram))) ≡ false }
    ensures to_monitor { (tag number j : ℕ) (bytes : List ℕ) → wired tag number (Monitor j) bytes
        ≡ framed tag (under number (record { to = Monitor j; bytes = bytes })).bytes }
    ensures to_client { (tag number c : ℕ) (bytes : List ℕ) → wired tag number (Client c) bytes
        ≡ (under number (record { to = Client c; bytes = bytes })).bytes }
{}

/// No message is ever joined from pieces of two, whatever became of the disks. Let processes begin on any stores at
/// all: of disks that were lost, that are old copies, or that are another monitor's. Let no two lives of a rank have
/// one number. Then a process joins the datagrams of a monitor, whichever are lost, repeated or late, only to whole
/// messages that this monitor sent to it in one of its lives. The same holds of what a client joins.
///
/// The premise also says that each store entry in the messages of a kept reaction has a valid prefix and a valid key.
/// `Core::react` ensures this of each reaction. Steps of a network whose disks keep their maps meet the premise.
pub fn law_any_disk()
    ensures monitors { (ms : Monitors) (steps : List Step) → AllMayAnyhow ms steps
        → (i : ℕ) → JoinsWhole (network ms steps) (mailed ms steps) i ((network ms steps).process i) }
    ensures clients { (ms : Monitors) (steps : List Step) → AllMayAnyhow ms steps
        → ClientsJoinWhole (network ms steps) (mailed ms steps) }
    ensures met { (ms : Monitors) (steps : List Step) → AllMay ms steps → AllMayAnyhow ms steps }
    ensures named { (me : Me) (s : Serving) (it : TimedInput) (u : Until) (old new : Core) (r : Reaction)
        → old.me ≡ me → old.state ≡ s.node.state → IsReaction old new s.node.store.kv it.at it.input r
        → AreNamed me u (Some (record { came = Ok (Some it); serving = s })) }
{}

/// The steps of a process on a network are those that `serve` and `Store::open` promise. What a process does and sends
/// depends on its own steps alone.
///
/// Let a node serve as `Serves` and `StandsThrough` say, to whatever end, and let its disks be opened after a crash.
/// Then its iterations are the steps of a life: their map is the one that is opened, and they send what the link was
/// asked to send, with the number of the life. So a process may begin on that store, with a number that its rank didn't
/// have before. A step that was kept sends a prefix of what its iteration sends, and one that was lost sends nothing.
///
/// The steps of a life send what its link was asked to send, whatever the link is: `Talks` says what happened on it.
///
/// Let a node be killed in an iteration, and leave what `serve` says of one that runs out of memory there: it sent
/// nothing yet, or it kept the iteration's transaction and sent a prefix of its datagrams. Then its iterations are the
/// steps of a life too. After a crash within a call to a disk, the map that is opened is the one that the iteration
/// leaves if it is lost, or the one that it leaves if it is kept.
pub fn law_lives()
    ensures process { (ms : Monitors) (i : ℕ) (me : Me) → me_of ms i ≡ Some me → (steps : List Step)
        → (network ms steps).process i ≡ (alone me (own i steps)).process }
    ensures lives { (ms : Monitors) (i : ℕ) (me : Me) → me_of ms i ≡ Some me → (steps : List Step)
        → (network ms steps).lives i ≡ (alone me (own i steps)).lives }
    ensures sends { (ms : Monitors) (i : ℕ) (me : Me) → me_of ms i ≡ Some me → (steps : List Step)
        → sent_of i (network ms steps).sent ≡ (alone me (own i steps)).sends }
    ensures begins { (ms : Monitors) (i : ℕ) (me : Me) → me_of ms i ≡ Some me → (steps : List Step)
        → (number : ℕ) (s : StoreView) (clock : Option Readings) (link : Option Observed) (first : ℕ)
        → s.kv ≡ map_of (alone me (own i steps)).process
        → number ≤ 2 ^ 62 → ¬ Contains (alone me (own i steps)).lives number
        → May (network ms steps) i ((network ms steps).process i) (Begins number s clock link first) }
    ensures last { (i : ℕ) (me : Me) (number : ℕ) (store_view : StoreView) (clock : Option Readings)
        (link : Option Observed)
        (first : ℕ) (earlier : List Step) (given : List Given) (u : Until) (t : Iteration)
        → last_iteration me first (unstarted me.member.rank store_view clock link) given ≡ Ok t
        → (alone me (life i number store_view clock link first given u earlier)).process ≡ (outcome_of me t u).process }
    ensures cut { (me : Me) (t : Iteration) (k : ℕ) → (outcome_of me t (Kept k)).sends ≡ take k (sends_of me t) }

    // The node ends, and a crash may follow. `StandsThrough` says what the two images then hold that the crash leaves.
    ensures ends { (i : ℕ) (me : Me) (number : ℕ) (store_view : StoreView) (clock : Option Readings)
        (link : Option Observed)
        (first : ℕ) (given : List Given) (earlier : List Step) (turns begun : ℕ) (e : NodeEnd)
        (left_clock : Option Readings) (left_link : Option Observed) (x y : List ℕ)
        → Serves me (unstarted me.member.rank store_view clock link) turns e begun left_clock left_link first given
        → Has (last_iteration me first (unstarted me.member.rank store_view clock link) given)
        (λ t. On (RemainsAfter me t e left_link) x y)
        → (member : Member) (s : StoreView) → opens_as member x y ≡ Ok s
        → IsLife i me number store_view clock link first given earlier s.kv left_link }

    // A kill in an iteration, between two calls to the disks and the link.
    ensures killed { (i : ℕ) (me : Me) (number : ℕ) (store_view : StoreView) (clock : Option Readings)
        (link : Option Observed)
        (first : ℕ) (given : List Given) (earlier : List Step) (t : Iteration) (left_link : Option Observed)
        (x y : List ℕ)
        → last_iteration me first (unstarted me.member.rank store_view clock link) given ≡ Ok t
        → On (RemainsAfter me t end.OutOfMemory left_link) x y
        → (member : Member) (s : StoreView) → opens_as member x y ≡ Ok s
        → IsLife i me number store_view clock link first given earlier s.kv left_link }

    // What happened on the link, while a life goes on, and of the same two.
    ensures goes_saying { (i : ℕ) (me : Me) (number : ℕ) (store_view : StoreView) (clock : Option Readings)
        (link : Option Observed)
        (first : ℕ) (given : List Given) (earlier : List Step) (t : Iteration) (now : Serving)
        (sends : List (List Send))
        → last_iteration me first (unstarted me.member.rank store_view clock link) given ≡ Ok t
        → ended_iteration me t ≡ Ok now
        → AllSent me first (unstarted me.member.rank store_view clock link) given sends
        → (alone me (life i number store_view clock link first given Whole earlier)).sends
        ≡ (alone me earlier).sends ++ map (under number)
        (sent (happened me first (unstarted me.member.rank store_view clock link) given sends)) }
    ensures ends_saying { (i : ℕ) (me : Me) (number : ℕ) (store_view : StoreView) (clock : Option Readings)
        (link : Option Observed)
        (first : ℕ) (given : List Given) (earlier : List Step) (turns begun : ℕ) (e : NodeEnd)
        (left_clock : Option Readings) (left_link : Option Observed) (x y : List ℕ)
        → Serves me (unstarted me.member.rank store_view clock link) turns e begun left_clock left_link first given
        → (S : Said me first (unstarted me.member.rank store_view clock link) given e)
        → Has (last_iteration me first (unstarted me.member.rank store_view clock link) given)
        (λ t. LeavesKept me t S.last (RemainsAfter me t e left_link) x y)
        → (member : Member) (s : StoreView) → opens_as member x y ≡ Ok s
        → IsLifeThatSends i me number store_view clock link first given earlier s.kv
        (sent (happened me first (unstarted me.member.rank store_view clock link) given (S.last ∷ S.others))) }
    ensures killed_saying { (i : ℕ) (me : Me) (number : ℕ) (store_view : StoreView) (clock : Option Readings)
        (link : Option Observed)
        (first : ℕ) (given : List Given) (earlier : List Step) (t : Iteration) (last : List Send)
        (others : List (List Send)) (x y : List ℕ)
        → last_iteration me first (unstarted me.member.rank store_view clock link) given ≡ Ok t
        → AllSentBefore me first (unstarted me.member.rank store_view clock link) given others
        → AreFirstSent (sends_of me t) last
        → LeavesKept me t last (IsWithinIteration me t) x y
        → (member : Member) (s : StoreView) → opens_as member x y ≡ Ok s
        → IsLifeThatSends i me number store_view clock link first given earlier s.kv
        (sent (happened me first (unstarted me.member.rank store_view clock link) given (last ∷ others))) }

    // A crash within a call to a disk. `StandsThrough` says for each point which images the disks may then have.
    ensures within { (me : Me) (t : Iteration) (member : Member) (x y : List ℕ) (s : StoreView)
        → On (IsWithinIteration me t) x y
        → opens_as member x y ≡ Ok s → IsOutcomeOf me t s.kv }
{}

/// A crash while a store is opened adds no map with which its disks may open. Whatever the point of the crash, if the
/// two disks then open, they open with a map with which they might have opened before: `Store::open` says `Alike` of
/// each point. So however often the opening of a process' disks is cut short, they open with a map that `law_lives`
/// allows. Two empty disks open with an empty map, as in the first network.
pub fn law_opening<D: Disk>(before: &NodeDisks<D>, after: &NodeDisks<D>)
    ensures opens { (member : Member) (maps : List Store)
        → EachPair (D.state before.now.a).content (D.state before.now.b).content (OpensWith member maps)
        → WhileOpening (D.state before.now.a).content (D.state before.now.b).content (D.state after.now.a).content
        (D.state after.now.b).content (Alike member (D.state before.now.a).content (D.state before.now.b).content)
        → WhileOpening (D.state before.now.a).content (D.state before.now.b).content (D.state after.now.a).content
        (D.state after.now.b).content (OpensWith member maps)
        × EachPair (D.state after.now.a).content (D.state after.now.b).content (OpensWith member maps) }
    ensures new_store { (member : Member) → (s : StoreView) × (opens_as member [] [] ≡ Ok s) × (s.kv ≡ empty) }
{}

/// Each iteration that `serve` makes asks its link in time, and sends only once the state that this depends on is kept.
///
/// It never waits past a timer that is due. A timer that is due when the iteration begins is its input, and the link
/// isn't asked. Otherwise the link is asked at most once, for at most a second, and that wait is over when the next
/// timer is due.
///
/// It sends nothing before the state that this depends on is kept. An iteration that is completed leaves the store with
/// its transaction kept. If the node ends at an iteration, nothing was sent at it, or its transaction is kept.
///
/// Each datagram that an iteration sends is a message of the core's reaction to its input, or a piece of one, and goes
/// to the receiver of that message.
pub fn law_iterations()
    ensures timers { (me : Me) (g : Given) (s : Serving) (timer : Timer) (at : ℕ)
        → due s.node.state.timers ≡ Some (timer, at) → at ≤ g.began → Takes g s timer (iteration me g s) }
    ensures waits { (me : Me) (g : Given) (s : Serving)
        → IsAskedInTime g.began (due s.node.state.timers) s.outside.link (iteration me g s).serving.outside.link }
    ensures keeps { (me : Me) (t : Iteration) (now : Serving) → ended_iteration me t ≡ Ok now
        → now.node.store ≡ store_view_kept me t }
    ensures ends { (me : Me) (turns begun : ℕ) (t : Iteration) (e : NodeEnd) (clock : Option Readings)
        (link : Option Observed)
        (s : StoreView) → EndsAfter me turns begun t e clock link → RemainsAfter me t e link s
        → IsKeptFirst me t link s }
    ensures messages { (me : Me) (t : Iteration) → AllByRecursion
        (λ d. OfInput me t.serving.node (IsOfReaction me t.serving.node d) t.came) (sends_of me t) }
{}

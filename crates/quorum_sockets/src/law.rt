ghost use Rattle.std.specs.List.{Contains};
ghost use Rattle.std.specs.Prelude.{◌≡◌, ℕ, ◌<◌, ◌^◌, List, ◌++◌, map, Some};
ghost use Rattle.mon_link.specs.Histories.{Happened, sent};
ghost use Rattle.mon_link.specs.declared.link.Outgoing.{Outgoing};
ghost use Rattle.mon_msg.specs.declared.view.Me.{Me};
ghost use Rattle.mon_resend.specs.Copied.{IsOneOf};
ghost use Rattle.quorum_model.specs.Monitors.{Monitors, me_of};
ghost use Rattle.quorum_network.specs.Lives.{alone, own};
ghost use Rattle.quorum_network.specs.Network.{AllMay, Step, network, posted, under};
ghost use Rattle.quorum_network.specs.Requests.{requests};
ghost use Rattle.quorum_network.specs.Running.{DoesARun};
ghost use Rattle.quorum_sockets.specs.Sockets.{AllMayOver};

/// The laws of a network hold of processes over sockets. Let a monitor's links be between each node and its socket, and
/// let nodes send what a network's steps send. Let what comes over a socket from the address of a monitor have gone out of
/// a socket of that monitor, in any of its lives, any number of times and at any later time; or be bytes without the frame
/// of the quorum's tag. Then the steps are those that a network may make: `law_network` and `law_answers` hold of them, and
/// the other laws of processes.
///
/// `law_stack` says that a monitor's links are so. What a node's link was asked to send is in the network, if the steps of
/// its life send it: `law_lives` says that they do, while the life goes on and when it ends.
pub fn law_sockets()
    ensures posts { (ms : Monitors) (i : ℕ) (me : Me) → me_of ms i ≡ Some me → (steps : List Step) (number : ℕ)
        (before : List Outgoing) (above : List Happened)
        → (alone me (own i steps)).sends ≡ before ++ map (under number) (sent above)
        → (d : Outgoing) → IsOneOf (sent above) d → Contains (network ms steps).sent (posted i (under number d)) }
    ensures may { (tag : ℕ) → tag < 2 ^ 64 → (ms : Monitors) (steps : List Step) → AllMayOver tag ms steps
        → AllMay ms steps }
    ensures runs { (tag : ℕ) → tag < 2 ^ 64 → (ms : Monitors) (steps : List Step) → AllMayOver tag ms steps
        → DoesARun ms (requests ms steps) (network ms steps) }
{}

ghost use Rattle.std.specs.List.{AllByRecursion};
ghost use Rattle.std.specs.Prelude.{ℕ, ◌≤◌, List, [], ◌++◌, Option, Some, Ok, Result};
ghost use Rattle.map_follower.specs.Copies.{first};
ghost use Rattle.map_follower.specs.Following.{Holds};
ghost use Rattle.map_follower.specs.Iterations.{Course, Follows, all_turned, course};
ghost use Rattle.map_follower.specs.declared.end.FollowEnd.{FollowEnd};
ghost use Rattle.mon_link.specs.Links.{Observed};
ghost use Rattle.mon_link.specs.declared.link.Got.{Got};
ghost use Rattle.mon_types.specs.declared.names.Stop.{Stop};
ghost use Rattle.mon_wire.specs.declared.request.Service.{Service};
ghost use Rattle.quorum_model.specs.Monitors.{Monitors};
ghost use Rattle.quorum_network.specs.Network.{Step, network};
ghost use Rattle.quorum_network.specs.Promises.{AreAnswers, Numbers};
ghost use Rattle.quorum_network.specs.Requests.{acknowledgements, requests};
ghost use Rattle.network_answers.specs.Answers.{Answer, IsAnswer, IsOfThisLog};
ghost use Rattle.network_answers.specs.History.{HaveAnswers};
ghost use Rattle.network_answers.specs.Followers.{Reaches, Writes};

/// For a whole history of a network there are one log and one list of answers, which only grow.
///
/// Each entry of the log is the value of a command that a client asked. All maps are of the log, except those under a
/// full synchronization. No version is acknowledged twice. Each active leader with a proposal number of at least that
/// of an acknowledgement has its version.
///
/// Every datagram that went to a client is a piece of a REPLY with one of these answers, and the answer is of the log:
/// what it shows is the log up to the last version that its process had, and was asked for; and the command that it says
/// is done is in the log. A client that joins the pieces of long REPLYs joins whole ones, of which all this holds. It
/// does so whichever pieces are lost, repeated or late, and whatever numbers monitors give the client. An answer's epoch
/// is the one that its REPLY names.
///
/// The acknowledged writes and the reads of one epoch are linearizable, whichever processes answer: what was
/// acknowledged or shown by some point in time comes no later in the log than what is acknowledged or shown after it.
/// What one monitor shows is never older than what it showed before, in whatever epochs and over kills and starts.
///
/// Each NoSuch, TooLong and MapFull answers a command that its session asked of its monitor. The command's service
/// refuses the command so over the log up to some version. Take any point in time before the command was asked: that
/// version isn't below any that was acknowledged in the answer's epoch by then.
///
/// Each version of the log is the value of a request of its own, and versions of some point in time are of requests
/// that came to processes by then. So a command is committed no more often than its requests came. A session that gets
/// an answer other than Done has a request of which no version is, neither before the answer nor ever after. If it
/// asked that monitor only once, that is the request answered. A process answers a session no more often than requests
/// of the session came to it. A request whose datagram comes twice counts as two requests.
///
/// An Unavailable, NotReadable or Busy has its cause in a step of its process, in the state that the process then has.
/// The process is in no quorum; or it is in one, and has no version or no valid lease; or as many requests wait at it as
/// may wait. Only a Busy can also come by a ROUTE: then the queue of the leader that sent it was full.
pub fn law_answers()
    ensures { (ms : Monitors) → HaveAnswers ms }
{}

/// A client that follows the monitors of a network holds maps of the log. Let all that monitors sent to clients be of
/// answers that are the log's, as `law_answers` says. Let each datagram that its link returned from a monitor be one that
/// this monitor sent to this client, at any time and any number of times. Then its copy is the map that the log gives the
/// service at the copy's version, after each iteration and at the end. The copy in each line that it wrote is such a map
/// too. The version never decreases, and it increases from line to line. If the link's ghost state lists what it will
/// return, it is enough that the premise holds of that list.
pub fn law_followers()
    ensures holds { (ms : Monitors) (steps : List Step) (log : List (List ℕ)) (answers : List Answer)
        → AllByRecursion (IsOfThisLog (requests ms steps) (acknowledgements ms steps) log) answers
        → AreAnswers (IsAnswer ms.count answers) (network ms steps).sent
        → (numbers : Numbers) (turns asks : ℕ) (s : Service) (link : Option Observed) (written : Option (List ℕ))
        → (new : Course) (e : FollowEnd)
        → (F : Follows ms.count turns (course (first s) [] asks link written) new e)
        → AllByRecursion (Reaches (network ms steps).sent numbers) F.given → Holds s log new.follower }
    ensures copies { (ms : Monitors) (steps : List Step) (log : List (List ℕ)) (answers : List Answer)
        → AllByRecursion (IsOfThisLog (requests ms steps) (acknowledgements ms steps) log) answers
        → AreAnswers (IsAnswer ms.count answers) (network ms steps).sent
        → (numbers : Numbers) (asks : ℕ) (s : Service) (link : Option Observed) (written : Option (List ℕ))
        → (given : List (Result Got Stop))
        → AllByRecursion (Reaches (network ms steps).sent numbers) given
        → Holds s log (all_turned ms.count (course (first s) [] asks link written) given).course.follower
        × Writes s log written (all_turned ms.count (course (first s) [] asks link written) given).course.written }
    ensures rises { (n : ℕ) (old : Course) (later earlier : List (Result Got Stop))
        → (all_turned n old earlier).course.follower.version
        ≤ (all_turned n old (later ++ earlier)).course.follower.version }
    ensures shown { (ms : Monitors) (steps : List Step) (numbers : Numbers) (turns asks : ℕ) (s : Service)
        (link : Observed) (written : Option (List ℕ)) (new : Course) (e : FollowEnd)
        → AllByRecursion (λ (g : Got). Reaches (network ms steps).sent numbers (Ok g)) link.left
        → (F : Follows ms.count turns (course (first s) [] asks (Some link) written) new e)
        → AllByRecursion (Reaches (network ms steps).sent numbers) F.given }
{}

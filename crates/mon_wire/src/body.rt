ghost use Rattle.std.specs.Prelude.{◌≡◌, IfOk};

use crate::parts::{Cookie, Place, Told};
use crate::reply::Reply;
use crate::request::Request;
use crate::score_table::ScoreTable;
use mon_bytes::{Command, Entry, Items};
use mon_tx::Transaction;
use mon_types::{Pn, RankSet, Version};

/// The body of a message.
#[derive(Drop)]
pub enum Body {
    /// How far are you?
    Probe,
    /// The quorum that the sender is in, or the empty set, and the versions that it keeps.
    ProbeReply {
        quorum: RankSet,
        first: Version,
        last: Version,
    },
    /// The sender proposes itself as the leader. If scores count, it sends its table.
    Propose {
        table: Option<ScoreTable>,
    },
    /// The sender defers to the receiver.
    Ack,
    /// The sender has won, and leads this quorum.
    Victory {
        quorum: RankSet,
    },
    /// The leader asks, under its proposal number, what the peon accepted, and sends the range of versions that it
    /// keeps itself.
    Collect {
        pn: Pn,
        first: Version,
        last: Version,
    },
    /// The answer to a collect: the promise, the versions that are kept, committed values from the version `from` on,
    /// and the pending value. `whole` is true if nothing that the leader lacks was left out.
    Last {
        pn: Pn,
        first: Version,
        last: Version,
        whole: bool,
        from: Version,
        values: Items<Transaction>,
        pending: Option<Told>,
    },
    /// The leader asks to accept a value for a version.
    Begin {
        pn: Pn,
        version: Version,
        value: Transaction,
    },
    /// The value for that version is accepted.
    Accept {
        pn: Pn,
        version: Version,
    },
    /// The values of the versions from `from` on are committed.
    Commit {
        from: Version,
        values: Items<Transaction>,
    },
    /// The peon may answer reads of the version `last` for a while.
    Lease {
        last: Version,
    },
    /// The lease is taken.
    LeaseAck {
        last: Version,
    },
    /// A peon forwards a client's command to the leader, under a number of its own.
    Forward {
        seq: u64,
        command: Command,
    },
    /// The leader's answer to the command with that number.
    Route {
        seq: u64,
        reply: Reply,
    },
    /// The sender asks for a full synchronization.
    GetCookieFull,
    /// The sender asks for the versions above its own last one.
    GetCookieRecent {
        last: Version,
    },
    /// The synchronization is granted under this cookie. `last` is the provider's last version.
    Cookie {
        full: bool,
        cookie: Cookie,
        last: Version,
    },
    /// The sender asks for what follows the place.
    GetChunk {
        cookie: Cookie,
        place: Place,
    },
    /// What follows the place: values, entries of the map, and whether the entries are at their end.
    Chunk {
        cookie: Cookie,
        place: Place,
        values: Items<Transaction>,
        entries: Items<Entry>,
        done: bool,
    },
    /// The end of what follows the place. `last` is the provider's last version.
    LastChunk {
        cookie: Cookie,
        place: Place,
        values: Items<Transaction>,
        entries: Items<Entry>,
        last: Version,
    },
    /// There is no synchronization under that cookie, or none any more.
    NoCookie {
        cookie: Cookie,
    },
    /// Are you there? If scores count, the sender sends its table.
    Ping {
        table: Option<ScoreTable>,
    },
    /// The sender is there.
    PingReply {
        table: Option<ScoreTable>,
    },
    /// A client asks, under a number of its own.
    Request {
        id: u64,
        request: Request,
    },
    /// The answer to the request with that number.
    Reply {
        id: u64,
        reply: Reply,
    },
}

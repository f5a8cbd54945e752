//! Inputs of a monitor in a short form, and what they are made of.

use crate::given::{number, value, values};
use mon_bytes::{Bytes, Command, Entry, Items, KeyPlace, Text};
use mon_msg::input::Input;
use mon_msg::{Body, Cookie, Me, Message, Place, Reply, Request, Session, Timer};
use mon_tx::{Area, Key, Transaction};
use mon_types::{Epoch, Rank, RankSet};
use std::alloc::Global;
use std::test::Fail;

/// An input of a monitor: a message of another one, with its numbers as a trace has them, a timer, or a client's
/// request.
#[derive(Clone, Copy)]
pub(crate) enum Comes {
    Probe,
    /// The bits of a quorum, and the first and the last version.
    ProbeReply(u16, u64, u64),
    /// A number, and the first and the last version.
    Collect(u64, u64, u64),
    /// A number, and the last version: an answer that is whole, without records and without a pending value.
    Last(u64, u64),
    /// A number, and a version.
    Begin(u64, u64),
    /// A number, and a version.
    Accept(u64, u64),
    /// The first version, and how many there are.
    Commit(u64, u64),
    Lease(u64),
    GetCookieFull,
    GetCookieRecent(u64),
    /// Whether it is for a whole copy, and the last version.
    Cookie(bool, u64),
    /// The keys up to `kv/7` of a copy that began with version 12.
    Chunk,
    /// The end of that copy: version 13 erases `kv/5`, and 14 puts `kv/10`.
    LastChunk,
    /// A command to log one byte, under this number.
    Forward(u64),
    /// The acknowledgement of version 1, for this number.
    Route(u64),
    /// A client asks to log a text of this length.
    Logs(usize),
    Rings(Timer),
}

/// The cookie of all copies.
const COOKIE: Cookie = Cookie { boot: 1, seq: 1 };

fn entry(alloc: Global, v: u64) -> Result<Entry, Fail> {
    Ok(Entry {
        prefix: Area::Kv.prefix(alloc)?,
        key: Key::Version(v).name(alloc)?,
        value: Bytes::new(Vec::new(alloc)),
    })
}

/// The entries of the keys `kv/5` and `kv/7`.
fn entries(alloc: Global) -> Result<Items<Entry>, Fail> {
    let mut entries = Items::new(alloc);
    for v in [5, 7] {
        entries.push(entry(alloc, v)?)?;
    }
    Ok(entries)
}

fn chunk(alloc: Global) -> Result<Body, Fail> {
    let entries = entries(alloc)?;
    Ok(Body::Chunk {
        cookie: COOKIE,
        place: Place {
            version: number(12),
            key: KeyPlace::Start,
        },
        values: Items::new(alloc),
        entries,
        done: false,
    })
}

fn erases(alloc: Global) -> Result<Transaction, Fail> {
    let mut tx = Transaction::new(alloc);
    tx.erase(Area::Kv, Key::Version(5))?;
    Ok(tx)
}

fn puts(alloc: Global) -> Result<Transaction, Fail> {
    let mut tx = Transaction::new(alloc);
    tx.put_number(Area::Kv, Key::Version(10), 14)?;
    Ok(tx)
}

fn meanwhile(alloc: Global) -> Result<Items<Transaction>, Fail> {
    let mut values = Items::new(alloc);
    values.push(erases(alloc)?)?;
    values.push(puts(alloc)?)?;
    Ok(values)
}

/// The place after the key `kv/7`.
fn after_seven(alloc: Global) -> Result<KeyPlace, Fail> {
    let prefix = Area::Kv.prefix(alloc)?;
    let key = Key::Version(7).name(alloc)?;
    Ok(KeyPlace::After { prefix, key })
}

fn last_chunk(alloc: Global) -> Result<Body, Fail> {
    let values = meanwhile(alloc)?;
    let key = after_seven(alloc)?;
    Ok(Body::LastChunk {
        cookie: COOKIE,
        place: Place {
            version: number(12),
            key,
        },
        values,
        entries: Items::new(alloc),
        last: number(14),
    })
}

fn begin(alloc: Global, pn: u64, version: u64) -> Result<Body, Fail> {
    let value = value(alloc, 1)?;
    Ok(Body::Begin {
        pn: number(pn),
        version: number(version),
        value,
    })
}

fn commit(alloc: Global, from: u64, count: u64) -> Result<Body, Fail> {
    let values = values(alloc, count)?;
    Ok(Body::Commit {
        from: number(from),
        values,
    })
}

fn last(alloc: Global, pn: u64, last: u64) -> Body {
    Body::Last {
        pn: number(pn),
        first: number(last.min(1)),
        last: number(last),
        whole: true,
        from: number(last.saturating_add(1)),
        values: Items::new(alloc),
        pending: None,
    }
}

fn text(alloc: Global, length: usize) -> Result<Text, Fail> {
    Ok(Text::new(vec![in alloc; b't'; length]?).ok_or("a text")?)
}

fn forward(alloc: Global, seq: u64) -> Result<Body, Fail> {
    let text = text(alloc, 1)?;
    Ok(Body::Forward {
        seq,
        command: Command::Log { text },
    })
}

/// The body of a message. A timer and a client's request have none.
fn body(alloc: Global, comes: Comes) -> Result<Body, Fail> {
    match comes {
        Comes::Probe => Ok(Body::Probe),
        Comes::ProbeReply(quorum, first, last) => Ok(Body::ProbeReply {
            quorum: RankSet::from_bits(quorum),
            first: number(first),
            last: number(last),
        }),
        Comes::Collect(pn, first, last) => Ok(Body::Collect {
            pn: number(pn),
            first: number(first),
            last: number(last),
        }),
        Comes::Last(pn, at) => Ok(last(alloc, pn, at)),
        Comes::Begin(pn, version) => begin(alloc, pn, version),
        Comes::Accept(pn, version) => Ok(Body::Accept {
            pn: number(pn),
            version: number(version),
        }),
        Comes::Commit(from, count) => commit(alloc, from, count),
        Comes::Lease(last) => Ok(Body::Lease { last: number(last) }),
        Comes::GetCookieFull => Ok(Body::GetCookieFull),
        Comes::GetCookieRecent(last) => Ok(Body::GetCookieRecent { last: number(last) }),
        Comes::Cookie(full, last) => Ok(Body::Cookie {
            full,
            cookie: COOKIE,
            last: number(last),
        }),
        Comes::Chunk => chunk(alloc),
        Comes::LastChunk => last_chunk(alloc),
        Comes::Forward(seq) => forward(alloc, seq),
        Comes::Route(seq) => Ok(Body::Route {
            seq,
            reply: Reply::Done { version: number(1) },
        }),
        Comes::Rings(_) | Comes::Logs(_) => Err("a message".into()),
    }
}

/// The input in full. A message is from the monitor of rank `from`, in this epoch.
pub(crate) fn input(
    alloc: Global,
    me: &Me,
    from: u8,
    epoch: Epoch,
    comes: Comes,
) -> Result<Input, Fail> {
    if let Comes::Rings(timer) = comes {
        return Ok(Input::Timer(timer));
    }
    if let Comes::Logs(length) = comes {
        let text = text(alloc, length)?;
        return Ok(Input::Client(Session { client: 5, id: 6 }, Request::Log { text }));
    }
    let body = body(alloc, comes)?;
    Ok(Input::Deliver(Message {
        from: Rank::known(from.min(14)),
        monitors: me.member.monitors,
        epoch,
        body,
    }))
}

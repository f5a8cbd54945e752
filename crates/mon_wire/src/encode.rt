//! Messages, encoded.

ghost use Rattle.std.specs.Prelude.{◌≡◌, ℕ, ◌≤◌, ◌∷◌, ◌++◌, IfOk, OnOk};
ghost use Rattle.mon_wire.specs.Message.Fields.{number_bytes};
ghost use Rattle.mon_wire.specs.Message.Bodies.{encoded};
ghost use Rattle.mon_wire.specs.Message.Whole.{text, IsMessage, HasText};

use crate::body::Body;
use crate::message::Message;
use crate::write_bodies::{
    write_accept, write_asked, write_begin, write_chunk, write_collect, write_commit,
    write_forward, write_found, write_granted, write_last_chunk, write_numbered_reply,
    write_numbered_request, write_probe_reply,
};
use crate::write_fields::{write_number, write_set};
use crate::write_lists::write_table;
use crate::write_parts::write_cookie;
use mon_bytes::{Out, OutOfMemory};
use mon_types::Rank;
use std::alloc::Global;

/// The byte of the body's kind.
fn kind_byte(n: u8, own: Rank, body: &Body) -> u8
    ensures { result ≡ (encoded n own body.now).tag }
{
    match body {
        Body::Probe => 1,
        Body::ProbeReply { .. } => 2,
        Body::Propose { .. } => 3,
        Body::Ack => 4,
        Body::Victory { .. } => 5,
        Body::Collect { .. } => 6,
        Body::Last { .. } => 7,
        Body::Begin { .. } => 8,
        Body::Accept { .. } => 9,
        Body::Commit { .. } => 10,
        Body::Lease { .. } => 11,
        Body::LeaseAck { .. } => 12,
        Body::Forward { .. } => 13,
        Body::Route { .. } => 14,
        Body::GetCookieFull => 15,
        Body::GetCookieRecent { .. } => 16,
        Body::Cookie { .. } => 17,
        Body::GetChunk { .. } => 18,
        Body::Chunk { .. } => 19,
        Body::LastChunk { .. } => 20,
        Body::NoCookie { .. } => 21,
        Body::Ping { .. } => 22,
        Body::PingReply { .. } => 23,
        Body::Request { .. } => 24,
        Body::Reply { .. } => 25,
    }
}

/// Appends what follows the header of a message of the monitor `own` of `n`.
fn write_body(out: &mut Out, n: u8, own: Rank, body: &Body) -> Result<(), OutOfMemory>
    requires few { n ≤ 15 }
    requires form { (encoded n own body.now).Form }
    ensures { OnOk result (out.new ≡ out.old ++ (encoded n own body.now).text) }
{
    match *body {
        Body::Probe => Ok(()),
        Body::ProbeReply {
            quorum,
            first,
            last,
        } => write_probe_reply(out, n, quorum, first, last),
        Body::Propose { ref table } => write_table(out, n, own, table),
        Body::Ack => Ok(()),
        Body::Victory { quorum } => write_set(out, quorum),
        Body::Collect { pn, first, last } => write_collect(out, pn, first, last),
        Body::Last {
            pn,
            first,
            last,
            whole,
            from,
            ref values,
            ref pending,
        } => {
            write_collect(out, pn, first, last)?;
            write_found(out, whole, from, values.as_slice(), pending)
        }
        Body::Begin {
            pn,
            version,
            ref value,
        } => write_begin(out, pn, version, value),
        Body::Accept { pn, version } => write_accept(out, pn, version),
        Body::Commit { from, ref values } => write_commit(out, from, values.as_slice()),
        Body::Lease { last } => write_number(out, last.get()),
        Body::LeaseAck { last } => write_number(out, last.get()),
        Body::Forward { seq, ref command } => write_forward(out, seq, command),
        Body::Route { seq, ref reply } => write_numbered_reply(out, seq, reply),
        Body::GetCookieFull => Ok(()),
        Body::GetCookieRecent { last } => write_number(out, last.get()),
        Body::Cookie { full, cookie, last } => write_granted(out, full, cookie, last),
        Body::GetChunk { cookie, ref place } => write_asked(out, cookie, place),
        Body::Chunk {
            cookie,
            ref place,
            ref values,
            ref entries,
            done,
        } => write_chunk(
            out,
            cookie,
            place,
            values.as_slice(),
            entries.as_slice(),
            done,
        ),
        Body::LastChunk {
            cookie,
            ref place,
            ref values,
            ref entries,
            last,
        } => write_last_chunk(
            out,
            cookie,
            place,
            values.as_slice(),
            entries.as_slice(),
            last,
        ),
        Body::NoCookie { cookie } => write_cookie(out, cookie),
        Body::Ping { ref table } => write_table(out, n, own, table),
        Body::PingReply { ref table } => write_table(out, n, own, table),
        Body::Request { id, ref request } => write_numbered_request(out, id, request),
        Body::Reply { id, ref reply } => write_numbered_reply(out, id, reply),
    }
}

/// Appends the header: the format, the body's kind, the sender, how many monitors there are, and the epoch.
fn write_header(out: &mut Out, kind: u8, message: &Message) -> Result<(), OutOfMemory>
    ensures { OnOk result (out.new ≡ out.old ++ (1 ∷ kind ∷ message.now.from ∷ message.now.monitors ∷ number_bytes message.now.epoch)) }
{
    out.put_u8(1)?;
    out.put_u8(kind)?;
    out.put_u8(message.from.get())?;
    out.put_u8(message.monitors)?;
    write_number(out, message.epoch.get())
}

fn write(out: &mut Out, message: &Message) -> Result<(), OutOfMemory>
    requires { IsMessage message.now }
    ensures { OnOk result (out.new ≡ out.old ++ text message.now) }
{
    let (n, own) = (message.monitors, message.from);
    write_header(out, kind_byte(n, own, &message.body), message)?;
    write_body(out, n, own, &message.body)
}

impl Message {
    /// The one text of the message. It is for messages that have one: of the form of messages, and of at most 1,048,576 bytes.
    pub fn encode(&self, alloc: Global) -> Result<Vec<u8>, OutOfMemory>
        requires { HasText self.now }
        ensures { IfOk result (λ bytes. bytes.items ≡ text self.now) }
    {
        let mut out = Out::new(alloc);
        write(&mut out, self)?;
        Ok(out.into_bytes())
    }
}

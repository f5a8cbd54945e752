//! The replies that come.

ghost use Rattle.std.specs.Prelude.{◌≡◌, ◌≤◌, Err, IfErr, IfOk, OnOk, string_bytes};
ghost use Rattle.mon_frag.specs.Keeping.{taken as piece_taken};
ghost use Rattle.mon_frag.specs.Whole.{answer_in, kept_in};
ghost use Rattle.mon_types.specs.Faults.{Rose};
ghost use Rattle.mon_wire.specs.Message.Whole.{message_of};
ghost use Rattle.map_follower.specs.Copies.{taken};
ghost use Rattle.map_follower.specs.Iterations.{from_monitor, reply_of, reply_read, reply_in, copy_text, line_of, CopyAt, Writes, WritesPrefix};

use crate::end::FollowEnd;
use crate::follower::Follower;
use crate::took::Took;
use mon_bytes::{Bytes, OutOfMemory};
use mon_decode::{MsgRefused, decode};
use mon_frag::{Assembly, FragRefused};
use mon_link::{Peer, Sink, write_all};
use mon_msg::{Body, Message, Reply};
use mon_types::Stop;
use schedule_text::service_word;
use std::alloc::{AllocError, Global};
use std::fmt::Write;
use trace_text::put_shown;

fn reply_of(body: Body) -> Option<Reply>
    ensures { result ≡ reply_of body }
{
    match body {
        Body::Reply { reply, .. } => Some(reply),
        other => {
            drop(other);
            None
        }
    }
}

/// The reply that a message from a peer holds, if the peer is the monitor that the message names.
fn from_peer(monitors: u8, from: &Peer, message: Message) -> Option<Reply>
    ensures { result ≡ from_monitor monitors from.now message }
{
    match from {
        Peer::Monitor(rank) => {
            if message.monitors != monitors {
                drop(message);
                return None;
            }
            if message.from != *rank {
                drop(message);
                return None;
            }
            reply_of(message.body)
        }
        Peer::Client(_) => {
            drop(message);
            None
        }
    }
}

fn read(
    alloc: Global,
    monitors: u8,
    from: &Peer,
    bytes: &[u8],
) -> Result<Option<Reply>, OutOfMemory>
    ensures { IfOk result (λ came. came ≡ reply_read monitors from.now (message_of bytes.now)) }
{
    match decode(alloc, bytes) {
        Ok(message) => Ok(from_peer(monitors, from, message)),
        Err(MsgRefused::At { .. }) => Ok(None),
        Err(MsgRefused::OutOfMemory) => Err(OutOfMemory),
    }
}

/// The message that this datagram completes, if it completes one.
fn assembled(
    assembly: &mut Assembly,
    from: &Peer,
    datagram: &[u8],
) -> Result<Option<Bytes>, OutOfMemory>
    ensures whole { IfOk result (λ whole. whole ≡ answer_in (piece_taken assembly.old from.now datagram.now)) }
    ensures kept { OnOk result (assembly.new ≡ kept_in assembly.old (piece_taken assembly.old from.now datagram.now)) }
{
    match assembly.take(*from, datagram) {
        Ok(whole) => Ok(whole),
        Err(FragRefused::OutOfMemory) => Err(OutOfMemory),
        Err(_) => Ok(None),
    }
}

/// The reply that a datagram brings, if it brings one.
pub(crate) fn hear(
    alloc: Global,
    monitors: u8,
    assembly: &mut Assembly,
    from: &Peer,
    datagram: &[u8],
) -> Result<Option<Reply>, OutOfMemory>
    ensures reply { IfOk result (λ came. came ≡ reply_in monitors from.now (answer_in (piece_taken assembly.old from.now datagram.now))) }
    ensures kept { OnOk result (assembly.new ≡ kept_in assembly.old (piece_taken assembly.old from.now datagram.now)) }
{
    match assembled(assembly, from, datagram)? {
        Some(bytes) => read(alloc, monitors, from, bytes.as_slice()),
        None => Ok(None),
    }
}

/// The line that is written for a copy.
fn line(alloc: Global, follower: &Follower) -> Result<String, AllocError>
    ensures { IfOk result (λ text. string_bytes text ≡ copy_text follower.now) }
{
    let mut out = String::new(alloc);
    let service = service_word(follower.service());
    let version = follower.version();
    write!(&mut out, "{service} version={version} ")?;
    put_shown(alloc, &mut out, follower.map())?;
    out.push_str("\n")?;
    Ok(out)
}

/// Takes a reply, and writes the line of the copy if it is newer.
pub(crate) fn take<K: Sink>(
    alloc: Global,
    follower: &mut Follower,
    sink: &mut K,
    reply: &Reply,
) -> Result<(), FollowEnd>
    ensures follower { OnOk result (follower.new ≡ (taken follower.old reply.now).0) }
    ensures copy { IfErr result (λ e. CopyAt e follower.old (taken follower.old reply.now).0 follower.new) }
    ensures ok { OnOk result (Writes (K.held sink.old) (K.held sink.new) (line_of (taken follower.old reply.now))) }
    ensures err { IfErr result (λ e. WritesPrefix e (K.held sink.old) (K.held sink.new) (line_of (taken follower.old reply.now))) }
    ensures later { K.faults sink.old ≤ K.faults sink.new }
    ensures fault { result ≡ Err FollowEnd.WriteFault → Rose (K.faults sink.old) (K.faults sink.new) }
{
    let took = follower.take(alloc, reply)?;
    match took {
        Took::Newer { .. } => {
            let line = line(alloc, follower).map_err(OutOfMemory::from)?;
            match write_all(sink, line.as_bytes()) {
                Ok(()) => Ok(()),
                Err(Stop::Failed) => Err(FollowEnd::WriteFault),
                Err(Stop::OutOfMemory) => Err(FollowEnd::OutOfMemory),
            }
        }
        _ => Ok(()),
    }
}

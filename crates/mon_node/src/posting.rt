//! Sends what a core's reaction asks for, as datagrams.

ghost use Rattle.std.specs.Prelude.{◌≡◌, ◌≤◌, ◌<◌, ◌+◌, ◌^◌, List, [], ◌∷◌, length, map, IfOk, IfErr, OnOk};
ghost use Rattle.std.specs.List.{AllByRecursion};
ghost use Rattle.mon_bounds.specs.Fitting.{MaySend};
ghost use Rattle.mon_bytes.specs.declared.limits.TheConstants.{MOST_MESSAGE};
ghost use Rattle.mon_core.specs.Reacts.{SendsNamed};
ghost use Rattle.mon_link.specs.Histories.{Happened};
ghost use Rattle.mon_types.specs.declared.names.Which.TheVariants as number;
ghost use Rattle.mon_wire.specs.Message.Whole.{HasText, text};
ghost use Rattle.mon_wire.specs.declared.body.Body.TheVariants as body;
ghost use Rattle.mon_node.specs.Posting.{Posts, to_peer, letter, letters, next_after_message, next_after, with_number, datagrams_of, datagrams, boot_in, IsSpent};
ghost use Rattle.mon_node.specs.Sends.{link_now};

use crate::end::NodeEnd;
use mon_bounds::law_message_fits;
use mon_bytes::{Bytes, Items, OutOfMemory};
use mon_frag::{DATAGRAM, pieces};
use mon_kv::Kv;
use mon_link::{Link, Outgoing, Peer};
use mon_msg::plan::Sent;
use mon_msg::{Body, Me, Message, Reply};
use mon_types::{Epoch, GREATEST, Stop, Which};
use std::alloc::Global;

/// Sends a datagram. One that can't be sent is lost.
fn send_one<L: Link>(link: &mut L, to: &Peer, datagram: &[u8]) -> Result<(), OutOfMemory>
    ensures { Posts (to_peer to.now datagram.now ∷ []) result
        (link_now L.state L.history link.old) (link_now L.state L.history link.new) }
{
    match link.send(*to, datagram) {
        Ok(()) => Ok(()),
        Err(Stop::Failed) => Ok(()),
        Err(Stop::OutOfMemory) => Err(OutOfMemory),
    }
}

fn send_each<L: Link>(link: &mut L, to: &Peer, datagrams: &[Bytes]) -> Result<(), OutOfMemory>
    ensures { Posts (map (to_peer to.now) datagrams.now) result
        (link_now L.state L.history link.old) (link_now L.state L.history link.new) }
{
    for datagram in datagrams {
        send_one(link, to, datagram.as_slice())?;
    }
    Ok(())
}

/// The next number, which a message of `len` bytes uses up if it is longer than a datagram. In that case a number above
/// 2^62 is refused.
fn numbered(next: &mut u64, len: usize) -> Result<u64, NodeEnd>
    requires { next.old ≤ 2 ^ 62 + 1 }
    ensures number { IfOk result (λ number. number ≡ next.old) }
    ensures behind { OnOk result (next.new ≡ next_after_message next.old len) }
    ensures most { OnOk result (next.new ≤ 2 ^ 62 + 1) }
    ensures spent { IfErr result (λ end. (end ≡ NodeEnd.Spent number.Seq)
        × (2 ^ 62 + 1 < next_after_message next.old len)) }
{
    let number = *next;
    if len > DATAGRAM {
        if number > GREATEST {
            return Err(NodeEnd::Spent { which: Which::Seq });
        }
        *next = number + 1;
    }
    Ok(number)
}

/// Sends the bytes of a message: in one datagram, or in pieces under the next number.
fn send_letter<L: Link>(
    alloc: Global,
    link: &mut L,
    boot: u64,
    next: &mut u64,
    letter: Outgoing,
) -> Result<(), NodeEnd>
    requires short { length letter.bytes ≤ MOST_MESSAGE }
    requires next { next.old ≤ 2 ^ 62 + 1 }
    ensures posts { Posts (datagrams_of boot next.old letter) result
        (link_now L.state L.history link.old) (link_now L.state L.history link.new) }
    ensures behind { OnOk result (next.new ≡ next_after_message next.old (length letter.bytes)) }
    ensures most { OnOk result (next.new ≤ 2 ^ 62 + 1) }
    ensures spent { IfErr result (IsSpent (next_after_message next.old (length letter.bytes))) }
    ensures unsent { 2 ^ 62 + 1 < next_after_message next.old (length letter.bytes)
        → (L.state link.new ≡ L.state link.old)
        × ((h : List Happened) → L.history link.old h → L.history link.new h) }
{
    let Outgoing { to, bytes } = letter;
    let number = numbered(next, bytes.as_slice().len())?;
    let datagrams = pieces(alloc, bytes, boot, number)?;
    send_each(link, &to, datagrams.as_slice())?;
    Ok(())
}

/// The bytes of a message, which is used up.
fn into_text(alloc: Global, message: Message) -> Result<Bytes, OutOfMemory>
    requires { HasText message }
    ensures text { IfOk result (λ bytes. bytes ≡ text message) }
    ensures short { IfOk result (λ bytes. length bytes ≤ MOST_MESSAGE) }
{
    let text = text_of(alloc, &message);
    drop(message);
    text
}

/// The bytes of a message.
fn text_of(alloc: Global, message: &Message) -> Result<Bytes, OutOfMemory>
    requires { HasText message.now }
    ensures text { IfOk result (λ bytes. bytes ≡ text message.now) }
    ensures short { IfOk result (λ bytes. length bytes ≤ MOST_MESSAGE) }
{
    Ok(Bytes::new(message.encode(alloc)?))
}

/// The message with a client's answer.
fn answer_in(me: &Me, epoch: Epoch, id: u64, reply: Reply) -> Message
    ensures { result ≡
        record { from = me.now.member.rank; monitors = me.now.member.monitors; epoch = epoch; body = body.Reply id reply } }
{
    Message {
        from: me.member.rank,
        monitors: me.member.monitors,
        epoch,
        body: Body::Reply { id, reply },
    }
}

/// A message or a reply that is sent: its receiver, and the bytes of its message.
fn letter(alloc: Global, me: &Me, epoch: Epoch, sent: Sent) -> Result<Outgoing, OutOfMemory>
    requires may { MaySend me.now sent }
    requires named { SendsNamed sent }
    ensures letter { IfOk result (λ l. l ≡ letter me.now epoch sent) }
    ensures short { IfOk result (λ l. length l.bytes ≤ MOST_MESSAGE) }
{
    law_message_fits();
    match sent {
        Sent::Message { to, message } => Ok(Outgoing {
            to: Peer::Monitor(to),
            bytes: into_text(alloc, message)?,
        }),
        Sent::Reply { to, reply } => {
            let message = answer_in(me, epoch, to.id, reply);
            Ok(Outgoing {
                to: Peer::Client(to.client),
                bytes: into_text(alloc, message)?,
            })
        }
    }
}

/// Sends all of these in order, with the epoch and the boot count of this map. It ends before the first message that is
/// longer than a datagram and for which no number is left.
pub(crate) fn send_all<L: Link>(
    alloc: Global,
    link: &mut L,
    me: &Me,
    kv: &Kv,
    next: &mut u64,
    out: Items<Sent>,
) -> Result<(), NodeEnd>
    requires may { AllByRecursion (MaySend me.now) out }
    requires named { AllByRecursion SendsNamed out }
    requires next { next.old ≤ 2 ^ 62 + 1 }
    ensures posts { Posts (datagrams (boot_in kv.now) next.old (with_number next.old (letters me.now kv.now out)))
        result (link_now L.state L.history link.old) (link_now L.state L.history link.new) }
    ensures behind { OnOk result (next.new ≡ next_after next.old (letters me.now kv.now out)) }
    ensures most { OnOk result (next.new ≤ 2 ^ 62 + 1) }
    ensures spent { IfErr result (IsSpent (next_after next.old (letters me.now kv.now out))) }
{
    let epoch = Epoch::known(kv.epoch());
    let boot = kv.boot_count();
    for sent in out.into_vec() {
        let letter = letter(alloc, me, epoch, sent)?;
        send_letter(alloc, link, boot, next, letter)?;
    }
    Ok(())
}

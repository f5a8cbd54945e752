//! Replies, encoded.

ghost use Rattle.std.specs.Prelude.{◌≡◌, ℕ, ◌<◌, ◌^◌, ◌++◌, OnOk};
ghost use Rattle.mon_wire.specs.Message.Parts.{shown_text, shown_length};
ghost use Rattle.mon_wire.specs.Message.Client.{shown, since, reply_encoded, a_reply};

use crate::reply::{Reply, ShownMap};
use crate::request::Service;
use crate::write_fields::{write_bytes, write_flag, write_number, write_service};
use crate::write_lists::write_blobs;
use mon_bytes::{Bytes, Out, OutOfMemory};
use mon_types::Version;

fn write_shown_map(out: &mut Out, shown: &ShownMap) -> Result<(), OutOfMemory>
    requires { shown_length shown.now < 2 ^ 32 }
    ensures { OnOk result (out.new ≡ out.old ++ shown_text shown.now) }
{
    match shown {
        ShownMap::Kv(map) => {
            // For the prover: the size is that of the text.
            let _size = map.size();
            let text = map.encode()?;
            write_bytes(out, &text)
        }
        ShownMap::Log(map) => {
            // For the prover: the size is that of the text.
            let _size = map.size();
            let text = map.encode()?;
            write_bytes(out, &text)
        }
    }
}

/// The byte of the reply's kind.
fn kind_byte(reply: &Reply) -> u8
    ensures { result ≡ (reply_encoded reply.now).tag }
{
    match reply {
        Reply::Done { .. } => 1,
        Reply::Shown { .. } => 2,
        Reply::Since { .. } => 3,
        Reply::NoSuch => 4,
        Reply::TooLong { .. } => 5,
        Reply::MapFull { .. } => 6,
        Reply::Unavailable => 7,
        Reply::NotReadable { .. } => 8,
        Reply::Busy { .. } => 9,
    }
}

#[tactic(auto, using(crate::proofs::WriteLoops::shown_is_short))]
fn write_shown(
    out: &mut Out,
    service: Service,
    paxos: Version,
    version: Version,
    map: &ShownMap,
) -> Result<(), OutOfMemory>
    requires { shown.Form (service, (paxos, (version, map.now))) }
    ensures { OnOk result (out.new ≡ out.old ++ shown.text (service, (paxos, (version, map.now)))) }
{
    write_service(out, service)?;
    write_number(out, paxos.get())?;
    write_number(out, version.get())?;
    write_shown_map(out, map)
}

fn write_since(
    out: &mut Out,
    service: Service,
    from: Version,
    more: bool,
    incrementals: &[Bytes],
) -> Result<(), OutOfMemory>
    requires { since.Form (service, (from, (more, incrementals.now))) }
    ensures { OnOk result (out.new ≡ out.old ++ since.text (service, (from, (more, incrementals.now)))) }
{
    write_service(out, service)?;
    write_number(out, from.get())?;
    write_flag(out, more)?;
    write_blobs(out, incrementals)
}

/// Appends what follows the kind of a reply.
fn write_fields(out: &mut Out, reply: &Reply) -> Result<(), OutOfMemory>
    requires { a_reply.Form reply.now }
    ensures { OnOk result (out.new ≡ out.old ++ (reply_encoded reply.now).text) }
{
    match reply {
        Reply::Done { version } => write_number(out, version.get()),
        Reply::Shown {
            service,
            paxos,
            version,
            map,
        } => write_shown(out, *service, *paxos, *version, map),
        Reply::Since {
            service,
            from,
            incrementals,
            more,
        } => write_since(out, *service, *from, *more, incrementals.as_slice()),
        Reply::NoSuch => Ok(()),
        Reply::TooLong { len, most } => {
            write_number(out, *len)?;
            write_number(out, *most)
        }
        Reply::MapFull { would_be } => write_number(out, *would_be),
        Reply::Unavailable => Ok(()),
        Reply::NotReadable { has, lease } => {
            write_number(out, has.get())?;
            write_flag(out, *lease)
        }
        Reply::Busy { waiting } => write_number(out, *waiting),
    }
}

pub(crate) fn write_reply(out: &mut Out, reply: &Reply) -> Result<(), OutOfMemory>
    requires { a_reply.Form reply.now }
    ensures { OnOk result (out.new ≡ out.old ++ a_reply.text reply.now) }
{
    out.put_u8(kind_byte(reply))?;
    write_fields(out, reply)
}

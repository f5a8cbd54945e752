//! The bodies of messages that have several fields, encoded.

ghost use Rattle.std.specs.Prelude.{◌≡◌, ℕ, ◌++◌, OnOk};
ghost use Rattle.mon_wire.specs.Message.Format.{◌⊗◌, list};
ghost use Rattle.mon_wire.specs.Message.Fields.{numeral, flag, value};
ghost use Rattle.mon_wire.specs.Message.Parts.{entry, optional, told};
ghost use Rattle.mon_wire.specs.Message.Bodies.{probe_reply, collect, begin, accept, commit, forward, granted, asked, chunk, last_chunk, request, reply};

use crate::parts::{Cookie, Place, Told};
use crate::reply::Reply;
use crate::request::Request;
use crate::write_fields::{write_flag, write_number, write_set, write_value};
use crate::write_lists::{write_entries, write_values};
use crate::write_parts::{write_command, write_cookie, write_place, write_request, write_told};
use crate::write_reply::write_reply;
use mon_bytes::{Command, Entry, Out, OutOfMemory};
use mon_tx::Transaction;
use mon_types::{Pn, RankSet, Version};

pub(crate) fn write_probe_reply(
    out: &mut Out,
    n: u8,
    quorum: RankSet,
    first: Version,
    last: Version,
) -> Result<(), OutOfMemory>
    requires { (probe_reply n).Form (quorum, (first, last)) }
    ensures { OnOk result (out.new ≡ out.old ++ (probe_reply n).text (quorum, (first, last))) }
{
    write_set(out, quorum)?;
    write_number(out, first.get())?;
    write_number(out, last.get())
}

pub(crate) fn write_collect(
    out: &mut Out,
    pn: Pn,
    first: Version,
    last: Version,
) -> Result<(), OutOfMemory>
    ensures { OnOk result (out.new ≡ out.old ++ collect.text (pn, (first, last))) }
{
    write_number(out, pn.get())?;
    write_number(out, first.get())?;
    write_number(out, last.get())
}

/// Appends the end of a LAST: whether it is whole, the values from version `from` on, and the pending value.
pub(crate) fn write_found(
    out: &mut Out,
    whole: bool,
    from: Version,
    values: &[Transaction],
    pending: &Option<Told>,
) -> Result<(), OutOfMemory>
    requires { (flag ⊗ numeral ⊗ list value ⊗ optional told).Form (whole, (from, (values.now, pending.now))) }
    ensures { OnOk result (out.new ≡ out.old ++ (flag ⊗ numeral ⊗ list value ⊗ optional told).text (whole, (from, (values.now, pending.now)))) }
{
    write_flag(out, whole)?;
    write_number(out, from.get())?;
    write_values(out, values)?;
    write_told(out, pending)
}

pub(crate) fn write_begin(
    out: &mut Out,
    pn: Pn,
    version: Version,
    begun: &Transaction,
) -> Result<(), OutOfMemory>
    requires { begin.Form (pn, (version, begun.now)) }
    ensures { OnOk result (out.new ≡ out.old ++ begin.text (pn, (version, begun.now))) }
{
    write_number(out, pn.get())?;
    write_number(out, version.get())?;
    write_value(out, begun)
}

pub(crate) fn write_accept(out: &mut Out, pn: Pn, version: Version) -> Result<(), OutOfMemory>
    ensures { OnOk result (out.new ≡ out.old ++ accept.text (pn, version)) }
{
    write_number(out, pn.get())?;
    write_number(out, version.get())
}

pub(crate) fn write_commit(
    out: &mut Out,
    from: Version,
    values: &[Transaction],
) -> Result<(), OutOfMemory>
    requires { commit.Form (from, values.now) }
    ensures { OnOk result (out.new ≡ out.old ++ commit.text (from, values.now)) }
{
    write_number(out, from.get())?;
    write_values(out, values)
}

pub(crate) fn write_forward(out: &mut Out, seq: u64, command: &Command) -> Result<(), OutOfMemory>
    requires { forward.Form (seq, command.now) }
    ensures { OnOk result (out.new ≡ out.old ++ forward.text (seq, command.now)) }
{
    write_number(out, seq)?;
    write_command(out, command)
}

pub(crate) fn write_granted(
    out: &mut Out,
    full: bool,
    cookie: Cookie,
    last: Version,
) -> Result<(), OutOfMemory>
    ensures { OnOk result (out.new ≡ out.old ++ granted.text (full, (cookie, last))) }
{
    write_flag(out, full)?;
    write_cookie(out, cookie)?;
    write_number(out, last.get())
}

pub(crate) fn write_asked(out: &mut Out, cookie: Cookie, from: &Place) -> Result<(), OutOfMemory>
    ensures { OnOk result (out.new ≡ out.old ++ asked.text (cookie, from.now)) }
{
    write_cookie(out, cookie)?;
    write_place(out, from)
}

fn write_contents(
    out: &mut Out,
    values: &[Transaction],
    entries: &[Entry],
) -> Result<(), OutOfMemory>
    requires values { (list value).Form values.now }
    requires entries { (list entry).Form entries.now }
    ensures { OnOk result (out.new ≡ out.old ++ ((list value).text values.now ++ (list entry).text entries.now)) }
{
    write_values(out, values)?;
    write_entries(out, entries)
}

pub(crate) fn write_chunk(
    out: &mut Out,
    cookie: Cookie,
    from: &Place,
    values: &[Transaction],
    entries: &[Entry],
    done: bool,
) -> Result<(), OutOfMemory>
    requires { chunk.Form (cookie, (from.now, (values.now, (entries.now, done)))) }
    ensures { OnOk result (out.new ≡ out.old ++ chunk.text (cookie, (from.now, (values.now, (entries.now, done))))) }
{
    write_asked(out, cookie, from)?;
    write_contents(out, values, entries)?;
    write_flag(out, done)
}

pub(crate) fn write_last_chunk(
    out: &mut Out,
    cookie: Cookie,
    from: &Place,
    values: &[Transaction],
    entries: &[Entry],
    last: Version,
) -> Result<(), OutOfMemory>
    requires { last_chunk.Form (cookie, (from.now, (values.now, (entries.now, last)))) }
    ensures { OnOk result (out.new ≡ out.old ++ last_chunk.text (cookie, (from.now, (values.now, (entries.now, last))))) }
{
    write_asked(out, cookie, from)?;
    write_contents(out, values, entries)?;
    write_number(out, last.get())
}

pub(crate) fn write_numbered_request(
    out: &mut Out,
    id: u64,
    asked: &Request,
) -> Result<(), OutOfMemory>
    requires { request.Form (id, asked.now) }
    ensures { OnOk result (out.new ≡ out.old ++ request.text (id, asked.now)) }
{
    write_number(out, id)?;
    write_request(out, asked)
}

pub(crate) fn write_numbered_reply(
    out: &mut Out,
    id: u64,
    answer: &Reply,
) -> Result<(), OutOfMemory>
    requires { reply.Form (id, answer.now) }
    ensures { OnOk result (out.new ≡ out.old ++ reply.text (id, answer.now)) }
{
    write_number(out, id)?;
    write_reply(out, answer)
}

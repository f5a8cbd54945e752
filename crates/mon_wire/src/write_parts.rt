//! The parts of messages that are made of fields, encoded.

ghost use Rattle.std.specs.Prelude.{◌≡◌, ℕ, ◌≤◌, ◌<◌, ◌^◌, ◌++◌, length, OnOk};
ghost use Rattle.mon_bytes.specs.Forms.{text_bytes};
ghost use Rattle.mon_wire.specs.Message.Parts.{optional, cookie, told, key_place, place, a_command};
ghost use Rattle.mon_wire.specs.Message.Client.{request_encoded, a_request};
ghost use Rattle.mon_wire.specs.Message.Fields.{name, utf8};
ghost use Rattle.mon_wire.specs.Message.Format.{◌⊗◌};

use crate::parts::{Cookie, Place, Told};
use crate::request::Request;
use crate::write_fields::{write_number, write_service, write_value};
use mon_bytes::{Command, KeyPlace, Name, Out, OutOfMemory, Text, write_text};

pub(crate) fn write_cookie(out: &mut Out, k: Cookie) -> Result<(), OutOfMemory>
    ensures { OnOk result (out.new ≡ out.old ++ cookie.text k) }
{
    write_number(out, k.boot)?;
    write_number(out, k.seq)
}

pub(crate) fn write_told(out: &mut Out, pending: &Option<Told>) -> Result<(), OutOfMemory>
    requires { (optional told).Form pending.now }
    ensures { OnOk result (out.new ≡ out.old ++ (optional told).text pending.now) }
{
    match pending {
        None => out.put_u8(0),
        Some(t) => {
            out.put_u8(1)?;
            write_number(out, t.pn.get())?;
            write_value(out, &t.value)
        }
    }
}

fn write_key_place(out: &mut Out, at: &KeyPlace) -> Result<(), OutOfMemory>
    ensures { OnOk result (out.new ≡ out.old ++ key_place.text at.now) }
{
    match at {
        KeyPlace::Start => out.put_u8(0),
        KeyPlace::After { prefix, key } => {
            out.put_u8(1)?;
            out.put_word(prefix.as_slice())?;
            out.put_word(key.as_slice())
        }
        KeyPlace::Done => out.put_u8(2),
    }
}

pub(crate) fn write_place(out: &mut Out, at: &Place) -> Result<(), OutOfMemory>
    ensures { OnOk result (out.new ≡ out.old ++ place.text at.now) }
{
    write_number(out, at.version.get())?;
    write_key_place(out, &at.key)
}

/// Appends a key and its value.
fn write_set(out: &mut Out, key: &Name, value: &Text) -> Result<(), OutOfMemory>
    requires { length value.now < 2 ^ 32 }
    ensures { OnOk result (out.new ≡ out.old ++ (name ⊗ utf8).text (key.now, value.now)) }
{
    out.put_word(key.as_slice())?;
    write_text(out, value)
}

pub(crate) fn write_command(out: &mut Out, command: &Command) -> Result<(), OutOfMemory>
    requires { a_command.Form command.now }
    ensures { OnOk result (out.new ≡ out.old ++ a_command.text command.now) }
{
    match command {
        Command::Set { key, value } => {
            out.put_u8(1)?;
            write_set(out, key, value)
        }
        Command::Remove { key } => {
            out.put_u8(2)?;
            out.put_word(key.as_slice())
        }
        Command::Log { text } => {
            out.put_u8(3)?;
            write_text(out, text)
        }
    }
}

fn request_byte(request: &Request) -> u8
    ensures { result ≡ (request_encoded request.now).tag }
{
    match request {
        Request::Set { .. } => 1,
        Request::Remove { .. } => 2,
        Request::Log { .. } => 3,
        Request::Show { .. } => 4,
        Request::Since { .. } => 5,
    }
}

/// Appends what follows the kind of a request.
fn write_fields(out: &mut Out, request: &Request) -> Result<(), OutOfMemory>
    requires { a_request.Form request.now }
    ensures { OnOk result (out.new ≡ out.old ++ (request_encoded request.now).text) }
{
    match request {
        Request::Set { key, value } => write_set(out, key, value),
        Request::Remove { key } => out.put_word(key.as_slice()),
        Request::Log { text } => write_text(out, text),
        Request::Show { service } => write_service(out, *service),
        Request::Since { service, version } => {
            write_service(out, *service)?;
            write_number(out, version.get())
        }
    }
}

pub(crate) fn write_request(out: &mut Out, request: &Request) -> Result<(), OutOfMemory>
    requires { a_request.Form request.now }
    ensures { OnOk result (out.new ≡ out.old ++ a_request.text request.now) }
{
    out.put_u8(request_byte(request))?;
    write_fields(out, request)
}

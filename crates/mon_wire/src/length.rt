//! How many bytes messages take, found without encoding them. Counts saturate at 2^64 - 1.

ghost use Rattle.std.specs.Prelude.{◌≡◌, ℕ, ◌+◌, ◌-◌, ◌^◌, ◌<◌, min, length};
ghost use Rattle.mon_bytes.specs.declared.command.Command.TheVariants as command;
ghost use Rattle.mon_wire.specs.Message.Whole.{text, IsMessage};
ghost use Rattle.mon_wire.specs.Message.Length.{body_length, message_length};
ghost use Rattle.mon_wire.specs.Message.PartLengths.{bytes_length, value_length, list_length, table_length, key_place_length, place_length, entry_length, told_length, command_length, request_length, map_text, reply_length};

use crate::body::Body;
use crate::message::Message;
use crate::parts::{Place, Told};
use crate::reply::{Reply, ShownMap};
use crate::request::Request;
use crate::score_table::ScoreTable;
use mon_bytes::{Bytes, Command, Entry, KeyPlace, Name, Text};
use mon_tx::Transaction;

fn value_len(value: &Transaction) -> usize
    ensures { result ≡ min (value_length value.now) (2 ^ 64 - 1) }
{
    (value.text_len() as usize).saturating_add(4)
}

fn values_len(values: &[Transaction]) -> usize
    ensures { result ≡ min (list_length value_length values.now) (2 ^ 64 - 1) }
{
    let mut len = 2usize;
    for value in values {
        len = len.saturating_add(value_len(value));
    }
    len
}

fn bytes_len(bytes: &[u8]) -> usize
    ensures { result ≡ bytes_length bytes.now }
{
    4 + bytes.len()
}

fn blobs_len(blobs: &[Bytes]) -> usize
    ensures { result ≡ min (list_length bytes_length blobs.now) (2 ^ 64 - 1) }
{
    let mut len = 2usize;
    for blob in blobs {
        len = len.saturating_add(bytes_len(blob.as_slice()));
    }
    len
}

/// How many bytes an entry takes in a message, at most 2^64 - 1.
pub fn entry_len(entry: &Entry) -> usize
    ensures { result ≡ min (entry_length entry.now) (2 ^ 64 - 1) }
{
    let words = 2 + entry.prefix.as_slice().len() + entry.key.as_slice().len();
    words.saturating_add(bytes_len(entry.value.as_slice()))
}

fn entries_len(entries: &[Entry]) -> usize
    ensures { result ≡ min (list_length entry_length entries.now) (2 ^ 64 - 1) }
{
    let mut len = 2usize;
    for entry in entries {
        len = len.saturating_add(entry_len(entry));
    }
    len
}

/// The length of a flag and, if there is one, of the table of scores among `n` monitors.
fn table_len(n: u8, table: &Option<ScoreTable>) -> usize
    ensures { result ≡ table_length n table.now }
{
    let n = usize::from(n);
    match table {
        None => 1,
        Some(_) => 1 + n * (16 + 4 * n),
    }
}

fn told_len(pending: &Option<Told>) -> usize
    ensures { result ≡ min (told_length pending.now) (2 ^ 64 - 1) }
{
    match pending {
        None => 1,
        Some(told) => value_len(&told.value).saturating_add(9),
    }
}

fn key_place_len(at: &KeyPlace) -> usize
    ensures value { result ≡ key_place_length at.now }
    ensures most { result < 2 ^ 10 }
{
    match at {
        KeyPlace::Start => 1,
        KeyPlace::After { prefix, key } => 3 + prefix.as_slice().len() + key.as_slice().len(),
        KeyPlace::Done => 1,
    }
}

/// How many bytes a place takes in a message.
pub fn place_len(at: &Place) -> usize
    ensures value { result ≡ place_length at.now }
    ensures most { result < 2 ^ 11 }
{
    8 + key_place_len(&at.key)
}

fn set_len(key: &Name, value: &Text) -> usize
    ensures { result ≡ command_length (command.Set key.now value.now) }
{
    2 + key.as_slice().len() + bytes_len(value.as_slice())
}

fn command_len(command: &Command) -> usize
    ensures { result ≡ min (command_length command.now) (2 ^ 64 - 1) }
{
    match command {
        Command::Set { key, value } => set_len(key, value),
        Command::Remove { key } => 2 + key.as_slice().len(),
        Command::Log { text } => 1 + bytes_len(text.as_slice()),
    }
}

fn request_len(request: &Request) -> usize
    ensures { result ≡ min (request_length request.now) (2 ^ 64 - 1) }
{
    match request {
        Request::Set { key, value } => set_len(key, value),
        Request::Remove { key } => 2 + key.as_slice().len(),
        Request::Log { text } => 1 + bytes_len(text.as_slice()),
        Request::Show { .. } => 2,
        Request::Since { .. } => 10,
    }
}

fn shown_len(map: &ShownMap) -> usize
    ensures value { result ≡ bytes_length (map_text map.now) }
    ensures most { result < 2 ^ 63 }
{
    match map {
        ShownMap::Kv(map) => 4 + map.size() as usize,
        ShownMap::Log(map) => 4 + map.size() as usize,
    }
}

fn reply_len(reply: &Reply) -> usize
    ensures { result ≡ min (reply_length reply.now) (2 ^ 64 - 1) }
{
    match reply {
        Reply::Done { .. } => 9,
        Reply::Shown { map, .. } => 18 + shown_len(map),
        Reply::Since { incrementals, .. } => {
            blobs_len(incrementals.as_slice()).saturating_add(11)
        }
        Reply::NoSuch => 1,
        Reply::TooLong { .. } => 17,
        Reply::MapFull { .. } => 9,
        Reply::Unavailable => 1,
        Reply::NotReadable { .. } => 10,
        Reply::Busy { .. } => 9,
    }
}

/// The length of a chunk's place, values and entries. It saturates at 2^64 - 1.
fn chunk_len(place: &Place, values: &[Transaction], entries: &[Entry]) -> usize
    ensures { result ≡ min (place_length place.now + list_length value_length values.now + list_length entry_length entries.now) (2 ^ 64 - 1) }
{
    place_len(place)
        .saturating_add(values_len(values))
        .saturating_add(entries_len(entries))
}

/// The length of what follows the header of a message among `n` monitors.
fn body_len(n: u8, body: &Body) -> usize
    ensures { result ≡ min (body_length n body.now) (2 ^ 64 - 1) }
{
    match body {
        Body::Probe => 0,
        Body::ProbeReply { .. } => 18,
        Body::Propose { table } => table_len(n, table),
        Body::Ack => 0,
        Body::Victory { .. } => 2,
        Body::Collect { .. } => 24,
        Body::Last {
            values,
            pending,
            ..
        } => values_len(values.as_slice())
            .saturating_add(told_len(pending))
            .saturating_add(33),
        Body::Begin { value, .. } => value_len(value).saturating_add(16),
        Body::Accept { .. } => 16,
        Body::Commit { values, .. } => values_len(values.as_slice()).saturating_add(8),
        Body::Lease { .. } => 8,
        Body::LeaseAck { .. } => 8,
        Body::Forward { command, .. } => command_len(command).saturating_add(8),
        Body::Route { reply, .. } => reply_len(reply).saturating_add(8),
        Body::GetCookieFull => 0,
        Body::GetCookieRecent { .. } => 8,
        Body::Cookie { .. } => 25,
        Body::GetChunk { place, .. } => 16 + place_len(place),
        Body::Chunk {
            place,
            values,
            entries,
            ..
        } => chunk_len(place, values.as_slice(), entries.as_slice()).saturating_add(17),
        Body::LastChunk {
            place,
            values,
            entries,
            ..
        } => chunk_len(place, values.as_slice(), entries.as_slice()).saturating_add(24),
        Body::NoCookie { .. } => 16,
        Body::Ping { table } => table_len(n, table),
        Body::PingReply { table } => table_len(n, table),
        Body::Request { request, .. } => request_len(request).saturating_add(8),
        Body::Reply { reply, .. } => reply_len(reply).saturating_add(8),
    }
}

impl Message {
    /// How many bytes the message takes, found from its parts, without its encoding. The count saturates at 2^64 - 1.
    /// No memory is taken.
    pub fn len(&self) -> usize
        // For a message of the form of messages: the length of its text, even if that is too long to be sent.
        ensures text { IsMessage self.now → result ≡ min (length (text self.now)) (2 ^ 64 - 1) }
        // For every message: the sum of the lengths of its parts.
        ensures parts { result ≡ min (message_length self.now.monitors self.now.body) (2 ^ 64 - 1) }
    {
        body_len(self.monitors, &self.body).saturating_add(12)
    }
}

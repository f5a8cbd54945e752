//! A shown map as compact JSON.

ghost use Rattle.std.specs.Prelude.{◌≡◌, ◌++◌, ◌∷◌, string_bytes, OnOk, Some, length};
ghost use Rattle.std.specs.FinMap.{entries, len};
ghost use Rattle.map_kv.specs.Kept.{pairs};
ghost use Rattle.serde.specs.Event.{map_begins, seq_begins};
ghost use Rattle.trace_text.specs.Shown.{AllLogged, member_events, members_events, item_events, items_events, shown_events, shown_text};

use map_kv::KvMap;
use map_log::{LogInc, LogMap};
use mon_bytes::Text;
use mon_wire::ShownMap;
use serde::{Described, Serialize, Serializer};
use std::alloc::{AllocError, Global};
use std::collections::btree_map::Iter;

/// A shown map as it is serialized: a map of the key-value service as an object, in ascending order of key, and one of
/// the cluster log as an array of pairs of a rank and a text.
#[derive(Clone, Copy)]
struct Shown<'a>(&'a ShownMap);

impl Described for Shown<'_> {
    ghost use Rattle.trace_text.specs.Shown.{AllLogged, shown_events};

    ghost writes = { λ shown old new. AllLogged old new (shown_events shown.0.now) };
}

impl Serialize for Shown<'_> {
    fn serialize<S: Serializer>(&self, out: &mut S) -> Result<(), S::Error> {
        match self.0 {
            ShownMap::Kv(map) => put_object(out, map),
            ShownMap::Log(map) => put_array(out, map),
        }
    }
}

fn put_member<S: Serializer>(out: &mut S, key: &str, value: &str) -> Result<(), S::Error>
    ensures { OnOk result (AllLogged (S.written out.old) (S.written out.new) (member_events (key.now, value.now))) }
{
    out.key(key)?;
    out.str(value)
}

/// Serializes the members of an object, and its end.
fn put_members<S: Serializer>(out: &mut S, entries: Iter<'_, String, Text>) -> Result<(), S::Error>
    ensures { OnOk result (AllLogged (S.written out.old) (S.written out.new) (members_events (pairs entries.entry))) }
{
    for (key, value) in entries {
        put_member(out, key.as_str(), value.as_str())?;
    }
    out.end_map()
}

fn put_object<S: Serializer>(out: &mut S, map: &KvMap) -> Result<(), S::Error>
    ensures { OnOk result (AllLogged (S.written out.old) (S.written out.new)
        (map_begins (Some (len map.now)) ∷ members_events (entries map.now))) }
{
    out.begin_map(Some(map.len()))?;
    put_members(out, map.iter())
}

fn put_item<S: Serializer>(out: &mut S, inc: &LogInc) -> Result<(), S::Error>
    ensures { OnOk result (AllLogged (S.written out.old) (S.written out.new) (item_events inc.now)) }
{
    out.begin_seq(Some(2))?;
    out.u64(u64::from(inc.rank.get()))?;
    out.str(inc.text.as_str())?;
    out.end_seq()
}

/// Serializes the items of an array, and its end.
fn put_items<S: Serializer>(out: &mut S, incs: &[LogInc]) -> Result<(), S::Error>
    ensures { OnOk result (AllLogged (S.written out.old) (S.written out.new) (items_events incs.now)) }
{
    for inc in incs {
        put_item(out, inc)?;
    }
    out.end_seq()
}

fn put_array<S: Serializer>(out: &mut S, map: &LogMap) -> Result<(), S::Error>
    ensures { OnOk result (AllLogged (S.written out.old) (S.written out.new)
        (seq_begins (Some (length map.now)) ∷ items_events map.now)) }
{
    let incs = map.entries();
    out.begin_seq(Some(incs.len()))?;
    put_items(out, incs)
}

/// Appends the map of a service to `out`, as compact JSON.
pub fn put_shown(alloc: Global, out: &mut String, shown: &ShownMap) -> Result<(), AllocError>
    ensures { OnOk result (string_bytes out.new ≡ string_bytes out.old ++ shown_text shown.now) }
{
    match serde_json::to_string(alloc, &Shown(shown)) {
        Ok(text) => out.push_str(text.as_str()),
        Err(_) => Err(AllocError),
    }
}

ghost use Rattle.std.specs.Prelude.{◌≡◌, ◌≤◌, ◌^◌, length, IfSome};
ghost use Rattle.mon_bounds.specs.Fitting.{IsValidInput};
ghost use Rattle.mon_msg.specs.Protocol.Readings.{readings_of};
ghost use Rattle.mon_tx.specs.Map.{apply};
ghost use Rattle.svc_core.specs.Cache.{Follows};

use election_rules::Rule;
use mon_bytes::{Name, Text};
use mon_core::{Core, Input, Reaction};
use mon_kv::Kv;
use mon_msg::{Request, Service, Session, ShownMap};
use mon_tx::Transaction;
use mon_types::{Member, Moment, Rank};
use std::alloc::Global;
use std::test::Fail;
use svc_core::Cache;

/// A monitor with its store.
#[derive(Drop)]
struct Running {
    core: Core,
    kv: Kv,
}

/// A monitor before it starts.
fn begun(alloc: Global, member: Member) -> Running
    ensures { Follows result.core.cache (readings_of result.kv) }
{
    Running {
        core: Core::boot(alloc, member, Rule::Classic),
        kv: Kv::empty(alloc),
    }
}

/// The input of a monitor: its start, a client's command that sets a key of one letter to a value of one letter, or a
/// client's request for the map.
#[derive(Clone, Copy)]
enum Act {
    Start,
    Set(u8, u8),
    Show,
}

fn name(alloc: Global, letter: u8) -> Option<Name> {
    let Ok(bytes) = vec![in alloc; letter] else {
        return None;
    };
    Name::new(bytes)
}

fn text(alloc: Global, letter: u8) -> Option<Text>
    ensures { IfSome result (λ text. length text ≤ 2 ^ 62) }
{
    let Ok(bytes) = vec![in alloc; letter] else {
        return None;
    };
    if bytes.len() > 65536 {
        return None;
    }
    Text::new(bytes)
}

fn set(alloc: Global, key: u8, value: u8) -> Option<Input>
    ensures { IfSome result IsValidInput }
{
    let Some(key) = name(alloc, key) else {
        return None;
    };
    match text(alloc, value) {
        Some(value) => {
            let _word = key.as_slice();
            let _utf8 = value.as_slice();
            let session = Session { client: 1, id: 1 };
            Some(Input::Client(session, Request::Set { key, value }))
        }
        None => {
            drop(key);
            None
        }
    }
}

fn show() -> Input
    ensures { IsValidInput result }
{
    let session = Session { client: 2, id: 1 };
    let service = Service::Kv;
    Input::Client(session, Request::Show { service })
}

fn input(alloc: Global, act: Act) -> Option<Input>
    ensures { IfSome result IsValidInput }
{
    match act {
        Act::Start => Some(Input::Start),
        Act::Set(key, value) => set(alloc, key, value),
        Act::Show => Some(show()),
    }
}

// Values that own much are dropped by a call: the prover goes through all parts of a value that is dropped in place.

/// How many incrementals of a transaction a cache applies that knows the key-value map of a store.
fn applied(alloc: Global, kv: &Kv, tx: &Transaction) -> Option<u32> {
    let mut cache = Cache::empty();
    let known = cache.get(alloc, kv, Service::Kv).is_ok();
    let applied = cache.follow(alloc, tx);
    drop(cache);
    if known { applied.ok() } else { None }
}

/// Makes the changes of a transaction, and returns how many incrementals of it are applied to the key-value map that
/// was known.
fn keep(alloc: Global, kv: &mut Kv, tx: Transaction) -> Option<u32>
    ensures { IfSome result (λ n. kv.new ≡ apply tx kv.old) }
{
    let applied = applied(alloc, kv, &tx);
    let kept = kv.apply(&tx);
    drop(tx);
    match kept {
        Ok(()) => applied,
        Err(_) => None,
    }
}

/// Gives a monitor an input, and keeps the transaction of its reaction.
fn react(alloc: Global, one: &mut Running, input: Input, now: Moment) -> Option<u32>
    requires comes { IsValidInput input }
    requires follows { Follows one.old.core.cache (readings_of one.old.kv) }
    ensures { IfSome result (λ n. Follows one.new.core.cache (readings_of one.new.kv)) }
{
    let reaction = one.core.react(alloc, &one.kv, &input, now);
    drop(input);
    match reaction {
        Ok(Reaction { tx, out }) => {
            drop(out);
            keep(alloc, &mut one.kv, tx)
        }
        Err(_) => None,
    }
}

fn take(alloc: Global, one: &mut Running, act: Act, now: Moment) -> Option<u32>
    requires { Follows one.old.core.cache (readings_of one.old.kv) }
    ensures { IfSome result (λ n. Follows one.new.core.cache (readings_of one.new.kv)) }
{
    match input(alloc, act) {
        Some(input) => react(alloc, one, input, now),
        None => None,
    }
}

/// Whether the cached map of the key-value service has these values under `a` and `b`, and no others.
fn holds(core: &Core, a: Option<&[u8]>, b: Option<&[u8]>) -> bool {
    let Some(ShownMap::Kv(map)) = core.cached(Service::Kv) else {
        return false;
    };
    let others = a.is_some() as usize + b.is_some() as usize;
    map.get(b"a") == a && map.get(b"b") == b && map.len() == others
}

/// What is seen of a monitor that starts, sets `a` to `x`, shows the map, and sets `b` to `y`.
#[derive(Clone, Copy)]
struct Seen {
    /// Whether a timer is due before its start and after it.
    due: (bool, bool),
    /// Whether the key-value map is cached before it is shown; and whether the cached map is right after it was shown,
    /// and after the last set.
    kept: (bool, bool, bool),
    log_kept: bool,
    /// How many incrementals of the last set are applied.
    applied: u32,
}

fn watched(alloc: Global, one: &mut Running) -> Option<Seen>
    requires { Follows one.old.core.cache (readings_of one.old.kv) }
{
    let idle = one.core.due().is_some();
    take(alloc, one, Act::Start, Moment::known(1000))?;
    let due = one.core.due().is_some();
    take(alloc, one, Act::Set(b'a', b'x'), Moment::known(1001))?;
    let early = one.core.cached(Service::Kv).is_some();
    take(alloc, one, Act::Show, Moment::known(1002))?;
    let shown = holds(&one.core, Some(b"x"), None);
    let applied = take(alloc, one, Act::Set(b'b', b'y'), Moment::known(1003))?;
    Some(Seen {
        due: (idle, due),
        kept: (early, shown, holds(&one.core, Some(b"x"), Some(b"y"))),
        log_kept: one.core.cached(Service::Log).is_some(),
        applied,
    })
}

#[test]
fn a_timer_is_due_once_it_started_and_a_map_is_kept_once_it_was_shown(
    rt: HostRuntime,
) -> Result<(), Fail> {
    let alloc = rt.alloc();
    let member = Member::new(Rank::known(0), 1).ok_or("a member")?;
    let mut one = begun(alloc, member);
    let seen = watched(alloc, &mut one);
    drop(one);
    let Seen {
        due,
        kept,
        log_kept,
        applied,
    } = seen.ok_or("memory")?;
    assert!(rt; due == (false, true));
    assert!(rt; kept == (false, true, true));
    assert!(rt; !log_kept);
    assert!(rt; applied == 1);
    Ok(())
}

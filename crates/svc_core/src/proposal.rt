//! The value of a command: the changes that it makes in every monitor's store.

ghost use Rattle.std.specs.Prelude.{◌≡◌, ◌+◌, ◌<◌, ◌≤◌, ◌^◌, suc, [], length, IfOk, OnOk};
ghost use Rattle.mon_bytes.specs.Makes.{Makes};
ghost use Rattle.mon_msg.specs.Protocol.Services.{service_first, service_last};
ghost use Rattle.mon_msg.specs.Protocol.Rules.{value_ops};
ghost use Rattle.mon_msg.specs.Protocol.Value.{service_of, value};
ghost use Rattle.mon_msg.specs.Protocol.Readings.{readings_of};
ghost use Rattle.mon_msg.specs.Puts.{area_of};
ghost use Rattle.svc_core.specs.Drafts.{IsShortValue};

use crate::made::{Draft, made};
use crate::mon_trim::push_trim;
use crate::row::{area_of, first_version, last_version};
use crate::rules::{
    has_full, push_full_version, push_new_version, push_paxos_begins, push_service_trim,
};
use mon_bytes::{Command, CommandRefused, OutOfMemory};
use mon_kv::Kv;
use mon_msg::Service;
use mon_tx::Transaction;
use mon_types::Rank;
use std::alloc::Global;

/// The service that a command changes.
pub fn service_of(command: &Command) -> Service
    ensures { result ≡ service_of command.now }
{
    match command {
        Command::Set { .. } | Command::Remove { .. } => Service::Kv,
        Command::Log { .. } => Service::Log,
    }
}

/// Appends the changes of the value that makes version `n` of a service.
#[tactic(auto, unfolding(mon_msg::specs::Protocol::Rules::value_ops, mon_msg::specs::Protocol::Readings::readings_of))]
fn push_value(
    tx: &mut Transaction,
    kv: &Kv,
    service: Service,
    n: u64,
    made: Draft,
) -> Result<(), OutOfMemory>
    requires version { n ≤ 2 ^ 62 }
    requires empty { tx.old ≡ [] }
    ensures { OnOk result (tx.new ≡ value_ops (readings_of kv.now).first (readings_of kv.now).last (area_of service) n
        (service_first (readings_of kv.now) service) made.incremental made.text) }
{
    let area = area_of(service);
    let last = kv.last_committed();
    let Draft { incremental, text } = made;
    push_paxos_begins(tx, last)?;
    push_new_version(tx, area, n, incremental)?;
    push_full_version(tx, area, n, text)?;
    push_service_trim(tx, area, n, first_version(kv, service))?;
    push_trim(tx, kv.first_committed(), last)
}

/// The changes of the value that makes version `n` of a service.
fn value_tx(
    alloc: Global,
    kv: &Kv,
    service: Service,
    n: u64,
    made: Draft,
) -> Result<Transaction, OutOfMemory>
    requires { n ≤ 2 ^ 62 }
    ensures { IfOk result (λ tx. tx ≡ value_ops (readings_of kv.now).first (readings_of kv.now).last
        (area_of service) n
        (service_first (readings_of kv.now) service) made.incremental made.text) }
{
    let mut tx = Transaction::new(alloc);
    push_value(&mut tx, kv, service, n, made)?;
    Ok(tx)
}

/// The value of a command over a store. `asked` is the monitor that a client sent the command to. The service's last
/// version must be below 2^62. A command that makes no version is refused. `NoSuch` is returned if and only if a key
/// that isn't there is to be removed. `TooLong` is returned if and only if a value has more than 65,536 bytes or a
/// logged text more than 1,024. `MapFull` is returned if and only if the value isn't too long and the map with it would
/// have more than 393,216 bytes.
#[tactic(auto, unfolding(mon_msg::specs::Protocol::Value::value))]
pub fn value(
    alloc: Global,
    kv: &Kv,
    command: &Command,
    asked: Rank,
) -> Result<Transaction, CommandRefused>
    requires { service_last (readings_of kv.now) (service_of command.now) < 2 ^ 62 }
    ensures made { Makes result (value (readings_of kv.now) command.now asked) }
    ensures short { IfOk result (IsShortValue (readings_of kv.now) (service_of command.now)) }
{
    let service = service_of(command);
    let n = last_version(kv, service) + 1;
    let made = made(alloc, kv, command, asked, has_full(n))?;
    Ok(value_tx(alloc, kv, service, n, made)?)
}

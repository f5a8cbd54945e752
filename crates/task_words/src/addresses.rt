//! Addresses of monitors, as text.

ghost use Rattle.std.specs.Prelude.{◌≡◌, ◌≤◌, ◌+◌, false, None, Ok, Err, IfOk, IfSome, is_ok};
ghost use Rattle.std.specs.Option.{option_copied};
ghost use Rattle.schedule_text.specs.Fields.{Is, Steps, number_of};
ghost use Rattle.task_words.specs.Parts.{part_of};
ghost use Rattle.task_words.specs.Addresses.{host_of, port_of, address_of, addresses_of, commas};

use crate::parts::Parts;
use crate::task::WordsStop;
use mon_bytes::Items;
use mon_link::Address;
use schedule_text::{ScheduleKind, cut, number_of};
use std::alloc::Global;

/// The next number of an address.
#[tactic(auto, unfolding(crate::specs::Parts::part_of))]
fn host_number(parts: &mut Parts<'_>) -> Result<u8, ScheduleKind>
    ensures value { Steps (λ n. n) result parts.new (part_of 46 (number_of 0 255) parts.old) }
{
    let part = parts.next(b'.')?;
    let number = number_of(part, 0, 255)?;
    Ok(number as u8)
}

/// Four numbers with dots between them.
#[tactic(auto, unfolding(crate::specs::Addresses::host_of, crate::specs::Parts::parts_of))]
fn host_of(text: &[u8]) -> Result<[u8; 4], ScheduleKind>
    ensures { Is (λ host. host) result (host_of text.now) }
{
    let mut parts = Parts::new(text);
    let a = host_number(&mut parts)?;
    let b = host_number(&mut parts)?;
    let c = host_number(&mut parts)?;
    let d = host_number(&mut parts)?;
    if parts.is_done() {
        Ok([a, b, c, d])
    } else {
        Err(ScheduleKind::Word)
    }
}

/// A port.
#[tactic(auto, unfolding(crate::specs::Addresses::port_of))]
fn port_of(text: Option<&[u8]>) -> Result<u16, ScheduleKind>
    ensures { Is (λ port. port) result (port_of (option_copied text.entry)) }
{
    match text {
        None => Err(ScheduleKind::Word),
        Some(text) => {
            let port = number_of(text, 1, 65_535)?;
            Ok(port as u16)
        }
    }
}

/// Parses `a.b.c.d:port`. Any error means that the text is no address.
#[tactic(auto, unfolding(crate::specs::Addresses::address_of))]
fn address_of(text: &[u8]) -> Result<Address, ScheduleKind>
    ensures { Is (λ a. a) result (address_of text.now) }
{
    let (host, port) = cut(b':', text);
    let host = host_of(host)?;
    let port = port_of(port)?;
    Ok(Address { host, port })
}

/// The next address of several.
#[tactic(auto, unfolding(crate::specs::Parts::part_of))]
fn next_address(parts: &mut Parts<'_>) -> Result<Address, ScheduleKind>
    ensures { Steps (λ a. a) result parts.new (part_of 44 address_of parts.old) }
{
    let part = parts.next(b',')?;
    address_of(part)
}

/// How many addresses the commas of a text separate, or nothing if there are more than 15.
pub(crate) fn count_of(text: &[u8]) -> Option<u8>
    ensures some { IfSome result (λ n. (n ≤ 15) × (n ≡ commas text.now + 1)) }
    ensures none { result ≡ None → 15 ≤ commas text.now }
{
    let commas = text.iter().filter(|byte| **byte == b',').count();
    if commas < 15 {
        Some(commas as u8 + 1)
    } else {
        None
    }
}

/// Whether a text is this number of addresses with commas between them. Takes no memory, unlike `addresses_of`.
pub(crate) fn are_addresses(monitors: u8, text: &[u8]) -> bool
    ensures { result ≡ is_ok (addresses_of monitors text.now) }
{
    let mut parts = Parts::new(text);
    for _rank in 0..monitors {
        let Ok(_address) = next_address(&mut parts) else {
            return false;
        };
    }
    parts.is_done()
}

/// This many addresses, from a text with commas between them.
pub(crate) fn addresses_of(
    alloc: Global,
    monitors: u8,
    text: &[u8],
) -> Result<Items<Address>, WordsStop>
    ensures read { IfOk result (λ addresses. addresses_of monitors text.now ≡ Ok addresses) }
    ensures refused { result ≡ Err WordsStop.Refused → is_ok (addresses_of monitors text.now) ≡ false }
{
    let mut parts = Parts::new(text);
    let mut addresses = Items::new(alloc);
    for _rank in 0..monitors {
        let Ok(address) = next_address(&mut parts) else {
            return Err(WordsStop::Refused);
        };
        addresses.push(address)?;
    }
    if parts.is_done() {
        Ok(addresses)
    } else {
        Err(WordsStop::Refused)
    }
}

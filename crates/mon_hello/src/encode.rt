//! Writing what names a quorum, and hellos.

ghost use Rattle.std.specs.Prelude.{◌≡◌, ◌++◌, ◌∷◌, length, OnOk};
ghost use Rattle.mon_hello.specs.Formats.{a_hello, a_rule, address_text, all_addresses, an_identity, mark_of, set_bytes};

use crate::hello::{ANSWER_MARK, Hello, MARK};
use crate::identity::Identity;
use election_rules::Rule;
use mon_bytes::{Items, Out, OutOfMemory};
use mon_link::Address;
use mon_types::RankSet;

#[tactic(auto, unfolding(crate::specs::Formats::set_bytes, mon_bytes::specs::Format::u16_bytes))]
fn put_set(out: &mut Out, set: RankSet) -> Result<(), OutOfMemory>
    ensures { OnOk result (out.new ≡ out.old ++ set_bytes set) }
{
    out.put_u16(set.to_bits())
}

fn put_rule(out: &mut Out, rule: &Rule) -> Result<(), OutOfMemory>
    ensures { OnOk result (out.new ≡ out.old ++ a_rule.text rule.now) }
{
    match rule {
        Rule::Classic => out.put_u8(0),
        Rule::Disallow(ranks) => {
            out.put_u8(1)?;
            put_set(out, *ranks)
        }
        Rule::Connectivity(ranks) => {
            out.put_u8(2)?;
            put_set(out, *ranks)
        }
    }
}

/// Appends what names a quorum.
pub(crate) fn put_identity(out: &mut Out, identity: &Identity) -> Result<(), OutOfMemory>
    ensures { OnOk result (out.new ≡ out.old ++ an_identity.text identity.now) }
{
    out.put_word(identity.name.as_slice())?;
    out.put_u8(identity.monitors)?;
    put_rule(out, &identity.rule)
}

#[tactic(auto, unfolding(mon_bytes::specs::Format::u16_bytes))]
fn put_address(out: &mut Out, address: &Address) -> Result<(), OutOfMemory>
    ensures { OnOk result (out.new ≡ out.old ++ address_text address.now) }
{
    out.put_bytes(&address.host)?;
    out.put_u16(address.port)
}

fn put_addresses(out: &mut Out, addresses: &Items<Address>) -> Result<(), OutOfMemory>
    ensures { OnOk result (out.new ≡ out.old ++ (all_addresses 0).text addresses.now) }
{
    for address in addresses.as_slice() {
        put_address(out, address)?;
    }
    Ok(())
}

/// The byte with which a hello begins.
fn mark_of(answers: bool) -> u8
    ensures { result ≡ mark_of answers }
{
    if answers { ANSWER_MARK } else { MARK }
}

/// Appends a hello.
pub(crate) fn put_hello(out: &mut Out, hello: &Hello) -> Result<(), OutOfMemory>
    ensures { OnOk result (out.new ≡ out.old ++ a_hello.text hello.now) }
{
    out.put_u8(mark_of(hello.answers))?;
    out.put_word(hello.version.as_slice())?;
    put_identity(out, &hello.identity)?;
    out.put_u8(hello.rank.get())?;
    put_addresses(out, &hello.addresses)
}

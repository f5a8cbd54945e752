//! Reading hellos.

ghost use Rattle.std.specs.Prelude.{◌≡◌, ℕ, IfOk, ◌≤◌, nat_lt, ◌==◌};
ghost use Rattle.mon_bytes.specs.Forms.{Reads};
ghost use Rattle.mon_bytes.specs.Format.{items};
ghost use Rattle.mon_bytes.specs.Texts.{is_word};
ghost use Rattle.mon_hello.specs.Names.{is_quorum_name};
ghost use Rattle.mon_hello.specs.Formats.{address_at, byte_at, counted_at, an_identity, is_count, mark, members, rule_at, set_at};

use crate::hello::{ANSWER_MARK, Hello, MOST_VERSION, is_mark};
use crate::identity::Identity;
use crate::name::QuorumName;
use election_rules::Rule;
use mon_bytes::{Cursor, Decode, Items, MapRefused, OutOfMemory, Word};
use mon_link::Address;
use mon_types::{Rank, RankSet};
use std::alloc::Global;

/// The byte with which a hello begins: whether it answers another one.
#[tactic(auto, unfolding(crate::specs::Formats::byte_at))]
fn read_mark(cursor: &mut Cursor<'_>) -> Result<bool, MapRefused>
    ensures { Reads (λ x. x) result cursor.new (mark.read cursor.old) }
{
    let at = cursor.at();
    let byte = cursor.take_u8()?;
    if !is_mark(byte) {
        return Err(MapRefused::Form { at });
    }
    Ok(byte == ANSWER_MARK)
}

#[tactic(auto, unfolding(crate::specs::Formats::counted_at))]
fn read_version(alloc: Global, cursor: &mut Cursor<'_>) -> Result<Word<MOST_VERSION>, MapRefused>
    ensures { Reads (λ x. x) result cursor.new (counted_at (is_word MOST_VERSION) cursor.old) }
{
    let length = cursor.take_u8()?;
    let at = cursor.at();
    let bytes = cursor.take_bytes(usize::from(length))?;
    if !Word::<MOST_VERSION>::is_form(bytes) {
        return Err(MapRefused::Form { at });
    }
    Ok(Word::from_slice(alloc, bytes)?)
}

#[tactic(auto, unfolding(crate::specs::Formats::counted_at))]
fn read_name(alloc: Global, cursor: &mut Cursor<'_>) -> Result<QuorumName, MapRefused>
    ensures { Reads (λ x. x) result cursor.new (counted_at is_quorum_name cursor.old) }
{
    let length = cursor.take_u8()?;
    let at = cursor.at();
    let bytes = cursor.take_bytes(usize::from(length))?;
    let bytes = Vec::from_slice(alloc, bytes).map_err(OutOfMemory::from)?;
    match QuorumName::new(bytes) {
        Some(name) => Ok(name),
        None => Err(MapRefused::Form { at }),
    }
}

/// The number of monitors, 1 to 15.
#[tactic(auto, unfolding(crate::specs::Formats::byte_at))]
fn read_count(cursor: &mut Cursor<'_>) -> Result<u8, MapRefused>
    ensures count { Reads (λ x. x) result cursor.new (byte_at is_count cursor.old) }
    ensures most { IfOk result (λ n. n ≤ 15) }
{
    let at = cursor.at();
    let count = cursor.take_u8()?;
    if count < 1 || count > 15 {
        return Err(MapRefused::Form { at });
    }
    Ok(count)
}

#[tactic(auto, unfolding(crate::specs::Formats::set_at))]
fn read_set(cursor: &mut Cursor<'_>) -> Result<RankSet, MapRefused>
    ensures { Reads (λ x. x) result cursor.new (set_at cursor.old) }
{
    let at = cursor.at();
    let bits = cursor.take_u16()?;
    if bits >= 32_768 {
        return Err(MapRefused::Form { at });
    }
    Ok(RankSet::from_bits(bits))
}

#[tactic(auto, unfolding(crate::specs::Formats::rule_at))]
fn read_rule(cursor: &mut Cursor<'_>) -> Result<Rule, MapRefused>
    ensures { Reads (λ x. x) result cursor.new (rule_at cursor.old) }
{
    let at = cursor.at();
    match cursor.take_u8()? {
        0 => Ok(Rule::Classic),
        1 => Ok(Rule::Disallow(read_set(cursor)?)),
        2 => Ok(Rule::Connectivity(read_set(cursor)?)),
        _ => Err(MapRefused::Form { at }),
    }
}

fn read_identity(alloc: Global, cursor: &mut Cursor<'_>) -> Result<Identity, MapRefused>
    ensures identity { Reads (λ x. x) result cursor.new (an_identity.read cursor.old) }
    ensures most { IfOk result (λ i. i.monitors ≤ 15) }
{
    let name = read_name(alloc, cursor)?;
    let monitors = read_count(cursor)?;
    let rule = read_rule(cursor)?;
    Ok(Identity {
        name,
        monitors,
        rule,
    })
}

#[tactic(auto, unfolding(crate::specs::Formats::byte_at))]
fn read_rank(monitors: u8, cursor: &mut Cursor<'_>) -> Result<Rank, MapRefused>
    requires { monitors ≤ 15 }
    ensures { Reads (λ x. x) result cursor.new (byte_at (λ rank. nat_lt rank monitors) cursor.old) }
{
    let at = cursor.at();
    let rank = cursor.take_u8()?;
    if rank >= monitors {
        return Err(MapRefused::Form { at });
    }
    Ok(Rank::known(rank))
}

#[tactic(auto, unfolding(crate::specs::Formats::address_at))]
fn read_address(cursor: &mut Cursor<'_>) -> Result<Address, MapRefused>
    ensures { Reads (λ x. x) result cursor.new (address_at cursor.old) }
{
    let mut host = [0; 4];
    let bytes = cursor.take_bytes(4)?;
    host.copy_from_slice(bytes);
    let port = cursor.take_u16()?;
    Ok(Address { host, port })
}

fn read_addresses(
    alloc: Global,
    count: u8,
    cursor: &mut Cursor<'_>,
) -> Result<Items<Address>, MapRefused>
    ensures { Reads (λ x. x) result cursor.new (items address_at count cursor.old) }
{
    let mut read = Items::new(alloc);
    for _ in 0..count {
        let address = read_address(cursor)?;
        read.push(address)?;
    }
    Ok(read)
}

impl Decode for Hello {
    ghost use Rattle.mon_hello.specs.Formats.{a_hello, hello_of};

    ghost format = { a_hello };

    ghost decoded = { hello_of };

    #[tactic(auto, using(crate::proofs::Whole::hello_is_lawful, crate::proofs::Whole::hello_is_whole))]
    fn read(alloc: Global, cursor: &mut Cursor<'_>) -> Result<Hello, MapRefused> {
        let answers = read_mark(cursor)?;
        let version = read_version(alloc, cursor)?;
        let identity = read_identity(alloc, cursor)?;
        let rank = read_rank(identity.monitors, cursor)?;
        let addresses = read_addresses(alloc, identity.monitors, cursor)?;
        Ok(Hello {
            answers,
            version,
            identity,
            rank,
            addresses,
        })
    }
}

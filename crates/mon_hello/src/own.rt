ghost use Rattle.std.specs.Prelude.{◌≡◌, IfOk};
ghost use Rattle.mon_hello.specs.Formats.{a_hello, answering, tag_of};

use crate::hello::{Hello, VERSION};
use crate::identity::Identity;
use crate::name::QuorumName;
use election_rules::Rule;
use mon_bytes::{Bytes, Items, OutOfMemory, Word};
use mon_link::Address;
use mon_types::Member;
use std::alloc::Global;

/// What a monitor says of itself: its hello, the datagrams of it and of the answer to others, and the tag of its quorum.
#[derive(Drop)]
pub struct Own {
    pub member: Member,
    pub hello: Hello,
    pub datagram: Bytes,
    pub answer: Bytes,
    pub tag: u64,
}

impl Own {
    /// What a monitor of this program says, given the addresses of all monitors in order of rank.
    pub fn new(
        alloc: Global,
        member: Member,
        name: QuorumName,
        rule: Rule,
        addresses: Items<Address>,
    ) -> Result<Own, OutOfMemory>
        ensures member { IfOk result (λ own. own.member ≡ member) }
        ensures rank { IfOk result (λ own. own.hello.rank ≡ member.rank) }
        ensures name { IfOk result (λ own. own.hello.identity.name ≡ name) }
        ensures monitors { IfOk result (λ own. own.hello.identity.monitors ≡ member.monitors) }
        ensures rule { IfOk result (λ own. own.hello.identity.rule ≡ rule) }
        ensures addresses { IfOk result (λ own. own.hello.addresses ≡ addresses) }
        ensures datagram { IfOk result (λ own. own.datagram ≡ a_hello.text own.hello) }
        ensures answer { IfOk result (λ own. own.answer ≡ a_hello.text (answering own.hello)) }
        ensures tag { IfOk result (λ own. own.tag ≡ tag_of own.hello.identity) }
    {
        let version = Word::from_slice(alloc, VERSION.as_bytes())?;
        let identity = Identity {
            name,
            monitors: member.monitors,
            rule,
        };
        let mut hello = Hello {
            answers: true,
            version,
            identity,
            rank: member.rank,
            addresses,
        };
        let tag = hello.identity.tag(alloc)?;
        let answer = hello.encode(alloc)?;
        hello.answers = false;
        let datagram = hello.encode(alloc)?;
        Ok(Own {
            member,
            hello,
            datagram,
            answer,
            tag,
        })
    }
}

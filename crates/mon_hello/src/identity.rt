ghost use Rattle.std.specs.Prelude.{◌≡◌, IfOk};
ghost use Rattle.mon_hello.specs.Formats.{tag_of};

use crate::encode::put_identity;
use crate::name::QuorumName;
use byteorder::{ByteOrder, LittleEndian};
use election_rules::Rule;
use mon_bytes::{Out, OutOfMemory};
use sha2::{Digest, Sha256};
use std::alloc::Global;

/// What names a quorum. Monitors of different identities don't hear each other.
#[derive(Drop)]
pub struct Identity {
    pub name: QuorumName,
    /// How many monitors it has, 1 to 15.
    pub monitors: u8,
    pub rule: Rule,
}

impl Identity {
    /// The tag of the quorum: the first eight bytes of the SHA-256 of the identity's encoding, the lowest first.
    pub fn tag(&self, alloc: Global) -> Result<u64, OutOfMemory>
        ensures { IfOk result (λ tag. tag ≡ tag_of self.now) }
    {
        let mut out = Out::new(alloc);
        put_identity(&mut out, self)?;
        let bytes = out.into_bytes();
        let digest = Sha256::digest(bytes.as_slice());
        Ok(LittleEndian::read_u64(&digest[..8]))
    }
}

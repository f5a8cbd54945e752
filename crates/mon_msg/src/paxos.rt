ghost use Rattle.std.specs.Prelude.{◌≡◌, IfOk};

use crate::plan::Origin;
use mon_bytes::OutOfMemory;
use mon_lease::Lease;
use mon_tx::Transaction;
use mon_types::{Pn, Rank, RankSet, Version};

/// What a peon remembers.
#[derive(Clone, Copy, PartialEq, Eq)]
pub struct Peon {
    pub leader: Rank,
    pub quorum: RankSet,
    pub lease: Lease,
}

/// What a leader is doing.
#[derive(Clone, Copy, PartialEq, Eq)]
pub enum LeaderStage {
    /// It gathers what its quorum accepted.
    Collecting,
    /// It commits a value which an earlier leader left.
    Previous,
    /// It waits for commands.
    Active,
    /// It waits until its quorum accepts its own value.
    Updating,
}

/// A pending value that a leader found while it collected: of the greatest version, and then of the greatest number.
#[derive(Drop)]
pub struct Found {
    pub version: Version,
    pub pn: Pn,
    pub value: Transaction,
}

impl Found {
    /// An equal value.
    pub fn copy(&self) -> Result<Found, OutOfMemory>
        ensures { IfOk result (λ found. found ≡ self.now) }
    {
        Ok(Found {
            version: self.version,
            pn: self.pn,
            value: self.value.copy()?,
        })
    }
}

/// What a leader remembers.
#[derive(Drop)]
pub struct Leader {
    /// The monitors that elected it, itself among them.
    pub quorum: RankSet,
    /// The proposal number that it leads with.
    pub pn: Pn,
    pub stage: LeaderStage,
    /// Who answered its collect with all that it has, itself among them.
    pub answered: RankSet,
    /// The last version that each of them reported, or 0.
    pub lasts: [Version; 15],
    pub found: Option<Found>,
    /// Who accepted its value, itself among them.
    pub accepted: RankSet,
    /// The value that the quorum is asked to accept.
    pub value: Option<Transaction>,
    /// Who gets an answer once that value is committed.
    pub origin: Option<Origin>,
    pub lease: Lease,
    /// Who took the lease, itself among them.
    pub acks: RankSet,
}

fn copied_found(found: &Option<Found>) -> Result<Option<Found>, OutOfMemory>
    ensures { IfOk result (λ copied. copied ≡ found.now) }
{
    match found {
        None => Ok(None),
        Some(found) => Ok(Some(found.copy()?)),
    }
}

fn copied_value(value: &Option<Transaction>) -> Result<Option<Transaction>, OutOfMemory>
    ensures { IfOk result (λ copied. copied ≡ value.now) }
{
    match value {
        None => Ok(None),
        Some(value) => Ok(Some(value.copy()?)),
    }
}

impl Leader {
    /// An equal state.
    pub fn copy(&self) -> Result<Leader, OutOfMemory>
        ensures { IfOk result (λ leader. leader ≡ self.now) }
    {
        Ok(Leader {
            quorum: self.quorum,
            pn: self.pn,
            stage: self.stage,
            answered: self.answered,
            lasts: self.lasts,
            found: copied_found(&self.found)?,
            accepted: self.accepted,
            value: copied_value(&self.value)?,
            origin: self.origin,
            lease: self.lease,
            acks: self.acks,
        })
    }
}

ghost use Rattle.std.specs.Prelude.{◌≡◌, ℕ, ◌≤◌, ◌^◌, ◌<◌, slice_set};
ghost use Rattle.election_rules.specs.Table.{start_row, share, raised, lowered, is_older, counted};

use mon_types::GREATEST;

/// The score of a connection that never failed, in parts per million. No score is above it.
pub const FULL: u32 = 1_000_000;

/// The seconds of unbroken connection that halve what a score lacks.
pub const HALF_LIFE: u64 = 43_200;

/// One monitor's scores of its connections to the others. Of two copies of a monitor's row, the newer one has the
/// greater boot count, or the same one and the greater count of updates.
#[derive(Clone, Copy, PartialEq, Eq)]
pub struct Row {
    /// How many times the monitor had started when it made this row.
    pub boot: u64,
    /// How many times it updated the row since then. This stops growing at 2^62.
    pub count: u64,
    /// Its score for each rank, in parts per million.
    pub scores: [u32; 15],
}

impl Row {
    /// The row of a monitor in its start with this boot count: every score is full, and nothing is updated.
    #[tactic(auto, unfolding(crate::specs::Table::start_row))]
    pub fn start(boot: u64) -> Row
        ensures { result ≡ start_row boot }
    {
        Row {
            boot,
            count: 0,
            scores: [FULL; 15],
        }
    }

    /// Whether the other copy of the row is newer.
    pub(crate) fn is_older(&self, other: &Row) -> bool
        ensures { result ≡ is_older self.now other.now }
    {
        let boot = self.boot.cmp(&other.boot);
        boot.then(self.count.cmp(&other.count)).is_lt()
    }

    /// Counts one update.
    pub(crate) fn count_one(&mut self)
        ensures { self.new ≡ counted self.old }
    {
        if self.count < GREATEST {
            self.count += 1;
        }
    }
}

/// The score after this many seconds of connection.
pub(crate) fn raised_score(score: u32, seconds: u64) -> u32
    ensures { result ≡ raised seconds score }
{
    let lacking = u64::from(FULL.saturating_sub(score));
    score + share_of(lacking, seconds) as u32
}

/// The score after this many seconds without connection.
pub(crate) fn lowered_score(score: u32, seconds: u64) -> u32
    ensures { result ≡ lowered seconds score }
{
    let lost = share_of(u64::from(score) + u64::from(FULL), seconds);
    u64::from(score).saturating_sub(lost) as u32
}

/// The part of an amount by which this many seconds change it.
fn share_of(amount: u64, seconds: u64) -> u64
    requires { amount < 2 ^ 33 }
    ensures value { result ≡ share amount seconds }
    ensures most { result ≤ amount }
{
    amount * seconds.min(2 * HALF_LIFE) / (2 * HALF_LIFE)
}

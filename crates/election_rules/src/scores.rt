ghost use Rattle.std.specs.Prelude.{◌≡◌, ℕ};
ghost use Rattle.election_rules.specs.Table.{start_scores, scored, raised, lowered, merged, total};

use crate::row::{Row, lowered_score, raised_score};
use mon_types::Rank;

/// What a monitor knows of the connections among all monitors: its own row, and of each other monitor the newest row
/// that it received.
#[derive(Clone, Copy, PartialEq, Eq)]
pub struct Scores {
    /// The monitor's own rank.
    pub own: Rank,
    /// A row for each rank.
    pub rows: [Row; 15],
}

impl Scores {
    /// What the monitor of rank `own` knows in its start with this boot count: every score is full.
    pub fn start(own: Rank, boot: u64) -> Scores
        ensures { result ≡ start_scores own boot }
    {
        let mut rows = [Row::start(0); 15];
        rows[usize::from(own.get())] = Row::start(boot);
        Scores { own, rows }
    }

    /// The sum of the scores that the other monitors of `n` give to `x`.
    pub fn total(&self, n: u8, x: Rank) -> u64
        ensures { result ≡ total self.now n x }
    {
        let x = usize::from(x.get());
        let rows = &self.rows[..usize::from(n).min(self.rows.len())];
        let mut sum = 0;
        for (y, row) in rows.iter().enumerate() {
            if y != x {
                sum += u64::from(row.scores[x]);
            }
        }
        sum
    }

    /// The monitor was connected to `x` for this many more seconds: half of what its score for `x` lacks is made up
    /// in [`HALF_LIFE`](crate::HALF_LIFE), and all of it in twice that time.
    pub fn alive(&mut self, x: Rank, seconds: u64)
        ensures { self.new ≡ scored (raised seconds) x self.old }
    {
        let x = usize::from(x.get());
        let row = &mut self.rows[usize::from(self.own.get())];
        row.scores[x] = raised_score(row.scores[x], seconds);
        row.count_one();
    }

    /// The monitor was not connected to `x` for this many more seconds: its score for `x` falls, a full one to
    /// nothing in [`HALF_LIFE`](crate::HALF_LIFE).
    pub fn dead(&mut self, x: Rank, seconds: u64)
        ensures { self.new ≡ scored (lowered seconds) x self.old }
    {
        let x = usize::from(x.get());
        let row = &mut self.rows[usize::from(self.own.get())];
        row.scores[x] = lowered_score(row.scores[x], seconds);
        row.count_one();
    }

    /// Takes over each row of which the other table has a newer copy, but for the own row. If two copies are equally
    /// new, the one here stays.
    pub fn merge(&mut self, other: &Scores)
        ensures { self.new ≡ merged self.old other.now }
    {
        let own = usize::from(self.own.get());
        for y in 0..15 {
            if y != own && self.rows[y].is_older(&other.rows[y]) {
                self.rows[y] = other.rows[y];
            }
        }
    }
}

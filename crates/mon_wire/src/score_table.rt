ghost use Rattle.std.specs.Prelude.{◌≡◌, IfOk};

use election_rules::Scores;
use mon_bytes::OutOfMemory;
use std::alloc::Global;
use std::marker::Model;

/// A table of scores in a message. Few messages have one, and it is far larger than all else in a body. So it is on
/// the heap, and a body takes little room. Contracts see the scores.
#[derive(Drop)]
pub struct ScoreTable {
    scores: Box<Scores>,
}

impl Model for ScoreTable {
    ghost use Rattle.election_rules.specs.declared.scores.Scores.{Scores};

    ghost Value = { Scores };

    ghost view = { λ t. t.scores.value };
}

impl ScoreTable {
    /// The table of these scores.
    pub fn of(alloc: Global, scores: &Scores) -> Result<ScoreTable, OutOfMemory>
        ensures { IfOk result (λ table. table ≡ scores.now) }
    {
        Ok(ScoreTable {
            scores: Box::new(alloc, *scores)?,
        })
    }

    /// The scores of the table.
    pub fn scores(&self) -> &Scores
        ensures { result.now ≡ self.now }
    {
        &self.scores
    }

    /// An equal table.
    pub fn copy(&self, alloc: Global) -> Result<ScoreTable, OutOfMemory>
        ensures { IfOk result (λ table. table ≡ self.now) }
    {
        ScoreTable::of(alloc, self.scores())
    }
}

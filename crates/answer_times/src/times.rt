ghost use Rattle.std.specs.Prelude.{◌≡◌, IfOk};
ghost use Rattle.answer_times.specs.Times.{after_asking, is_answered, no_answers};

use mon_bytes::OutOfMemory;
use mon_types::Moment;
use std::alloc::Global;
use std::marker::Model;

/// How many clients have a time of their own: as many as a link numbers at a time.
const PLACES: usize = 1024;

/// How long a client that was answered waits for the next answer, in milliseconds.
const PAUSE: u64 = 1_000;

/// Until when each client waits for its next answer. Clients whose numbers differ by 1,024 share a time.
#[derive(Drop)]
pub struct AnswerTimes {
    untils: Vec<u64>,
}

impl Model for AnswerTimes {
    ghost use Rattle.std.specs.Prelude.{◌≡◌, ℕ, List, length};
    ghost use Rattle.answer_times.specs.declared.times.TheConstants.{PLACES};

    ghost Value = { List ℕ };

    ghost view = { λ t. t.untils.items };

    ghost invariant = { λ t. length t.untils.items ≡ PLACES };
}

impl AnswerTimes {
    /// No client waits.
    pub fn new(alloc: Global) -> Result<AnswerTimes, OutOfMemory>
        ensures { IfOk result (λ times. times ≡ no_answers) }
    {
        Ok(AnswerTimes {
            untils: vec![in alloc; 0u64; PLACES]?,
        })
    }

    /// Whether a client that asks now is answered: not if it was answered less than a second ago. One that is answered
    /// waits for a second.
    pub fn admit(&mut self, client: u32, now: Moment) -> bool
        ensures answered { result ≡ is_answered client now self.old }
        ensures after { self.new ≡ after_asking client now self.old }
    {
        let place = client as usize % PLACES;
        let until = self.untils[place];
        let now = now.get();
        if now < until && until <= now + PAUSE {
            return false;
        }
        self.untils[place] = now + PAUSE;
        true
    }
}

//! Which of two disks is live.

ghost use Rattle.std.specs.Prelude.{List, ℕ, IfErr};
ghost use Rattle.mon_store.specs.Pair.{new_store, newer, chosen};
ghost use Rattle.mon_store.specs.Opening.{held_in, len_of, found_of, Gives, IsRefusal};
ghost use Rattle.mon_journal.specs.Content.{held_by};
ghost use Rattle.mon_journal.specs.Steps.{with_payloads};

use crate::stop::OpenStop;
use mon_journal::{HEADER, Journal, Opened};
use mon_types::Side;

/// The most bytes that a creation which a crash cut short leaves on disk A: a header, and a closed gate.
const MOST_NEW: u64 = HEADER + 1;

/// Where the map of a store is.
#[derive(Drop)]
pub(crate) enum Choice {
    /// Nowhere: the store is to be created.
    New,
    /// In the file of a disk.
    Live { side: Side, journal: Journal },
}

/// A store may be created on two closed disks if disk A holds no more than a creation that a crash cut short, and disk
/// B is empty.
fn new_store(a: u64, b: u64) -> Result<Choice, OpenStop>
    ensures found { (p q : List (List ℕ)) → Gives (found_of p q) result (new_store a b) }
    ensures refused { IfErr result IsRefusal }
{
    if a > MOST_NEW {
        return Err(OpenStop::NotAStore {
            disk: Side::A,
            at: 0,
        });
    }
    if b > 0 {
        return Err(OpenStop::NotAStore {
            disk: Side::B,
            at: 0,
        });
    }
    Ok(Choice::New)
}

fn newer(a: Journal, b: Journal) -> Result<Choice, OpenStop>
    ensures found { (p q : List (List ℕ)) → Gives (found_of p q) result (newer (held_by a p) (held_by b q)) }
    ensures refused { IfErr result IsRefusal }
{
    if a.generation == b.generation {
        return Err(OpenStop::NotAStore {
            disk: Side::B,
            at: 0,
        });
    }
    if a.generation > b.generation {
        return Ok(Choice::Live {
            side: Side::A,
            journal: a,
        });
    }
    Ok(Choice::Live {
        side: Side::B,
        journal: b,
    })
}

/// Chooses the live disk: the only open one, or of two open ones that with the greater generation. The payloads don't
/// matter.
pub(crate) fn choose(a: Opened, b: Opened) -> Result<Choice, OpenStop>
    ensures found { (p q : List (List ℕ)) → let x = with_payloads p a in let y = with_payloads q b in
        Gives (found_of p q) result (chosen (held_in x) (held_in y) (len_of x) (len_of y)) }
    ensures refused { IfErr result IsRefusal }
{
    match (a, b) {
        (Opened::Closed { len: a }, Opened::Closed { len: b }) => new_store(a, b),
        (Opened::Live { journal }, Opened::Closed { .. }) => Ok(Choice::Live {
            side: Side::A,
            journal,
        }),
        (Opened::Closed { .. }, Opened::Live { journal }) => Ok(Choice::Live {
            side: Side::B,
            journal,
        }),
        (Opened::Live { journal: a }, Opened::Live { journal: b }) => newer(a, b),
    }
}

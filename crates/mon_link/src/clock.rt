ghost use Rattle.std.specs.Prelude.{◌≡◌, Option, Some, IfSome, option_map};
ghost use Rattle.std.specs.Vec.Iter.{into_iter_items};
ghost use Rattle.mon_link.specs.Clocks.{Readings, reading, after};

use mon_types::Moment;
use std::marker::Model;
use std::vec::IntoIter;

/// A clock. It can't fail.
pub trait Clock {
    /// The readings to come, if they are known.
    ghost left: { Self → Option Readings };

    /// The clock's next reading, in milliseconds.
    fn now(&mut self) -> Moment
        ensures shows { IfSome (left self.old) (λ r. result ≡ reading r) }
        ensures left { left self.new ≡ option_map after (left self.old) };
}

/// A clock that shows a list of times, one at each reading, and then the last of them for ever: 0 if there is none.
#[derive(Drop)]
pub struct ListClock {
    moments: IntoIter<Moment>,
    last: Moment,
}

impl Model for ListClock {
    ghost use Rattle.std.specs.Vec.Iter.{into_iter_items};
    ghost use Rattle.mon_link.specs.Clocks.{Readings};

    ghost Value = { Readings };

    ghost view = { λ c. record { next = into_iter_items c.moments; last = c.last } };
}

impl ListClock {
    /// A clock that shows these times. It takes no memory.
    pub fn new(moments: Vec<Moment>) -> ListClock
        ensures { result ≡ record { next = moments.items; last = 0 } }
    {
        ListClock {
            moments: moments.into_iter(),
            last: Moment::known(0),
        }
    }
}

impl Clock for ListClock {
    ghost left = { λ c. Some c };

    fn now(&mut self) -> Moment {
        if let Some(moment) = self.moments.next() {
            self.last = moment;
        }
        self.last
    }
}

ghost use Rattle.std.specs.Prelude.{◌≡◌};

use crate::readings::Readings;
use mon_link::Clock;
use mon_types::Moment;
use std::cell::Cell;
use std::rc::Rc;

/// A clock that shows what another one shows, and leaves its readings for a record, if there is one.
#[derive(Drop)]
pub struct Noting<C: Clock + Drop> {
    pub inner: C,
    readings: Option<Rc<Cell<Readings>>>,
}

impl<C: Clock + Drop> Noting<C> {
    /// A clock over `inner` that leaves its readings here.
    pub fn new(inner: C, readings: Option<Rc<Cell<Readings>>>) -> Noting<C>
        ensures { result.inner ≡ inner }
    {
        Noting { inner, readings }
    }
}

impl<C: Clock + Drop> Clock for Noting<C> {
    ghost left = { λ c. C.left c.inner };

    fn now(&mut self) -> Moment {
        let time = self.inner.now();
        if let Some(readings) = &self.readings {
            readings.set(readings.get().and(time));
        }
        time
    }
}

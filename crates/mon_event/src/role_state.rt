//! What each role remembers, as a part of what its monitor remembers.

ghost use Rattle.std.specs.Prelude.{◌≡◌};
ghost use Rattle.mon_msg.specs.Protocol.Course.{timers_in};
ghost use Rattle.mon_msg.specs.Protocol.State.{State as Remembered};
ghost use Rattle.mon_plan.specs.Plans.{phase_as};
ghost use Rattle.mon_event.specs.State.{state_of};

use crate::state::State;
use mon_msg::{Clients, Elector, Leader, Peon, Prober, Provider, Requester};

/// What one role remembers.
pub trait RoleState: Drop + Sized {
    /// What the monitor remembers once the role remembers this.
    ghost put: { Self → Remembered → Remembered };

    /// Replaces the role's part of what the monitor remembers.
    fn put_in(self, state: &mut State)
        ensures { state_of state.new ≡ put self (state_of state.old) };
}

impl RoleState for Elector {
    ghost put = { λ elector s. record s { elector = elector } };

    fn put_in(self, state: &mut State) {
        state.elector = self;
    }
}

impl RoleState for Prober {
    ghost put = { λ prober s. record s { prober = prober } };

    fn put_in(self, state: &mut State) {
        state.prober = self;
    }
}

/// If the monitor leads, its phase is the leader's stage.
impl RoleState for Leader {
    ghost put = { λ leader s. let p = phase_as leader.stage s.phase in
        record s { phase = p; timers = timers_in p s; leader = leader } };

    fn put_in(self, state: &mut State) {
        state.lead(self);
    }
}

impl RoleState for Peon {
    ghost put = { λ peon s. record s { peon = peon } };

    fn put_in(self, state: &mut State) {
        state.peon = self;
    }
}

impl RoleState for Clients {
    ghost put = { λ clients s. record s { clients = clients } };

    fn put_in(self, state: &mut State) {
        state.clients = self;
    }
}

impl RoleState for Provider {
    ghost put = { λ provider s. record s { provider = provider } };

    fn put_in(self, state: &mut State) {
        state.provider = self;
    }
}

impl RoleState for Requester {
    ghost put = { λ requester s. record s { requester = requester } };

    fn put_in(self, state: &mut State) {
        state.requester = self;
    }
}

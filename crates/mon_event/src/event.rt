//! An event in progress, and how a role's plan is carried out in it.

ghost use Rattle.std.specs.Prelude.{◌≡◌, ◌++◌, OnOk, IfOk, List, [], None};
ghost use Rattle.std.specs.List.{AllByRecursion};
ghost use Rattle.mon_msg.specs.Protocol.Changes.{Change, encoded};
ghost use Rattle.mon_msg.specs.Protocol.Course.{in_phase, forget_clients, peon_is};
ghost use Rattle.mon_msg.specs.Protocol.Played.{Fits};
ghost use Rattle.mon_msg.specs.Protocol.Sending.{reply_to};
ghost use Rattle.mon_msg.specs.Protocol.Readings.{epoch_of, readings_of};
ghost use Rattle.mon_tx.specs.Map.{apply};
ghost use Rattle.mon_wire.specs.declared.phase.Phase.TheVariants as phases;
ghost use Rattle.mon_plan.specs.Plans.{stands, changed, arm_all, sending};
ghost use Rattle.mon_event.specs.Events.{Goes, Carries, remembering};

use crate::role_state::RoleState;
use crate::state::State;
use mon_bytes::{Items, OutOfMemory};
use mon_kv::Kv;
use mon_msg::plan::Sent;
use mon_msg::{Arming, Next, Phase, Plan, Reply, Session};
use mon_stored::epoch_after;
use mon_tx::Transaction;
use mon_types::{Epoch, Rank, RankSet};
use std::alloc::Global;
use std::mem;

/// An event in progress: what it writes and sends so far, and what the monitor remembers then.
#[derive(Drop)]
pub struct Event {
    /// What it writes so far.
    pub tx: Transaction,
    /// What it sends so far, in order.
    pub out: Items<Sent>,
    /// What the monitor remembers by then.
    pub state: State,
}

impl Event {
    /// An event that has just begun, at a monitor with this state. It takes no memory.
    pub fn begun(alloc: Global, state: State) -> Event
        ensures { result ≡ record { tx = []; out = []; state = state } }
    {
        Event {
            tx: Transaction::new(alloc),
            out: Items::new(alloc),
            state,
        }
    }

    /// The epoch after what is written so far.
    pub fn epoch(&self, alloc: Global, kv: &Kv) -> Result<Epoch, OutOfMemory>
        ensures { IfOk result (λ e. e ≡ epoch_of (readings_of (apply self.now.tx kv.now))) }
    {
        epoch_after(alloc, kv, &self.tx)
    }

    /// Writes a transaction after what is written so far. After an `Err` a prefix of it may be there.
    pub fn write(&mut self, tx: Transaction) -> Result<(), OutOfMemory>
        ensures { OnOk result (self.new ≡ record self.old { tx = self.old.tx ++ tx }) }
    {
        if self.tx.ops().is_empty() {
            self.tx = tx;
            return Ok(());
        }
        self.tx.append(&tx)?;
        Ok(())
    }

    /// Sends messages and replies after what is sent so far. After an `Err` the event isn't used again.
    pub fn send(&mut self, alloc: Global, out: Items<Sent>) -> Result<(), OutOfMemory>
        ensures { OnOk result (self.new ≡ record self.old { out = self.old.out ++ out }) }
    {
        if self.out.is_empty() {
            self.out = out;
            return Ok(());
        }
        let mut all = mem::replace(&mut self.out, Items::new(alloc)).into_vec();
        let mut more = out.into_vec();
        all.append(&mut more)?;
        self.out = Items::from_vec(all);
        Ok(())
    }

    /// Answers a client. After an `Err` the event isn't used again.
    pub fn reply(&mut self, to: Session, reply: Reply) -> Result<(), OutOfMemory>
        ensures { OnOk result (Goes self.old self.new (reply_to to reply)) }
    {
        self.out.push(Sent::Reply { to, reply })?;
        Ok(())
    }

    /// Enters a phase.
    pub fn enter_phase(&mut self, phase: Phase)
        ensures goes { Goes self.old self.new (in_phase phase) }
        ensures written { self.new.tx ≡ self.old.tx }
    {
        self.state.enter_phase(phase);
    }

    /// Enters a phase, and forgets the clients and commands that wait.
    pub fn start_over(&mut self, alloc: Global, phase: Phase)
        ensures goes { Goes self.old self.new (λ x. forget_clients (in_phase phase x)) }
        ensures written { self.new.tx ≡ self.old.tx }
    {
        self.enter_phase(phase);
        self.state.forget_clients(alloc);
    }

    /// Enters the phase of a peon that follows this leader in this quorum, without a lease.
    fn follow(&mut self, leader: Rank, quorum: RankSet)
        ensures goes { Goes self.old self.new
            (λ x. peon_is (record { leader = leader; quorum = quorum; lease = None }) (in_phase phases.Peon x)) }
        ensures written { self.new.tx ≡ self.old.tx }
    {
        self.enter_phase(Phase::Peon);
        self.state.follow(leader, quorum);
    }

    /// Enters the phase that a plan itself names, before the plan's timers are set. The other acts enter theirs when
    /// they are done.
    fn stand(&mut self, alloc: Global, next: &Next)
        ensures goes { Goes self.old self.new (stands next.now) }
        ensures written { self.new.tx ≡ self.old.tx }
    {
        match next {
            Next::Electing => self.start_over(alloc, Phase::Electing),
            Next::Follow { leader, quorum } => self.follow(*leader, *quorum),
            Next::Stay
            | Next::Bootstrap
            | Next::Elect
            | Next::Win { .. }
            | Next::FullSync { .. }
            | Next::RecentSync { .. }
            | Next::Begin { .. } => {}
        }
    }

    /// Does the part of a plan that precedes the role's new state: the phase, and then the transaction.
    fn begin(&mut self, alloc: Global, next: &Next, tx: Transaction) -> Result<(), OutOfMemory>
        ensures goes { OnOk result ((cs : List Change) → AllByRecursion Fits cs → tx ≡ encoded cs
            → Goes self.old self.new (λ x. changed cs (stands next.now x))) }
        ensures written { OnOk result (self.new.tx ≡ self.old.tx ++ tx) }
    {
        self.stand(alloc, next);
        self.write(tx)?;
        Ok(())
    }

    /// Does the part of a plan that follows the role's new state: the timers, and then what is sent.
    fn end(
        &mut self,
        alloc: Global,
        timers: Items<Arming>,
        out: Items<Sent>,
    ) -> Result<(), OutOfMemory>
        ensures goes { OnOk result (Goes self.old self.new (λ x. sending out (arm_all timers x))) }
        ensures written { OnOk result (self.new.tx ≡ self.old.tx) }
    {
        self.state.set_timers(timers.as_slice());
        self.send(alloc, out)?;
        Ok(())
    }

    /// Carries out a role's plan, and returns the act that the plan names. After an `Err` the event isn't used again.
    pub fn carry_out<S: RoleState>(
        &mut self,
        alloc: Global,
        plan: Plan<S>,
    ) -> Result<Next, OutOfMemory>
        ensures { Carries (remembering S.put) self.old plan self.new result }
    {
        let Plan {
            tx,
            out,
            timers,
            state,
            next,
        } = plan;
        self.begin(alloc, &next, tx)?;
        state.put_in(&mut self.state);
        self.end(alloc, timers, out)?;
        Ok(next)
    }
}

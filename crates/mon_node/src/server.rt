//! A node in use.

ghost use Rattle.std.specs.Prelude.{◌≡◌, false, [], Some, Ok, Option, OnOk, IfErr};
ghost use Rattle.mon_bounds.specs.Fitting.{IsValidInput};
ghost use Rattle.mon_link.specs.Clocks.{Readings};
ghost use Rattle.mon_link.specs.Links.{Observed};
ghost use Rattle.mon_msg.specs.Protocol.Timers.{due};
ghost use Rattle.mon_store.specs.Whole.{IsSound, disk_a, disk_b};
ghost use Rattle.mon_node.specs.Hearing.{Given, IsGiven, at_time, faults_by};
ghost use Rattle.mon_node.specs.Keeping.{DisksCount};
ghost use Rattle.mon_node.specs.Lasting.{BothVisible, PassIteration};
ghost use Rattle.mon_node.specs.Nodes.{unstarted, store_view_of, disks_of};
ghost use Rattle.mon_node.specs.Serving.{EndsIteration, IsOfInput};
ghost use Rattle.mon_node.specs.Iterations.{iteration};
ghost use Rattle.mon_node.specs.Talking.{TalkIteration, asked};

use crate::end::{NodeEnd, Served};
use crate::hearing::hear;
use crate::keeping::keep;
use crate::posting::send_all;
use mon_bytes::Items;
use mon_core::{Core, Input, Reaction};
use mon_disk::Disk;
use mon_frag::Assembly;
use mon_link::{Clock, Link};
use mon_msg::Me;
use mon_msg::plan::Sent;
use mon_store::Store;
use mon_types::Moment;
use std::alloc::Global;

/// A monitor in use: its store, its core, the messages of which not all pieces came yet, and the number of its next
/// message that is longer than a datagram.
#[derive(Drop)]
pub(crate) struct Server<D> {
    alloc: Global,
    me: Me,
    store: Store<D>,
    core: Core,
    assembly: Assembly,
    next: u64,
}

/// What a reaction sends. Its transaction is dropped.
fn sent_by(reaction: Reaction) -> Items<Sent>
    ensures { result ≡ reaction.out }
{
    let Reaction { tx, out } = reaction;
    drop(tx);
    out
}

impl<D: Disk> Server<D> {
    ghost use Rattle.mon_node.specs.Servers.{serving_of, IsInUse};

    /// A monitor that isn't started yet.
    pub(crate) fn new(alloc: Global, store: Store<D>, me: &Me) -> Server<D>
        requires unbroken { store.broken ≡ false }
        requires sound { IsSound D.state store }
        ensures in_use { IsInUse D.state result }
        ensures me { result.me ≡ me.now }
        ensures store { result.store ≡ store }
        ensures serving { (clock : Option Readings) (link : Option Observed)
            → serving_of result clock link ≡ unstarted me.now.member.rank (store_view_of store) clock link }
    {
        Server {
            alloc,
            me: *me,
            store,
            core: Core::boot(alloc, me.member, me.rule),
            assembly: Assembly::new(alloc),
            next: 1,
        }
    }

    /// Takes an input: what the core writes is kept, and then what it sends goes out.
    pub(crate) fn take<L: Link>(
        &mut self,
        link: &mut L,
        input: &Input,
        now: Moment,
    ) -> Result<(), NodeEnd>
        requires in_use { IsInUse D.state self.old }
        requires comes { IsValidInput input.now }
        ensures in_use { OnOk result (IsInUse D.state self.new) }
        ensures me { self.new.me ≡ self.old.me }
        ensures ends { (clock : Option Readings) → EndsIteration self.old.me
            (record { came = Ok (Some (at_time now input.now)); serving = serving_of self.old clock (L.state link.old).observed })
            result (serving_of self.new clock (L.state link.new).observed) }
        ensures kind { IfErr result IsOfInput }
        ensures faults { (L.state link.new).faults ≡ (L.state link.old).faults }
        ensures counts { DisksCount result (D.state (disk_a self.old.store)).faults
            (D.state (disk_b self.old.store)).faults
            (D.state (disk_a self.new.store)).faults (D.state (disk_b self.new.store)).faults }
        ensures passes { (clock : Option Readings) → BothVisible (disks_of D.state self.old.store)
            → PassIteration self.old.me
            (record { came = Ok (Some (at_time now input.now)); serving = serving_of self.old clock (L.state link.old).observed })
            result (L.state link.new).observed (disks_of D.state self.old.store) (disks_of D.state self.new.store) }
        ensures talks { (clock : Option Readings) → TalkIteration self.old.me
            (record { came = Ok (Some (at_time now input.now)); serving = serving_of self.old clock (L.state link.old).observed })
            [] result (L.history link.old) (L.history link.new)
            (disks_of D.state self.old.store) (disks_of D.state self.new.store) }
    {
        let reaction = self.core.react(self.alloc, self.store.kv(), input, now)?;
        keep(&mut self.store, &reaction.tx)?;
        let out = sent_by(reaction);
        send_all(
            self.alloc,
            link,
            &self.me,
            self.store.kv(),
            &mut self.next,
            out,
        )?;
        Ok(())
    }

    /// Makes one iteration.
    pub(crate) fn iteration<L: Link, C: Clock>(
        &mut self,
        link: &mut L,
        clock: &mut C,
    ) -> Result<(), NodeEnd>
        requires in_use { IsInUse D.state self.old }
        ensures in_use { OnOk result (IsInUse D.state self.new) }
        ensures me { self.new.me ≡ self.old.me }
        ensures iteration { let old = serving_of self.old (C.left clock.old) (L.state link.old).observed in
            let disks = disks_of D.state self.old.store in
            (g : Given) × IsGiven (due self.old.core.state.timers) g old.outside
            × EndsIteration self.old.me (iteration self.old.me g old) result
            (serving_of self.new (C.left clock.new) (L.state link.new).observed)
            × (BothVisible disks → PassIteration self.old.me (iteration self.old.me g old) result
            (L.state link.new).observed disks
            (disks_of D.state self.new.store))
            × TalkIteration self.old.me (iteration self.old.me g old) (asked (due self.old.core.state.timers) g) result
            (L.history link.old) (L.history link.new) disks (disks_of D.state self.new.store) }
        ensures faults { (L.state link.new).faults ≡ faults_by result (L.state link.old).faults }
        ensures counts { DisksCount result (D.state (disk_a self.old.store)).faults
            (D.state (disk_b self.old.store)).faults
            (D.state (disk_a self.new.store)).faults (D.state (disk_b self.new.store)).faults }
    {
        let next = self.core.due();
        let came = hear(
            self.alloc,
            self.me.member.monitors,
            &next,
            &mut self.assembly,
            link,
            clock,
        )?;
        match came {
            Some(timed) => {
                let done = self.take(link, &timed.input, timed.at);
                drop(timed);
                done
            }
            None => Ok(()),
        }
    }

    /// Ends the node: closes the store, and returns its disks.
    pub(crate) fn end(self, end: NodeEnd, turns: u64) -> Served<D>
        ensures end { result.end ≡ end }
        ensures turns { result.turns ≡ turns }
        ensures a { result.disks.a ≡ disk_a self.store }
        ensures b { result.disks.b ≡ disk_b self.store }
    {
        let Server {
            store,
            core,
            assembly,
            ..
        } = self;
        drop(core);
        drop(assembly);
        Served {
            end,
            turns,
            disks: store.close(),
        }
    }
}

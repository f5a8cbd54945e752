//! What is known of a monitor from the headers of its messages.

ghost use Rattle.std.specs.Prelude.{◌≡◌, slice_index_or};
ghost use Rattle.mon_watch.specs.Seen.{after_arrival, after_header, after_heard, after_phase, after_sent, announces, awaits, contact_after, elections_after, header_heard, header_read, heard_at, later_of, led_by, named, no_contact, nothing_seen, quorum_of, shown, shows, taken_from, victory_after, with_contact};

use crate::contact::Contact;
use mon_decode::{Header, read_header};
use mon_link::Peer;
use mon_types::Rank;
use mon_wire::{Kind, Phase};

/// A victory that a monitor announced: its rank, the epoch, and the quorum with bit r for rank r.
#[derive(Clone, Copy)]
pub struct Victory {
    pub leader: u8,
    pub epoch: u64,
    pub quorum: u64,
}

/// What is known of a monitor.
#[derive(Clone, Copy)]
pub struct Seen {
    /// The phase that the kinds of its messages show.
    pub phase: Phase,
    /// The epoch of its last message to a monitor that shows a phase by its kind.
    pub epoch: u64,
    /// The rank that leads its quorum.
    pub leader: Option<u8>,
    /// The rank from which it takes a store, until it is in a quorum.
    pub source: Option<u8>,
    /// The victory of the latest epoch.
    pub victory: Option<Victory>,
    /// The greatest last version that its messages named, or 0.
    pub version: u64,
    /// How many elections it was seen to take part in. One that begins anew in a later epoch counts again.
    pub elections: u64,
    /// When each monitor was heard and asked, by rank.
    pub contacts: [Contact; 15],
}

/// The phase of a monitor that sends a message of this kind to another one, if the kind shows it.
fn shown(kind: Kind) -> Option<Phase>
    ensures { result ≡ shown kind }
{
    match kind {
        Kind::Probe => Some(Phase::Probing),
        Kind::Propose | Kind::Ack => Some(Phase::Electing),
        Kind::Victory | Kind::Collect => Some(Phase::Collecting),
        Kind::Lease => Some(Phase::Active),
        Kind::Last | Kind::Accept | Kind::LeaseAck => Some(Phase::Peon),
        Kind::GetCookieFull | Kind::GetCookieRecent => Some(Phase::Synchronizing),
        _ => None,
    }
}

/// Whether a message of this kind shows the phase of its sender.
pub(crate) fn shows(kind: Option<Kind>) -> bool
    ensures { result ≡ shows kind }
{
    match kind {
        Some(kind) => shown(kind).is_some(),
        None => false,
    }
}

/// The header of a message that is sent, if its kind shows a phase.
fn header_read(kind: Option<Kind>, bytes: &[u8]) -> Option<Header>
    ensures { result ≡ header_read kind bytes.now }
{
    if shows(kind) {
        return read_header(bytes);
    }
    None
}

fn led_by(own: u8, to: u8, phase: Phase) -> Option<u8>
    ensures { result ≡ led_by own to phase }
{
    match phase {
        Phase::Collecting | Phase::Active => Some(own),
        Phase::Peon => Some(to),
        _ => None,
    }
}

fn taken_from(to: u8, phase: Phase, old: Option<u8>) -> Option<u8>
    ensures { result ≡ taken_from to phase old }
{
    match phase {
        Phase::Synchronizing => Some(to),
        _ => { if phase.is_member() { None } else { old } }
    }
}

/// The sender's last version, if the message names it, and otherwise 0.
fn named(kind: Kind, first: u64) -> u64
    ensures { result ≡ named kind first }
{
    match kind {
        Kind::Lease | Kind::LeaseAck => first,
        _ => 0,
    }
}

fn later_of(victory: Victory, old: Option<Victory>) -> Option<Victory>
    ensures { result ≡ later_of victory old }
{
    match old {
        None => Some(victory),
        Some(known) => {
            if known.epoch <= victory.epoch {
                Some(victory)
            } else {
                Some(known)
            }
        }
    }
}

/// Whether a monitor that is well answers each message of this kind.
fn awaits(kind: Kind) -> bool
    ensures { result ≡ awaits kind }
{
    matches!(
        kind,
        Kind::Probe
            | Kind::Collect
            | Kind::Begin
            | Kind::Lease
            | Kind::Forward
            | Kind::GetCookieFull
            | Kind::GetCookieRecent
            | Kind::GetChunk
            | Kind::Ping
    )
}

fn contact_after(now: u64, kind: Option<Kind>, contact: Contact) -> Contact
    ensures { result ≡ contact_after now kind contact }
{
    match kind {
        Some(kind) => {
            if awaits(kind) {
                contact.asked_at(now)
            } else {
                contact
            }
        }
        None => contact,
    }
}

/// Whether a message of this kind announces a victory.
fn announces(kind: Option<Kind>) -> bool
    ensures { result ≡ announces kind }
{
    matches!(kind, Some(Kind::Victory))
}

/// The header of a message that arrived, if it announces a victory.
fn header_heard(kind: Option<Kind>, bytes: &[u8]) -> Option<Header>
    ensures { result ≡ header_heard kind bytes.now }
{
    if announces(kind) {
        return read_header(bytes);
    }
    None
}

fn victory_after(
    leader: u8,
    kind: Kind,
    epoch: u64,
    quorum: u64,
    old: Option<Victory>,
) -> Option<Victory>
    ensures { result ≡ victory_after leader kind epoch quorum old }
{
    match kind {
        Kind::Victory => later_of(
            Victory {
                leader,
                epoch,
                quorum,
            },
            old,
        ),
        _ => old,
    }
}

impl Seen {
    /// What is known before anything is sent or received.
    pub fn new() -> Seen
        ensures { result ≡ nothing_seen }
    {
        Seen {
            phase: Phase::Booting,
            epoch: 0,
            leader: None,
            source: None,
            victory: None,
            version: 0,
            elections: 0,
            contacts: [Contact::none(); 15],
        }
    }

    /// The quorum, with bit r for rank r, or 0 if it isn't known.
    pub fn quorum(&self) -> u64
        ensures { result ≡ quorum_of self.now.leader self.now.epoch self.now.victory }
    {
        match (self.leader, self.victory) {
            (Some(leader), Some(victory)) => {
                if victory.leader == leader && victory.epoch == self.epoch {
                    victory.quorum
                } else {
                    0
                }
            }
            _ => 0,
        }
    }

    fn elections_after(&self, epoch: u64, phase: Phase) -> u64
        ensures { result ≡ elections_after epoch phase self.now }
    {
        match phase {
            Phase::Electing => {
                if self.phase == Phase::Electing && epoch <= self.epoch {
                    self.elections
                } else {
                    self.elections.saturating_add(1)
                }
            }
            _ => self.elections,
        }
    }

    /// Notes that the monitor of rank `own` sends a message of this header, which shows this phase.
    fn shows(&mut self, own: u8, to: u8, header: Header, phase: Phase)
        ensures { self.new ≡ after_phase own to header (Some phase) self.old }
    {
        self.elections = self.elections_after(header.epoch, phase);
        self.phase = phase;
        self.epoch = header.epoch;
        self.leader = led_by(own, to, phase);
        self.source = taken_from(to, phase, self.source);
        self.victory = victory_after(own, header.kind, header.epoch, header.first, self.victory);
        self.version = self.version.max(named(header.kind, header.first));
    }

    /// Notes the header of a message that the monitor of rank `own` sends, if it was read.
    fn says(&mut self, own: u8, to: u8, header: Option<Header>)
        ensures { self.new ≡ after_header own to header self.old }
    {
        if let Some(header) = header
            && let Some(phase) = shown(header.kind)
        {
            self.shows(own, to, header, phase);
        }
    }

    /// Notes the header of a message from the monitor of rank `from`, if it was read.
    fn hears_of(&mut self, from: u8, header: Option<Header>)
        ensures { self.new ≡ after_heard from header self.old }
    {
        if let Some(header) = header {
            self.victory = victory_after(
                from,
                header.kind,
                header.epoch,
                header.first,
                self.victory,
            );
        }
    }

    fn asks(&mut self, to: Rank, kind: Option<Kind>, now: u64)
        ensures { self.new ≡ with_contact to (contact_after now kind (slice_index_or self.old.contacts to no_contact)) self.old }
    {
        let place = usize::from(to.get());
        let asked = contact_after(now, kind, self.contacts[place]);
        self.contacts[place] = asked;
    }

    fn hears(&mut self, from: Rank, now: u64)
        ensures { self.new ≡ with_contact from (heard_at now) self.old }
    {
        self.contacts[usize::from(from.get())] = Contact::heard_at(now);
    }

    /// Notes a datagram that the monitor of rank `own` sends. `kind` is the kind that it names, if any.
    pub(crate) fn sends(&mut self, own: Rank, to: Peer, kind: Option<Kind>, bytes: &[u8], now: u64)
        ensures { self.new ≡ after_sent own now to kind bytes.now self.old }
    {
        match to {
            Peer::Monitor(rank) => {
                self.says(own.get(), rank.get(), header_read(kind, bytes));
                self.asks(rank, kind, now);
            }
            Peer::Client(_) => {}
        }
    }

    /// Notes a datagram that arrived. `kind` is the kind that it names, if any.
    pub(crate) fn gets(&mut self, from: Peer, kind: Option<Kind>, bytes: &[u8], now: u64)
        ensures { self.new ≡ after_arrival now from kind bytes.now self.old }
    {
        match from {
            Peer::Monitor(rank) => {
                self.hears_of(rank.get(), header_heard(kind, bytes));
                self.hears(rank, now);
            }
            Peer::Client(_) => {}
        }
    }
}

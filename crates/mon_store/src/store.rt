use mon_disk::NodeDisks;
use mon_journal::Journal;
use mon_kv::Kv;
use mon_types::Side;
use std::alloc::Global;

/// A map on two disks. Each transaction is a record of the live one's journal; from time to time a checkpoint begins a
/// new journal on the other one, which then is live.
#[derive(Drop)]
pub struct Store<D> {
    pub(crate) alloc: Global,
    pub(crate) live: D,
    pub(crate) other: D,
    /// Which disk is live.
    pub(crate) side: Side,
    pub(crate) journal: Journal,
    pub(crate) kv: Kv,
    pub(crate) broken: bool,
}

impl<D> Store<D> {
    ghost use Rattle.std.specs.Prelude.{◌≡◌, false};
    ghost use Rattle.mon_store.specs.Sound.{of_a, of_b};

    /// The map.
    pub fn kv(&self) -> &Kv
        requires { self.now.broken ≡ false }
        ensures { result.now ≡ self.now.kv }
    {
        &self.kv
    }

    /// Whether a call broke the store. A broken store refuses every change, until it is closed and opened again.
    pub fn is_broken(&self) -> bool
        ensures { result ≡ self.now.broken }
    {
        self.broken
    }

    /// Gives the disks back. It makes no call on them.
    pub fn close(self) -> NodeDisks<D>
        ensures a { result.a ≡ of_a self.side self.live self.other }
        ensures b { result.b ≡ of_b self.side self.live self.other }
    {
        match self.side {
            Side::A => NodeDisks {
                a: self.live,
                b: self.other,
            },
            Side::B => NodeDisks {
                a: self.other,
                b: self.live,
            },
        }
    }
}

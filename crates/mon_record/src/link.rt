ghost use Rattle.std.specs.Prelude.{◌≡◌, []};
ghost use Rattle.mon_link.specs.Histories.{GoesOn};
ghost use Rattle.mon_link.specs.Histories.Happened.{Received, WasSent};
ghost use Rattle.mon_link.specs.Links.{CallsNext, CallsSend};
ghost use Rattle.mon_record.specs.Entries.{entry, of_kind, received, sent};
ghost use Rattle.mon_record.specs.Recorders.{Records};
ghost use Rattle.mon_record.specs.declared.entry.TheConstants.{END};

use crate::entry::{came, datagram, went};
use crate::recorder::{LifeSink, Recorder};
use mon_link::{Got, Link, Lives, NoLife, Peer, Sink};
use mon_types::Stop;

/// A link that passes all calls on unchanged, and appends each to a record, if there is one.
#[derive(Drop)]
pub struct Recording<L: Link + Drop, K: Sink + Drop> {
    pub inner: L,
    pub recorder: Option<Recorder<K>>,
}

impl<L: Link + Drop, K: Sink + Drop> Recording<L, K> {
    /// A link over `inner`.
    pub fn new(inner: L, recorder: Option<Recorder<K>>) -> Recording<L, K>
        ensures inner { result.inner ≡ inner }
        ensures recorder { result.recorder ≡ recorder }
    {
        Recording { inner, recorder }
    }

    /// Appends that the monitor ended with this status, if there is a recorder.
    pub fn ends(&mut self, status: u8)
        ensures inner { self.new.inner ≡ self.old.inner }
        ensures records { Records K.held (entry (of_kind END status) []) self.old.recorder self.new.recorder }
    {
        if let Some(recorder) = &mut self.recorder {
            recorder.ends(status);
        }
    }
}

impl<L: Link + Drop, K: Sink + Drop> Link for Recording<L, K> {
    ghost state = { λ r. L.state r.inner };

    ghost history = { λ r. L.history r.inner };

    /// Asks the link below once, with the same wait, and returns what it returned. That is appended and written.
    fn next(&mut self, wait: u64) -> Result<Got, Stop>
        ensures calls { CallsNext wait result (L.state self.old.inner) (L.state self.new.inner) }
        ensures goes_on { GoesOn (L.history self.old.inner) (Received wait result) (L.history self.new.inner) }
        ensures records { Records K.held (received wait result) self.old.recorder self.new.recorder }
    {
        let got = self.inner.next(wait);
        if let Some(recorder) = &mut self.recorder {
            recorder.append_now(came(wait, &got), datagram(&got));
        }
        got
    }

    /// Sends a datagram as it is, and returns what the link below returned. The datagram is appended.
    fn send(&mut self, to: Peer, bytes: &[u8]) -> Result<(), Stop>
        ensures calls { CallsSend to bytes.now result (L.state self.old.inner) (L.state self.new.inner) }
        ensures goes_on { GoesOn (L.history self.old.inner) (WasSent to bytes.now result) (L.history self.new.inner) }
        ensures records { Records K.held (sent to bytes.now result) self.old.recorder self.new.recorder }
    {
        let sent = self.inner.send(to, bytes);
        if let Some(recorder) = &mut self.recorder {
            recorder.append(went(&to, &sent), bytes);
        }
        sent
    }
}

impl<L: Lives + Drop, K: LifeSink + Drop> Lives for Recording<L, K> {
    ghost stood = { λ r. L.stood r.inner };

    fn stood(&self) -> bool {
        self.inner.stood()
    }

    /// Begins a new life of the link below, and its record.
    fn live_anew(&mut self) -> Result<(), NoLife> {
        self.inner.live_anew()?;
        if let Some(recorder) = &mut self.recorder {
            recorder.begins();
        }
        Ok(())
    }
}

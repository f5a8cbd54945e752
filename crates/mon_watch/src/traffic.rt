ghost use Rattle.std.specs.Prelude.{◌≡◌, ◌≤◌, IfSome};
ghost use Rattle.mon_watch.specs.Traffic.{counted_at, no_traffic, place, with_received, with_sent};

use mon_decode::kind_byte;
use mon_frag::is_piece;
use mon_wire::Kind;

/// How many datagrams were sent and received: those that name a kind at its byte, and pieces of long messages at 0.
/// `refused` counts the received ones that are neither.
#[derive(Clone, Copy)]
pub struct Traffic {
    pub sent: [u64; 26],
    pub received: [u64; 26],
    pub refused: u64,
}

fn place(bytes: &[u8], kind: Option<Kind>) -> Option<usize>
    ensures place { result ≡ place bytes.now kind }
    ensures most { IfSome result (λ k. k ≤ 25) }
{
    match kind {
        Some(kind) => Some(usize::from(kind_byte(kind))),
        None => { if is_piece(bytes) { Some(0) } else { None } }
    }
}

fn count(place: usize, counts: &mut [u64; 26])
    requires { place ≤ 25 }
    ensures { counts.new ≡ counted_at place counts.old }
{
    counts[place] = counts[place].saturating_add(1);
}

impl Traffic {
    /// The counts before any datagram.
    pub fn new() -> Traffic
        ensures { result ≡ no_traffic }
    {
        Traffic {
            sent: [0; 26],
            received: [0; 26],
            refused: 0,
        }
    }

    /// Counts a datagram that is sent. `kind` is the kind that it names, if any.
    pub(crate) fn sends(&mut self, bytes: &[u8], kind: Option<Kind>)
        ensures { self.new ≡ with_sent (place bytes.now kind) self.old }
    {
        if let Some(place) = place(bytes, kind) {
            count(place, &mut self.sent);
        }
    }

    /// Counts a datagram that arrived. `kind` is the kind that it names, if any.
    pub(crate) fn gets(&mut self, bytes: &[u8], kind: Option<Kind>)
        ensures { self.new ≡ with_received (place bytes.now kind) self.old }
    {
        match place(bytes, kind) {
            Some(place) => count(place, &mut self.received),
            None => self.refused = self.refused.saturating_add(1),
        }
    }
}

ghost use Rattle.std.specs.Prelude.{◌≡◌, Bool, false, [], OnOk};

use crate::link::Link;

/// Why no new life begins: the system gives no number for it.
#[derive(Clone, Copy, Debug, PartialEq, Eq)]
pub struct NoLife;

/// A link that is closed after its machine stood still, and over which a new life of the process can then begin.
pub trait Lives: Link {
    /// Whether the machine stood still in this life.
    ghost stood: { Self → Bool };

    /// Whether the machine stood still in this life, which closed the link.
    fn stood(&self) -> bool
        ensures { result ≡ stood self.now };

    /// Begins a new life, in which no call was made yet.
    fn live_anew(&mut self) -> Result<(), NoLife>
        ensures state { Self.state self.new ≡ Self.state self.old }
        ensures awake { OnOk result (stood self.new ≡ false) }
        ensures fresh { OnOk result (Self.history self.new []) };
}

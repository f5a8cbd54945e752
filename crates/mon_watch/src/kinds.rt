//! The kind of a message, by the first two bytes of a datagram.

ghost use Rattle.std.specs.Prelude.{◌≡◌};
ghost use Rattle.mon_watch.specs.Kinds.{kind_at, kind_named};

use mon_decode::kind_of;
use mon_wire::Kind;

/// The byte with which each message begins.
pub const FORMAT: u8 = 1;

fn kind_at(byte: u8) -> Option<Kind>
    ensures { result ≡ kind_at byte }
{
    if byte == 0 || byte > 25 {
        return None;
    }
    Some(kind_of(byte))
}

/// The kind that the first two bytes of a datagram name; `None` if it isn't the beginning of a message.
pub(crate) fn kind_named(datagram: &[u8]) -> Option<Kind>
    ensures { result ≡ kind_named datagram.now }
{
    let (format, rest) = datagram.split_first()?;
    if *format != FORMAT {
        return None;
    }
    kind_at(*rest.first()?)
}

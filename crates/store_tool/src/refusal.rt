use mon_bytes::MapRefused;
use thiserror::Error;

/// Why bytes aren't taken as an export.
#[derive(Clone, Copy, Debug, PartialEq, Eq, Error)]
pub enum ExportRefused {
    /// The field that begins here is the first that is cut short or isn't of its form. In an input of more than
    /// 268,435,471 bytes that place is at fault.
    #[error("no export, at {at}")]
    At { at: u64 },
    /// The map would have the size `would_be`, above 268,435,456.
    #[error("a map of size {would_be}")]
    Full { would_be: u64 },
    #[error("out of memory")]
    OutOfMemory,
}

impl From<MapRefused> for ExportRefused {
    ghost use Rattle.std.specs.Prelude.{◌≡◌, Err};
    ghost use Rattle.store_tool.specs.Export.{judged};

    ghost from_gives = { λ s e. judged (Err s) ≡ Err e };

    fn from(s: MapRefused) -> ExportRefused {
        match s {
            MapRefused::Form { at } => ExportRefused::At { at: at as u64 },
            MapRefused::OutOfMemory => ExportRefused::OutOfMemory,
        }
    }
}

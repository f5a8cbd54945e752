ghost use Rattle.std.specs.Prelude.{◌≡◌};
ghost use Rattle.schedule_text.specs.declared.refusal.LineRefused.TheVariants.{Kind, OutOfMemory as no_memory};
ghost use Rattle.schedule_text.specs.declared.refusal.ScheduleRefused.TheVariants.{OutOfMemory as schedule_no_memory};

use mon_bytes::OutOfMemory;
use thiserror::Error;

/// What is wrong with a line of a schedule.
#[derive(Clone, Copy, Debug, PartialEq, Eq, Error)]
pub enum ScheduleKind {
    /// The whole text has more than 16,777,216 bytes.
    #[error("TooLong")]
    TooLong = 1,
    /// The first line isn't of its form.
    #[error("Header")]
    Header = 2,
    /// The last line has no line feed.
    #[error("End")]
    End = 3,
    /// There are more than 200,000 events.
    #[error("TooMany")]
    TooMany = 4,
    /// A byte isn't printable; or a field is missing, empty, unknown or one too many, or a key is too long.
    #[error("Word")]
    Word = 5,
    /// A field isn't a number in decimal without a leading zero, or is out of its bounds.
    #[error("Number")]
    Number = 6,
    /// A rank isn't below the number of monitors.
    #[error("Rank")]
    Rank = 7,
}

/// Why a line is no event.
#[derive(Clone, Copy, Debug, PartialEq, Eq, Error)]
pub enum LineRefused {
    #[error("{0}")]
    Kind(ScheduleKind),
    #[error("out of memory")]
    OutOfMemory,
}

impl From<ScheduleKind> for LineRefused {
    ghost from_gives = { λ k e. e ≡ Kind k };

    fn from(k: ScheduleKind) -> LineRefused {
        LineRefused::Kind(k)
    }
}

impl From<OutOfMemory> for LineRefused {
    ghost from_gives = { λ _ e. e ≡ no_memory };

    fn from(_e: OutOfMemory) -> LineRefused {
        LineRefused::OutOfMemory
    }
}

/// Why the bytes are no schedule.
#[derive(Clone, Copy, Debug, PartialEq, Eq, Error)]
pub enum ScheduleRefused {
    /// The first faulty line, counted from 1; 0 means the whole text.
    #[error("line {line}, {kind}")]
    At { line: u32, kind: ScheduleKind },
    #[error("out of memory")]
    OutOfMemory,
}

impl From<OutOfMemory> for ScheduleRefused {
    ghost from_gives = { λ _ e. e ≡ schedule_no_memory };

    fn from(_e: OutOfMemory) -> ScheduleRefused {
        ScheduleRefused::OutOfMemory
    }
}

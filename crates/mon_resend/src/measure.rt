//! How long a peer takes to answer.

ghost use Rattle.std.specs.Prelude.{◌≡◌};
ghost use Rattle.mon_resend.specs.Measures.{unmeasured, measured, measured_soon, waits};

/// The measured wait for an answer, in milliseconds: the least, the one for a peer that wasn't measured yet, the
/// greatest.
pub(crate) const LEAST_TIME: u64 = 3;

pub(crate) const FIRST: u64 = 500;

pub(crate) const MOST_TIME: u64 = 2_000;

/// The parts of a millisecond in which times are smoothed.
pub(crate) const PARTS: u64 = 1_000;

/// How many answers in a row that come soon after the first copy show that the peer is faster than it was.
pub(crate) const MOST_SOON: u8 = 3;

/// The smoothed time of a peer's answers and its variation, in thousandths of a millisecond. They hold once `known`.
#[derive(Clone, Copy)]
pub struct Measure {
    pub known: bool,
    pub smoothed: u64,
    pub variation: u64,
    /// How many answers in a row came soon after the first copy, at most `MOST_SOON`.
    pub soon: u8,
}

impl Measure {
    pub(crate) fn none() -> Measure
        ensures { result ≡ unmeasured }
    {
        Measure {
            known: false,
            smoothed: 0,
            variation: 0,
            soon: 0,
        }
    }

    /// The measure after an answer that arrived `time` milliseconds after its message was last sent. The message was
    /// sent `copies` times as a copy. After a copy, the answer may belong to an earlier sending, so that `time` is too
    /// short. Such an answer counts only if it took longer than usual, or came soon after the first copy.
    pub(crate) fn after(self, time: u64, copies: u8) -> Measure
        ensures { result ≡ measured time copies self }
    {
        let time = time.min(MOST_TIME).saturating_mul(PARTS);
        if !self.known {
            return Measure {
                known: true,
                smoothed: time,
                variation: time / 2,
                soon: 0,
            };
        }
        if copies == 1 && time <= self.smoothed / 4 {
            return self.after_soon();
        }
        if copies > 0 && time <= self.smoothed {
            return Measure { soon: 0, ..self };
        }
        let smoothed = self.smoothed.min(MOST_TIME * PARTS);
        let variation = self.variation.min(MOST_TIME * PARTS);
        Measure {
            known: true,
            smoothed: (7 * smoothed + time) / 8,
            variation: (3 * variation + smoothed.abs_diff(time)) / 4,
            soon: 0,
        }
    }

    /// The measure after an answer that came at most a quarter of the usual time after the first copy. Such an answer
    /// rarely belongs to the first sending. From the third in a row on, each halves the usual time.
    fn after_soon(self) -> Measure
        ensures { result ≡ measured_soon self }
    {
        if self.soon.saturating_add(1) < MOST_SOON {
            return Measure {
                soon: self.soon.saturating_add(1),
                ..self
            };
        }
        Measure {
            known: true,
            smoothed: self.smoothed / 2,
            variation: self.variation / 2,
            soon: self.soon,
        }
    }

    /// How many milliseconds to wait for an answer.
    pub(crate) fn wait(self) -> u64
        ensures { result ≡ waits self }
    {
        if !self.known {
            return FIRST;
        }
        self.smoothed
            .saturating_add(self.variation.saturating_mul(4))
            .div_ceil(PARTS)
            .clamp(LEAST_TIME, MOST_TIME)
    }
}

//! The comparison of the two reports that a source has.

ghost use Rattle.std.specs.Prelude.{◌≡◌, List, ℕ, Some};
ghost use Rattle.stopped_stores.specs.Completing.{ComparisonCompletes, Unfailed};
ghost use Rattle.stopped_stores.specs.Reading.{Compares};

use crate::end::ToolEnd;
use mon_link::{Sink, Source, read_all, write_all};
use mon_scrub::{Report, ReportRefused, compare, parse};
use std::alloc::Global;

/// One byte more than an input of two reports may have, so that a longer one is refused.
pub const MOST_REPORTS_READ: usize = 4097;

/// The same as `compare_reports`, whose contract follows from this one.
fn read_and_compare<S: Source, K: Sink>(alloc: Global, source: &mut S, sink: &mut K) -> ToolEnd
    ensures { Compares
        (record { bytes = S.left source.old; faults = S.faults source.old })
        (record { bytes = S.left source.new; faults = S.faults source.new })
        (record { bytes = K.held sink.old; faults = K.faults sink.old })
        (record { bytes = K.held sink.new; faults = K.faults sink.new }) result }
{
    let bytes = match read_all(alloc, source, MOST_REPORTS_READ) {
        Ok(bytes) => bytes,
        Err(stop) => return ToolEnd::of_reading(stop),
    };
    let (a, b) = match parse(bytes.as_slice()) {
        Ok(reports) => reports,
        Err(ReportRefused::Report { line }) => return ToolEnd::Report { line },
        Err(ReportRefused::OutOfMemory) => return ToolEnd::OutOfMemory,
    };
    let Ok(text) = compare(alloc, &a, &b) else {
        return ToolEnd::OutOfMemory;
    };
    match write_all(sink, text.as_slice()) {
        Ok(()) => ToolEnd::Done,
        Err(stop) => ToolEnd::of_writing(stop),
    }
}

/// Reads two reports, one after the other, and writes where they differ.
pub fn compare_reports<S: Source, K: Sink>(alloc: Global, source: &mut S, sink: &mut K) -> ToolEnd
    // The cause of each end.
    ensures cause { Compares
        (record { bytes = S.left source.old; faults = S.faults source.old })
        (record { bytes = S.left source.new; faults = S.faults source.new })
        (record { bytes = K.held sink.old; faults = K.faults sink.old })
        (record { bytes = K.held sink.new; faults = K.faults sink.new }) result }

    // Which end is returned if nothing fails.
    ensures complete { Unfailed
        (record { bytes = S.left source.old; faults = S.faults source.old })
        (record { bytes = S.left source.new; faults = S.faults source.new })
        → Unfailed
        (record { bytes = K.held sink.old; faults = K.faults sink.old })
        (record { bytes = K.held sink.new; faults = K.faults sink.new })
        → (bytes : List ℕ) → S.left source.old ≡ Some bytes → ComparisonCompletes bytes result }
{
    read_and_compare(alloc, source, sink)
}

use thiserror::Error;

/// Why bytes aren't taken as two reports.
#[derive(Clone, Copy, Debug, PartialEq, Eq, Error)]
pub enum ReportRefused {
    /// The first line that is at fault, missing or too many, counted from 1; or 0 for an input of more than 4,096 bytes.
    #[error("line {line}")]
    Report { line: u32 },
    #[error("out of memory")]
    OutOfMemory,
}

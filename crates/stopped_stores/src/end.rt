use mon_disk::NodeDisks;
use mon_store::OpenStop;
use mon_types::{Member, Side, Stop};
use store_tool::ImportEnd;

/// How a command on a stopped store ended.
#[derive(Clone, Copy, Debug, PartialEq, Eq)]
pub enum ToolEnd {
    /// The command did all its work, and wrote its whole text.
    Done,
    /// The source couldn't be read. Nothing was done.
    ReadFault,
    /// The sink couldn't be written. It holds a prefix of the text.
    WriteFault,
    /// A disk failed.
    DiskFault,
    /// `disk` holds no store, or none that fits the other disk's file. The first invalid field begins at `at`.
    NotAStore { disk: Side, at: u64 },
    /// The store, or the export, is another member's.
    Stranger { kept: Member, asked: Member },
    /// The map of the export would have the size `would_be`, above 268,435,456.
    Full { would_be: u64 },
    /// The input isn't two reports; this line is the first at fault, or 0 if the input is too long.
    Report { line: u32 },
    /// That disk isn't empty. Nothing was written to the disks.
    NotEmpty { disk: Side },
    /// The input isn't an export; the field that begins here is the first at fault.
    Export { at: u64 },
    OutOfMemory,
}

/// How a command ended, and its disks.
#[derive(Drop)]
pub struct Worked<D> {
    pub end: ToolEnd,
    pub disks: NodeDisks<D>,
}

impl ToolEnd {
    ghost use Rattle.std.specs.Prelude.{◌≡◌};
    ghost use Rattle.stopped_stores.specs.Ends.{end_of_opening, end_of_reading, end_of_writing, end_of_import};

    /// The end for a refused opening.
    pub(crate) fn of_opening(stop: OpenStop) -> ToolEnd
        ensures { result ≡ end_of_opening stop }
    {
        match stop {
            OpenStop::DiskFault => ToolEnd::DiskFault,
            OpenStop::NotAStore { disk, at } => ToolEnd::NotAStore { disk, at },
            OpenStop::Stranger { kept, asked } => ToolEnd::Stranger { kept, asked },
            OpenStop::OutOfMemory => ToolEnd::OutOfMemory,
        }
    }

    /// The end for a source that couldn't be read.
    pub(crate) fn of_reading(stop: Stop) -> ToolEnd
        ensures { result ≡ end_of_reading stop }
    {
        match stop {
            Stop::Failed => ToolEnd::ReadFault,
            Stop::OutOfMemory => ToolEnd::OutOfMemory,
        }
    }

    /// The end for a text that couldn't be written whole.
    pub(crate) fn of_writing(stop: Stop) -> ToolEnd
        ensures { result ≡ end_of_writing stop }
    {
        match stop {
            Stop::Failed => ToolEnd::WriteFault,
            Stop::OutOfMemory => ToolEnd::OutOfMemory,
        }
    }

    /// How an import ended.
    pub(crate) fn of_import(end: ImportEnd) -> ToolEnd
        ensures { result ≡ end_of_import end }
    {
        match end {
            ImportEnd::Done => ToolEnd::Done,
            ImportEnd::NotEmpty { disk } => ToolEnd::NotEmpty { disk },
            ImportEnd::DiskFault => ToolEnd::DiskFault,
            ImportEnd::OutOfMemory => ToolEnd::OutOfMemory,
        }
    }
}

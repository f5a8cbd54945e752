use map_follower::FollowEnd;
use mon_node::NodeEnd;
use mon_store::OpenStop;
use mon_types::{Member, Side, Which};
use schedule_text::ScheduleKind;
use std::fmt;
use stopped_stores::ToolEnd;

/// How a command ends.
#[derive(Clone, Copy, Debug, PartialEq, Eq)]
pub enum Status {
    /// All was done and written, or the link of a node or a client was closed.
    Done,
    /// The command line is faulty.
    Words,
    /// The schedule is faulty, first at this line. Nothing was run or written.
    Schedule { line: u32, kind: ScheduleKind },
    /// The input couldn't be read. Nothing was run or written.
    ReadFault,
    /// The output couldn't be written. What went out is a prefix of it.
    WriteFault,
    /// A disk failed.
    DiskFault,
    /// The link couldn't receive.
    LinkFault,
    /// That disk holds no store, or none that belongs with the other disk, from this byte on. What the disks
    /// represent is unchanged.
    NotAStore { disk: Side, at: u64 },
    /// The store, or the export, is another monitor's, or of another number of monitors. What the disks represent is unchanged.
    Stranger { kept: Member, asked: Member },
    /// A number of this kind would pass 2^62. A trace was written up to the event that would need the number. Of a
    /// summary nothing was written.
    Spent { which: Which },
    /// The node, or the client, made as many iterations as were asked for.
    TurnsUsed,
    /// The map of a run, of a node or of an export would have the size `would_be`, above 268,435,456. A run wrote what
    /// it writes if it ends with `Spent`. Of an export nothing was done.
    Full { would_be: u64 },
    /// An allocation was refused. What went out is a prefix of the output.
    OutOfMemory,
    /// The input isn't two reports. This line is the first at fault, or 0 if the input is too long. Nothing was written.
    Report { line: u32 },
    /// That disk isn't empty. Nothing was written to the disks.
    NotEmpty { disk: Side },
    /// The input isn't an export. The field that begins at this byte is the first at fault. Nothing was done.
    Export { at: u64 },
}

impl Status {
    ghost use Rattle.std.specs.Prelude.{◌≡◌};
    ghost use Rattle.run_status.specs.Status.{status_number, status_of_opening, status_of_end, status_of_follow, status_of_tool};

    /// The exit status of the program.
    pub fn number(self) -> u8
        ensures { result ≡ status_number self }
    {
        match self {
            Status::Done => 0,
            Status::Words => 2,
            Status::Schedule { .. } => 3,
            Status::ReadFault => 4,
            Status::WriteFault => 5,
            Status::DiskFault => 6,
            Status::LinkFault => 7,
            Status::NotAStore { .. } => 8,
            Status::Stranger { .. } => 9,
            Status::Spent { .. } => 10,
            Status::TurnsUsed => 11,
            Status::OutOfMemory => 12,
            Status::Full { .. } => 13,
            Status::Report { .. } => 14,
            Status::NotEmpty { .. } => 15,
            Status::Export { .. } => 16,
        }
    }

    /// The status of a store that couldn't be opened.
    pub fn of_opening(stop: OpenStop) -> Status
        ensures { result ≡ status_of_opening stop }
    {
        match stop {
            OpenStop::DiskFault => Status::DiskFault,
            OpenStop::NotAStore { disk, at } => Status::NotAStore { disk, at },
            OpenStop::Stranger { kept, asked } => Status::Stranger { kept, asked },
            OpenStop::OutOfMemory => Status::OutOfMemory,
        }
    }

    /// The status of a node that ended.
    pub fn of_end(end: NodeEnd) -> Status
        ensures { result ≡ status_of_end end }
    {
        match end {
            NodeEnd::Closed => Status::Done,
            NodeEnd::TurnsUsed => Status::TurnsUsed,
            NodeEnd::DiskFault => Status::DiskFault,
            NodeEnd::LinkFault => Status::LinkFault,
            NodeEnd::Full { would_be } => Status::Full { would_be },
            NodeEnd::Spent { which } => Status::Spent { which },
            NodeEnd::OutOfMemory => Status::OutOfMemory,
        }
    }

    /// The status of a client that no longer follows.
    pub fn of_follow(end: FollowEnd) -> Status
        ensures { result ≡ status_of_follow end }
    {
        match end {
            FollowEnd::Closed => Status::Done,
            FollowEnd::TurnsUsed => Status::TurnsUsed,
            FollowEnd::LinkFault => Status::LinkFault,
            FollowEnd::WriteFault => Status::WriteFault,
            FollowEnd::OutOfMemory => Status::OutOfMemory,
        }
    }

    /// The status of a command on a stopped store, or of a comparison, that ended.
    pub fn of_tool(end: ToolEnd) -> Status
        ensures { result ≡ status_of_tool end }
    {
        match end {
            ToolEnd::Done => Status::Done,
            ToolEnd::ReadFault => Status::ReadFault,
            ToolEnd::WriteFault => Status::WriteFault,
            ToolEnd::DiskFault => Status::DiskFault,
            ToolEnd::NotAStore { disk, at } => Status::NotAStore { disk, at },
            ToolEnd::Stranger { kept, asked } => Status::Stranger { kept, asked },
            ToolEnd::Full { would_be } => Status::Full { would_be },
            ToolEnd::Report { line } => Status::Report { line },
            ToolEnd::NotEmpty { disk } => Status::NotEmpty { disk },
            ToolEnd::Export { at } => Status::Export { at },
            ToolEnd::OutOfMemory => Status::OutOfMemory,
        }
    }
}

/// A disk's name in a text.
fn disk_name(disk: Side) -> &'static str {
    match disk {
        Side::A => "a",
        Side::B => "b",
    }
}

impl fmt::Display for Status {
    fn fmt<W: fmt::Write>(&self, f: &mut fmt::Formatter<W>) -> fmt::Result {
        match self {
            Status::Done => Ok(()),
            Status::Words => write!(f, "words refused"),
            Status::Schedule { line, kind } => write!(f, "schedule refused: line {line}, {kind}"),
            Status::ReadFault => write!(f, "read fault"),
            Status::WriteFault => write!(f, "write fault"),
            Status::DiskFault => write!(f, "disk fault"),
            Status::LinkFault => write!(f, "link fault"),
            Status::NotAStore { disk, at } => {
                let disk = disk_name(*disk);
                write!(f, "not a store: disk {disk} at {at}")
            }
            Status::Stranger { kept, asked } => {
                let kept_rank = kept.rank.get();
                let kept_monitors = kept.monitors;
                let rank = asked.rank.get();
                let monitors = asked.monitors;
                write!(
                    f,
                    "store of {kept_rank} of {kept_monitors}, asked for {rank} of {monitors}"
                )
            }
            Status::Spent { which } => write!(f, "spent: {which:?}"),
            Status::TurnsUsed => write!(f, "turns used"),
            Status::Full { would_be } => write!(f, "store full: {would_be}"),
            Status::OutOfMemory => write!(f, "out of memory"),
            Status::Report { line } => write!(f, "report refused: line {line}"),
            Status::NotEmpty { disk } => {
                let disk = disk_name(*disk);
                write!(f, "not empty: disk {disk}")
            }
            Status::Export { at } => write!(f, "export refused: {at}"),
        }
    }
}

//! The files and the socket that arguments name, with what is around them: the links of a monitor, the counts of its disks,
//! and lines on standard error.
#![tactic(auto)]

mod devices;
mod living;
mod naming;
mod recording;
mod refused;
mod standard_error;
mod watching;

pub use devices::{Channel, CountedDisk, Devices, FileDisks, devices_of};
pub use living::{FIRST_STANDSTILL, MonitorLives};
pub use naming::MonitorLink;
pub use recording::{MonitorClock, RecordFiles, RecordedLives};
pub use refused::NoDevices;
pub use standard_error::{print, print_of};

//! A monitor's disks: what a crash may leave of them, a disk in memory that can be made to fail, and one that is a
//! file.
#![tactic(auto)]

mod device;
mod disk;
mod faults;
mod file;
mod history;
mod holding;
mod law;
mod memory;
mod node;
mod undoing;
mod unsynced;

pub use device::DeviceFile;
pub use disk::{Disk, DiskCall};
pub use file::FileDisk;
pub use law::law_images;
pub use memory::MemoryDisk;
pub use node::NodeDisks;

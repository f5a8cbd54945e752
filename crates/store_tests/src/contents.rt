use mon_disk::Disk;
use std::alloc::Global;
use std::test::Fail;

/// All bytes of a disk.
pub(crate) fn contents<D: Disk>(alloc: Global, disk: &mut D) -> Result<Vec<u8>, Fail> {
    let length = disk.len()?;
    let mut bytes = vec![in alloc; 0u8; length as usize]?;
    disk.read(0, bytes.as_mut_slice())?;
    Ok(bytes)
}

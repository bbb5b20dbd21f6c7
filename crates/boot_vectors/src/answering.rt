use crate::disk::SECTOR;
use os9_outer::drive::BlockDriver;
use std::alloc::{AllocError, Global};

/// Does each of these drives, which have no image, answer a read? An image of one sector is put into
/// it.
pub(crate) fn are_answering(
    alloc: Global,
    drives: &mut [Box<dyn BlockDriver>],
) -> Result<bool, AllocError> {
    for drive in drives.iter_mut() {
        if !is_answering(alloc, &mut **drive)? {
            return Ok(false);
        }
    }
    Ok(true)
}

fn is_answering(alloc: Global, drive: &mut dyn BlockDriver) -> Result<bool, AllocError> {
    if drive.insert(vec![in alloc; 0u8; SECTOR]?).is_err() || drive.sectors() == 0 {
        return Ok(false);
    }
    let mut bytes = [0; SECTOR];
    Ok(drive.read(0, &mut bytes).is_ok())
}

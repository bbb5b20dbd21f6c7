ghost use Rattle.std.specs.Prelude.{◌≡◌, ℕ, List, Option, IfOk, OnErr, IsSome};
ghost use Rattle.rbf_access.specs.Cached.{IsCacheOf, IsHeldSector};
ghost use Rattle.rbf_access.specs.Drive.{Counts};
ghost use Rattle.rbf_access.specs.Faults.{file_fault};
ghost use Rattle.rbf_access.specs.Mounted.{HasFile, mounted_part};
ghost use Rattle.rbf_write.specs.Files.{IsDescriptorLoaded};

use os9_outer::drive::BlockDriver;
use rbf_access::{FileFault, Volume};
use rbf_sector::{Fd, read_fd};

/// A file whose descriptor has been read: the descriptor's number, bytes and fields.
#[derive(Clone, Copy, Debug)]
pub struct Loaded {
    pub number: u32,
    pub descriptor: [u8; 256],
    pub file: Fd,
}

/// Reads the descriptor of a file.
///
/// # Errors
///
/// `Device` if the drive's read fails.
pub fn load_file(volume: &mut Volume, d: &mut dyn BlockDriver, fd: u32) -> Result<Loaded, FileFault>
    requires file { HasFile (media d.old) fd }
    requires cached { IsCacheOf (media d.old) volume.old.cache }
    ensures ok { IfOk result (IsDescriptorLoaded (media d.old) fd) }
    ensures device { OnErr result (IsSome (file_fault result)) }
    ensures media_kept { media d.new ≡ media d.old }
    ensures volume_kept { mounted_part volume.new ≡ mounted_part volume.old }
    ensures cached { IsCacheOf (media d.new) volume.new.cache }
    ensures counts { Counts BlockDriver-dyn (file_fault result) 1 d.old d.new }
{
    volume.bring(d, fd)?;
    Ok(held_file(volume, fd))
}

// The file of a descriptor that is in the cache. It is built where it is used, not copied there.
#[inline(always)]
pub fn held_file(volume: &Volume, fd: u32) -> Loaded
    requires { IsHeldSector volume.now.cache fd }
    ensures { (media : Option (List ℕ)) → IsCacheOf media volume.now.cache
        → IsDescriptorLoaded media fd result }
{
    let bytes = volume.sector(fd);
    Loaded {
        number: fd,
        descriptor: *bytes,
        file: read_fd(bytes),
    }
}

ghost use Rattle.std.specs.Prelude.{◌≡◌, ◌+◌, ◌≤◌, ℕ, length, OnErr};
ghost use Rattle.rbf_access.specs.Drive.{Counts};
ghost use Rattle.rbf_access.specs.Faults.{file_fault};
ghost use Rattle.rbf_access.specs.Mounted.{IsMounted};
ghost use Rattle.rbf_write.specs.Files.{HasDataFile, OnVolumeFile};
ghost use Rattle.rbf_write.specs.Laying.{laying_of};
ghost use Rattle.rbf_write.specs.Outcomes.{AnswersWrite, IsRefusal, OnMarked, write_calls};

use crate::loaded::held_file;
use crate::{NewBytes, lay_over};
use os9_outer::drive::BlockDriver;
use rbf_access::{FileFault, Volume};

/// Writes bytes to a file that is not a directory. Zeros fill the file between its end and their
/// place. A write that changes the size sets the file's date. A write of no bytes
/// changes nothing and makes no call of the drive (OS-9 System Programmer's Manual, I$Write).
///
/// # Errors
///
/// Without a drive fault, `NoCluster` if and only if fewer clusters are free than the write needs,
/// and `TooManyRuns` if a chosen one does not fit the list of segments: then nothing has changed.
/// `Device` if a call of the drive fails: then the file may have a first part of the bytes, up to
/// the end of a sector and its old size, and clusters may be lost; if the call would have been
/// refused, nothing has changed.
pub fn write_at(
    volume: &mut Volume,
    d: &mut dyn BlockDriver,
    fd: u32,
    write: NewBytes<'_>,
) -> Result<(), FileFault>
    requires mounted { IsMounted volume.old (media d.old) }
    requires file { HasDataFile (media d.old) fd }
    ensures answer { OnVolumeFile (media d.old) fd (λ v file. AnswersWrite v file
        (laying_of fd write.entry) (media d.old) (media d.new) result) }
    ensures refused_calls { OnErr result (IsRefusal result
        → drive_calls d.new ≤ drive_calls d.old + 1) }
    ensures mounted { IsMounted volume.new (media d.new) }
    ensures counts { OnMarked (media d.old) (media d.new) fd result (λ v file marks.
        Counts BlockDriver-dyn (file_fault result)
        (write_calls v file marks write.entry.at (length write.entry.bytes.now)) d.old d.new) }
{
    if write.bytes.is_empty() {
        return Ok(());
    }
    volume.bring(d, fd)?;
    let loaded = held_file(volume, fd);
    lay_over(volume, d, &loaded, write)?;
    Ok(())
}

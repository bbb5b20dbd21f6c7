ghost use Rattle.std.specs.Prelude.{◌≡◌, ◌+◌, ◌≤◌, IsNone, OnErr};
ghost use Rattle.rbf_access.specs.Drive.{Counts};
ghost use Rattle.rbf_access.specs.Faults.{file_fault};
ghost use Rattle.rbf_access.specs.Mounted.{IsMounted};
ghost use Rattle.rbf_write.specs.Files.{HasDataFile, OnVolumeFile};
ghost use Rattle.rbf_write.specs.Outcomes.{OnMarked};
ghost use Rattle.rbf_write.specs.Sizes.{AnswersSize, size_calls};

use crate::shorter::cut;
use crate::{NewBytes, lay_over, load_file};
use os9_base::registers::TimePacket;
use os9_outer::drive::BlockDriver;
use rbf_access::{FileFault, Volume};

/// Sets the size, in bytes, of a file that is not a directory. A longer file gains the clusters
/// that it needs, and zeros are added; a shorter one gives back the clusters that it no longer
/// needs. Either change sets its date. Setting the current size changes nothing (OS-9 System
/// Programmer's Manual, I$SetStt, SS.Size).
///
/// # Errors
///
/// Without a drive fault, `NoCluster` if and only if fewer clusters are free than the size needs,
/// and `TooManyRuns` if a chosen one does not fit the list of segments: then nothing has changed.
/// `Device` if a call of the drive fails: then the file is unchanged, or it has been cut, and
/// clusters may be lost; if the call would have been refused, nothing has changed.
pub fn set_size(
    volume: &mut Volume,
    d: &mut dyn BlockDriver,
    fd: u32,
    size: u32,
    now: TimePacket,
) -> Result<(), FileFault>
    requires mounted { IsMounted volume.old (media d.old) }
    requires file { HasDataFile (media d.old) fd }
    ensures answer { OnVolumeFile (media d.old) fd (λ v file. AnswersSize v file
        (record { number = fd; size = size; now = now })
        (media d.old) (media d.new) result) }
    ensures refused_calls { OnErr result (IsNone (file_fault result)
        → drive_calls d.new ≤ drive_calls d.old + 1) }
    ensures mounted { IsMounted volume.new (media d.new) }
    ensures counts { OnMarked (media d.old) (media d.new) fd result (λ v file marks.
        Counts BlockDriver-dyn (file_fault result) (size_calls v file marks
        (record { number = fd; size = size; now = now })) d.old d.new) }
{
    let loaded = load_file(volume, d, fd)?;
    if size == loaded.file.size {
        return Ok(());
    }
    if size < loaded.file.size {
        return cut(volume, d, &loaded, size, now);
    }
    let write = NewBytes {
        at: size,
        bytes: &[],
        date: now,
    };
    lay_over(volume, d, &loaded, write)
}

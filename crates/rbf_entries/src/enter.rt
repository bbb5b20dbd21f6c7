ghost use Rattle.std.specs.Prelude.{◌≡◌, OnErr, IsSome};
ghost use Rattle.os9_base.specs.declared.registers.TimePacket.{TimePacket};
ghost use Rattle.rbf_access.specs.Drive.{Counts};
ghost use Rattle.rbf_access.specs.Faults.{file_fault};
ghost use Rattle.rbf_access.specs.Mounted.{IsMounted};
ghost use Rattle.rbf_access.specs.Reading.{OnVolumeFile};
ghost use Rattle.rbf_entries.specs.Entries.{MayFill};
ghost use Rattle.rbf_write.specs.Files.{IsDescriptorLoaded};
ghost use Rattle.rbf_entries.specs.Entering.{entry_calls};
ghost use Rattle.rbf_entries.specs.NewEntry.{MayEnter, AnswersEntry, entry_at};

use crate::NewPlace;
use crate::append::append_entry;
use crate::sector::put_entry;
use os9_base::registers::TimePacket;
use os9_outer::drive::BlockDriver;
use rbf_access::{FileFault, Volume};

/// Writes the entry of a new file into its place in a directory whose descriptor has been read: the
/// first free place, or the one after the last entry, for which the directory may gain a cluster.
/// The last sector write brings the file into the volume (OS-9 Technical Reference, Random Block
/// File Manager, "Directories").
///
/// # Errors
///
/// `Device` if an access of the drive fails: then the tree is unchanged, and a cluster may be lost.
pub fn enter_file(
    v: &mut Volume,
    d: &mut dyn BlockDriver,
    found: &NewPlace,
    entry: &[u8; 32],
    now: TimePacket,
) -> Result<(), FileFault>
    requires mounted { IsMounted v.old (media d.old) }
    requires read { IsDescriptorLoaded (media d.old) found.now.dir.number found.now.dir }
    requires place { MayEnter (media d.old) found.now.dir.number found.now.place entry.now }
    ensures answer { OnVolumeFile (media d.old) found.now.dir.number (λ on file.
        AnswersEntry on file (entry_at found.now entry.now now)
        (media d.old) (media d.new) result) }
    ensures device { OnErr result (IsSome (file_fault result)) }
    ensures mounted { IsMounted v.new (media d.new) }
    ensures counts { OnVolumeFile (media d.old) found.now.dir.number (λ on file.
        Counts BlockDriver-dyn (file_fault result) (entry_calls on file) d.old d.new) }
{
    if found.place < found.dir.file.size / 32 {
        fill_place(v, d, found, entry)
    } else {
        append_entry(v, d, found, entry, now)
    }
}

// Writes the entry into a free place.
fn fill_place(
    v: &mut Volume,
    d: &mut dyn BlockDriver,
    found: &NewPlace,
    entry: &[u8; 32],
) -> Result<(), FileFault>
    requires mounted { IsMounted v.old (media d.old) }
    requires read { IsDescriptorLoaded (media d.old) found.now.dir.number found.now.dir }
    requires place { MayFill (media d.old) found.now.dir.number found.now.place entry.now }
    ensures answer { (now : TimePacket)
        → OnVolumeFile (media d.old) found.now.dir.number (λ on file. AnswersEntry on file
        (entry_at found.now entry.now now) (media d.old) (media d.new) result) }
    ensures device { OnErr result (IsSome (file_fault result)) }
    ensures mounted { IsMounted v.new (media d.new) }
    ensures counts { Counts BlockDriver-dyn (file_fault result) 2 d.old d.new }
{
    let lsn = found.dir.file.segs.lsn_of(found.place / 8).unwrap();
    put_entry(v, d, lsn, found.place, entry)
}

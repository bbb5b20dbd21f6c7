ghost use Rattle.std.specs.Prelude.{◌≡◌, ℕ, ◌+◌, ◌*◌, ◌/◌, ◌<◌, ◌≤◌, List, length};
ghost use Rattle.rbf_model.specs.Segments.{sectors_of};
ghost use Rattle.rbf_model.specs.File.{DiskFile};
ghost use Rattle.rbf_model.specs.Volume.{DiskVolume, Vol};
ghost use Rattle.rbf_change.specs.Agrees.{Agrees};
ghost use Rattle.rbf_change.specs.Growth.{clusters_needed};
ghost use Rattle.rbf_access.specs.Mounted.{mounted_part};
ghost use Rattle.rbf_access.specs.Reading.{IsFdOf};
ghost use Rattle.rbf_entries.specs.Rooms.{AnswersRoom};

use rbf_access::{FileFault, Volume};
use rbf_sector::Fd;
use rbf_segs::{MAX_SEGMENTS, Segs};

/// Tests that a volume has room for a new file of `clusters` clusters, with an entry in this place
/// of a directory whose descriptor is given (OS-9 Technical Reference, I$Create and I$MakDir).
///
/// # Errors
///
/// In this order: `NoCluster` if and only if fewer clusters are free than the file and the
/// directory need; `TooManyRuns` if and only if the directory needs a cluster and already has all
/// its segments, even if the cluster would join the last of them.
pub fn check_room(v: &Volume, dir: &Fd, place: u32, clusters: u32) -> Result<(), FileFault>
    requires some { 1 ≤ v.now.ident.cluster }
    requires few { clusters < 65536 }
    ensures { (image : List ℕ) (on : DiskVolume) (file : DiskFile)
        → Agrees (mounted_part v.now) image → Vol image on → IsFdOf file dir.now
        → AnswersRoom on file place clusters result }
{
    let more = clusters_for_place(v.ident.cluster, &dir.segs, place);
    if v.free_count() < clusters + more {
        return Err(FileFault::NoCluster);
    }
    if more > 0 && usize::from(dir.segs.runs()) == MAX_SEGMENTS {
        return Err(FileFault::TooManyRuns);
    }
    Ok(())
}

/// The number of clusters that a directory with these segments still needs to have an entry in a
/// place.
pub fn clusters_for_place(k: u16, segs: &Segs, place: u32) -> u32
    requires { 1 ≤ k }
    ensures count { result ≡ clusters_needed k segs.now (32 * (place + 1)) }
    ensures few { result ≤ place / 8 + 1 }
    ensures few_sectors { length (sectors_of segs.now) ≤ 48 * 65535 }
{
    let missing = (place / 8 + 1).saturating_sub(segs.sectors());
    missing.div_ceil(u32::from(k))
}

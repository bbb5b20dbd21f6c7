ghost use Rattle.std.specs.Prelude.{◌≡◌, ℕ, ◌+◌, ◌-◌, ◌*◌, ◌^◌, ◌<◌, ◌≤◌, not, IfOk, OnErr, IsSome, MatchOption, Some, None, length};
ghost use Rattle.rbf_model.specs.Fields.{is_used};
ghost use Rattle.rbf_change.specs.Contents.{sector_count};
ghost use Rattle.rbf_access.specs.Drive.{Counts};
ghost use Rattle.rbf_access.specs.Faults.{file_fault};
ghost use Rattle.rbf_access.specs.Mounted.{mounted_part, IsMounted};
ghost use Rattle.rbf_walk.specs.Search.{NonePasses, IsFirstMatch, IsFdOn, OnFd, IsSearched, sectors_searched};

use crate::sector::{descriptor_in, entries_in, free_in, named_in};
use os9_base::name::Name;
use os9_outer::drive::BlockDriver;
use rbf_access::{FileFault, Volume};
use rbf_sector::Fd;

/// The result of a search of a directory: the place of the entry with the name, and the descriptor
/// that it names; or, if no entry has the name, the place of the first free entry, which is the one
/// after the last if none is free.
#[derive(Clone, Copy, Debug, PartialEq, Eq)]
pub enum Searched {
    Found { place: u32, descriptor: u32 },
    Absent { free: u32 },
}

/// Searches a directory, whose descriptor is given, for a name; the case of letters is ignored. It
/// makes at most one call of the drive for each sector of the directory up to the one that has the
/// name.
///
/// # Errors
///
/// `Device` if a read of the drive fails.
pub fn search(
    v: &mut Volume,
    d: &mut dyn BlockDriver,
    dir: &Fd,
    name: &Name,
) -> Result<Searched, FileFault>
    requires mounted { IsMounted v.old (media d.old) }
    requires directory { IsFdOn (media d.old) dir.now }
    ensures ok { OnFd (media d.old) dir.now (λ file. IfOk result
        (IsSearched file.contents name.now)) }
    ensures device { OnErr result (IsSome (file_fault result)) }
    ensures mounted { IsMounted v.new (media d.new) }
    ensures media_kept { media d.new ≡ media d.old }
    ensures volume_kept { mounted_part v.new ≡ mounted_part v.old }
    ensures counts { Counts BlockDriver-dyn
        (file_fault result) (sector_count dir.now.size) d.old d.new }
    ensures read { OnFd (media d.old) dir.now (λ file.
        drive_calls d.new ≤ drive_calls d.old + sectors_searched file.contents name.now) }
{
    let entries = dir.size / 32;
    let mut free = None;
    for place in 0..entries.div_ceil(8) {
        let lsn = dir.segs.lsn_of(place).unwrap();
        v.bring(d, lsn)?;
        let bytes = v.sector(lsn);
        let count = entries_in(entries, place);
        if let Some(i) = named_in(bytes, count, name) {
            return Ok(Searched::Found {
                place: 8 * place + i,
                descriptor: descriptor_in(bytes, i),
            });
        }
        free = first_free(free, bytes, count, place);
    }
    Ok(Searched::Absent {
        free: free.unwrap_or(entries),
    })
}

// The first free entry so far: an earlier one, otherwise one of the sector in this place.
fn first_free(before: Option<u32>, sector: &[u8; 256], count: u32, place: u32) -> Option<u32>
    requires few { count ≤ 8 }
    requires low { place < 2 ^ 27 }
    ensures kept { IsSome before → result ≡ before }
    ensures none { before ≡ None → MatchOption result
        (NonePasses (λ entry. not (is_used entry)) sector.now count)
        (λ at. (8 * place ≤ at)
        × IsFirstMatch (λ entry. not (is_used entry)) sector.now count (at - 8 * place)) }
{
    if before.is_some() {
        return before;
    }
    match free_in(sector, count) {
        None => None,
        Some(i) => Some(8 * place + i),
    }
}

ghost use Rattle.std.specs.Prelude.{◌≡◌, ◌+◌, ◌<◌, ◌≤◌, ◌==◌, All, IfOk, length, if◌then◌else◌};
ghost use Rattle.std.specs.List.{range_with_len};
ghost use Rattle.rbf_sector_rules.specs.Files.{IsFileOn, found_numbers};
ghost use Rattle.rbf_sector_rules.specs.Reading.{disk_on};
ghost use Rattle.rbf_model.specs.Geometry.{map_sectors, sector as sector_of};
ghost use Rattle.rbf_model.specs.Segments.{sectors_of};
ghost use Rattle.rbf_model.specs.File.{file_at};
ghost use Rattle.rbf_model.specs.Space.{owned};
ghost use Rattle.rbf_model.specs.Search.{IsReachedOn};
ghost use Rattle.rbf_sector.specs.Ident.{geometry_of};
ghost use Rattle.rbf_check.specs.Survey.{IsSurvey};
ghost use Rattle.rbf_check.specs.Clusters.{NotesClusters, AreUsed, system_count as system_count_of};

use crate::survey::Survey;
use rbf_sector::{Ident, system_sectors};
use rbf_sector_rules::FoundFile;
use rbf_segs::Segs;
use std::alloc::{AllocError, Global};

// Notes the clusters of these sectors as used.
fn note_sectors(used: &mut Vec<bool>, cluster: u32, first: u32, count: u32)
    requires cluster { 0 < cluster }
    requires within { first + count ≤ length used.old.items }
    requires fits { first + count < 4294967296 }
    ensures { NotesClusters cluster (range_with_len first count) used.old.items used.new.items }
{
    for s in first..first + count {
        used[(s / cluster) as usize] = true;
    }
}

// Notes the clusters of a segment list.
fn note_segments(used: &mut Vec<bool>, cluster: u32, segs: &Segs)
    requires cluster { 0 < cluster }
    requires within { All (λ segment. segment.0 + segment.1 ≤ length used.old.items) segs.now }
    ensures { NotesClusters cluster (sectors_of segs.now) used.old.items used.new.items }
{
    for i in 0..segs.runs() {
        let (first, count) = segs.run(i);
        note_sectors(used, cluster, first, u32::from(count));
    }
}

// The number of the system's sectors, which begin at LSN 0, that belong to this file: all if it is
// the root.
fn system_count(ident: &Ident, n: u32) -> u32
    ensures count { result ≡ system_count_of (geometry_of ident.now) n }
    ensures few { result < 1000 }
{
    if n == ident.root {
        u32::from(system_sectors(ident))
    } else {
        0
    }
}

// Notes the clusters of a file, and for the root also those of the system.
fn note_file(used: &mut Vec<bool>, survey: &Survey<'_>, file: &FoundFile)
    requires survey { IsSurvey survey.now }
    requires file { IsFileOn survey.now.image file.now }
    requires reached { IsReachedOn (disk_on survey.now.image) file.now.number }
    requires size { length used.old.items ≡ survey.now.image.ident.total }
    ensures { NotesClusters survey.now.image.ident.cluster
        (owned (geometry_of survey.now.image.ident) file.now.number
        (file_at (sector_of survey.now.image.bytes.now) file.now.number)) used.old.items
        used.new.items }
{
    let cluster = u32::from(survey.image.ident.cluster);
    note_sectors(
        used,
        cluster,
        0,
        system_count(&survey.image.ident, file.number),
    );
    note_sectors(used, cluster, file.number, 1);
    note_segments(used, cluster, &file.fd.segs);
}

/// The clusters that the files use: a mark for each, in a table with one place per sector.
pub fn list_used(alloc: Global, survey: &Survey<'_>) -> Result<Vec<bool>, AllocError>
    requires { IsSurvey survey.now }
    ensures { IfOk result
        (λ used. AreUsed (disk_on survey.now.image) (found_numbers survey.now.files.items)
        used.items) }
{
    let mut used = vec![in alloc; false; survey.image.ident.total as usize]?;
    for file in &survey.files {
        note_file(&mut used, survey, file);
    }
    Ok(used)
}

ghost use Rattle.std.specs.Prelude.{◌≡◌, ◌+◌, ◌/◌, ◌<◌, ◌&&◌, not, IfOk, length};
ghost use Rattle.rbf_sector_rules.specs.Files.{found_numbers};
ghost use Rattle.rbf_sector_rules.specs.Reading.{disk_on};
ghost use Rattle.rbf_model.specs.Geometry.{sector as sector_of};
ghost use Rattle.rbf_model.specs.Space as model;
ghost use Rattle.rbf_model.specs.Volume.{free_clusters, lost_clusters};
ghost use Rattle.rbf_sector.specs.Ident.{geometry_of};
ghost use Rattle.rbf_check.specs.Survey.{IsSurvey};
ghost use Rattle.rbf_check.specs.Clusters.{AreUsed};
ghost use Rattle.rbf_check.specs.VolumeNodes.{volume_from};

use crate::clusters::list_used;
use crate::survey::Survey;
use rbf_sector::Ident;
use rbf_sector_rules::is_marked;
use std::alloc::{AllocError, Global};

/// The numbers of free and of lost clusters.
#[derive(Clone, Copy, Debug)]
pub struct Space {
    pub free: u32,
    pub lost: u32,
}

// Whether the sectors of this cluster are all below the total.
fn is_whole(ident: &Ident, c: u32) -> bool
    ensures { result ≡ model.is_whole (geometry_of ident.now) c }
{
    (u64::from(c) + 1) * u64::from(ident.cluster) <= u64::from(ident.total)
}

fn is_free(survey: &Survey<'_>, c: u32) -> bool
    requires { IsSurvey survey.now }
    ensures { result
        ≡ (model.is_whole (geometry_of survey.now.image.ident) c && not
        (model.is_marked (sector_of survey.now.image.bytes.now) c)) }
{
    is_whole(&survey.image.ident, c) && !is_marked(survey.image.bytes, c)
}

pub fn is_lost(survey: &Survey<'_>, used: &[bool], c: u32) -> bool
    requires survey { IsSurvey survey.now }
    requires used { AreUsed (disk_on survey.now.image) (found_numbers survey.now.files.items)
        used.now }
    ensures { result ≡ (volume_from survey.now).lost c }
{
    is_whole(&survey.image.ident, c) && is_marked(survey.image.bytes, c) && !used[c as usize]
}

// Counts the free and the lost clusters.
fn count_clusters(survey: &Survey<'_>, used: &[bool]) -> Space
    requires survey { IsSurvey survey.now }
    requires used { AreUsed (disk_on survey.now.image) (found_numbers survey.now.files.items)
        used.now }
    ensures free { result.free
        ≡ length (free_clusters (geometry_of survey.now.image.ident) (volume_from survey.now)) }
    ensures lost { result.lost
        ≡ length (lost_clusters (geometry_of survey.now.image.ident) (volume_from survey.now)) }
{
    let clusters = survey
        .image
        .ident
        .total
        .div_ceil(u32::from(survey.image.ident.cluster));
    let mut space = Space { free: 0, lost: 0 };
    for c in 0..clusters {
        space.free += u32::from(is_free(survey, c));
        space.lost += u32::from(is_lost(survey, used, c));
    }
    space
}

/// The numbers of free and of lost clusters of a surveyed image.
pub fn measure_space(alloc: Global, survey: &Survey<'_>) -> Result<Space, AllocError>
    requires { IsSurvey survey.now }
    ensures free { IfOk result
        (λ space. space.free
        ≡ length (free_clusters (geometry_of survey.now.image.ident)
        (volume_from survey.now))) }
    ensures lost { IfOk result
        (λ space. space.lost
        ≡ length (lost_clusters (geometry_of survey.now.image.ident)
        (volume_from survey.now))) }
{
    let used = list_used(alloc, survey)?;
    Ok(count_clusters(survey, &used))
}

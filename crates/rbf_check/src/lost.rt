ghost use Rattle.std.specs.Prelude.{IfErr, IfOk};
ghost use Rattle.rbf_check.specs.Lost.{IsLostOf};
ghost use Rattle.rbf_check.specs.Survey.{IsSurvey};
ghost use Rattle.rbf_check.specs.Clusters.{AreUsed};
ghost use Rattle.rbf_check.specs.Verdict.{IsErrorOf};
ghost use Rattle.rbf_sector_rules.specs.Files.{found_numbers};
ghost use Rattle.rbf_sector_rules.specs.Reading.{disk_on};

use crate::clusters::list_used;
use crate::faults::CheckError;
use crate::space::is_lost;
use crate::survey::{Survey, survey_image};
use std::alloc::{AllocError, Global};

/// Checks an image, and returns the numbers of the clusters that are marked but in no file, by
/// rising number.
///
/// # Errors
///
/// Those of [`crate::check`].
pub fn lost_list(alloc: Global, image: &[u8]) -> Result<Vec<u32>, CheckError>
    ensures list { IfOk result (λ list. IsLostOf image.now list.items) }
    ensures fault { IfErr result (IsErrorOf image.now) }
{
    let survey = survey_image(alloc, image)?;
    let used = list_used(alloc, &survey)?;
    let lost = lost_clusters(alloc, &survey, &used)?;
    Ok(lost)
}

// The lost clusters of a surveyed image.
fn lost_clusters(alloc: Global, survey: &Survey<'_>, used: &[bool]) -> Result<Vec<u32>, AllocError>
    requires survey { IsSurvey survey.now }
    requires used { AreUsed (disk_on survey.now.image) (found_numbers survey.now.files.items)
        used.now }
    ensures { IfOk result (λ list. IsLostOf survey.now.image.bytes.now list.items) }
{
    let clusters = survey
        .image
        .ident
        .total
        .div_ceil(u32::from(survey.image.ident.cluster));
    let mut lost = Vec::new(alloc);
    for c in 0..clusters {
        if is_lost(survey, used, c) {
            lost.push(c)?;
        }
    }
    Ok(lost)
}

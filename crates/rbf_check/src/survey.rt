ghost use Rattle.std.specs.Prelude.{IfErr, IfOk};
ghost use Rattle.rbf_check.specs.Survey.{IsSurveyOf};
ghost use Rattle.rbf_check.specs.Verdict.{IsErrorOf};

use crate::faults::{CheckError, CheckFault, test_rules};
use rbf_sector_rules::{FoundFile, IdentifiedImage, Link, find_files, identify};
use std::alloc::Global;

/// What the rules found in an image that breaks none of them: the files that are reached from the
/// root, and the entries that name them.
#[derive(Debug, Drop)]
pub struct Survey<'a> {
    pub image: IdentifiedImage<'a>,
    pub files: Vec<FoundFile>,
    pub links: Vec<Link>,
}

/// Tests an image against the rules of well formed RBF volumes, and returns what they found.
///
/// # Errors
///
/// `Fault` with the least rule that the image breaks, at the least sector: if and only if the image
/// does not represent a volume, unless out of memory. `OutOfMemory` if out of memory.
pub fn survey_image(alloc: Global, image: &[u8]) -> Result<Survey<'_>, CheckError>
    ensures survey { IfOk result (IsSurveyOf image.now) }
    ensures fault { IfErr result (IsErrorOf image.now) }
{
    let Some(image) = identify(image) else {
        return Err(CheckError::Fault(CheckFault { rule: 1, lsn: 0 }));
    };
    let files = find_files(alloc, &image)?;
    let links = test_rules(alloc, &image, &files)?;
    Ok(Survey {
        image,
        files,
        links,
    })
}

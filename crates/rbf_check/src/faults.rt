ghost use Rattle.std.specs.Prelude.{◌≡◌, None, IfErr, IfOk, OnOk, MatchOption, MatchResult};
ghost use Rattle.rbf_model.specs.Keeps.{Keeps};
ghost use Rattle.rbf_sector_rules.specs.Files.{AreFiles};
ghost use Rattle.rbf_sector_rules.specs.Reading.{disk_on};
ghost use Rattle.rbf_sector_rules.specs.Linked.{AreLinks};
ghost use Rattle.rbf_check.specs.Verdict.{IsLeastError, KeepsBefore};
ghost use Rattle.rbf_check.specs.declared.faults.CheckError.TheVariants.{OutOfMemory};

use crate::{least_badly_named, least_named_again, least_without_dots};
use rbf_sector_rules::{
    FoundFile, IdentifiedImage, Link, OwnRule, least_bad_number, least_breach, least_unmarked,
    least_used_again, list_links, map_breach,
};
use std::alloc::{AllocError, Global};
use thiserror::Error;

/// A broken rule of well formed images, by its number, and the sector that shows it.
#[derive(Clone, Copy, Debug, PartialEq, Eq, Error)]
#[error("rule {rule} at LSN {lsn}")]
pub struct CheckFault {
    pub rule: u8,
    pub lsn: u32,
}

/// Why an image was not surveyed.
#[derive(Clone, Copy, Debug, PartialEq, Eq, Error)]
pub enum CheckError {
    /// The image breaks a rule.
    #[error(transparent)]
    Fault(CheckFault),
    /// Out of memory.
    #[error("no memory")]
    OutOfMemory,
}

impl From<AllocError> for CheckError {
    ghost from_gives = { λ _ error. error ≡ OutOfMemory };

    fn from(_error: AllocError) -> CheckError {
        CheckError::OutOfMemory
    }
}

// Returns an error if there is a breach of the rule.
fn pass(rule: u8, breach: Option<u32>) -> Result<(), CheckError>
    ensures { MatchResult result (λ _. breach ≡ None)
        (λ error. MatchOption breach ⊥
        (λ lsn. error ≡ CheckError.Fault (record { rule = rule; lsn = lsn }))) }
{
    match breach {
        None => Ok(()),
        Some(lsn) => Err(CheckError::Fault(CheckFault { rule, lsn })),
    }
}

// Tests the rules on numbers, the map and each file's sectors and size, 1 to 6.
fn test_files(
    alloc: Global,
    image: &IdentifiedImage<'_>,
    files: &[FoundFile],
) -> Result<(), CheckError>
    requires { AreFiles image.now files.now }
    ensures kept { OnOk result (KeepsBefore (disk_on image.now) 7) }
    ensures broken { IfErr result (IsLeastError (disk_on image.now)) }
{
    pass(1, least_bad_number(alloc, image, files)?)?;
    pass(2, map_breach(image))?;
    pass(3, least_unmarked(alloc, image, files)?)?;
    pass(4, least_used_again(alloc, image, files)?)?;
    pass(5, least_breach(image, files, OwnRule::Room))?;
    pass(6, least_breach(image, files, OwnRule::Size))?;
    Ok(())
}

// Tests the rules on entries and names, 7 to 9, if the others are kept.
fn test_tree(
    alloc: Global,
    image: &IdentifiedImage<'_>,
    files: &[FoundFile],
    links: &[Link],
) -> Result<(), CheckError>
    requires files { AreFiles image.now files.now }
    requires links { AreLinks (disk_on image.now) links.now }
    requires before { KeepsBefore (disk_on image.now) 7 }
    ensures kept { OnOk result (Keeps (disk_on image.now)) }
    ensures broken { IfErr result (IsLeastError (disk_on image.now)) }
{
    pass(7, least_without_dots(alloc, image, files, links)?)?;
    pass(8, least_badly_named(alloc, image, files)?)?;
    pass(9, least_named_again(alloc, image, links)?)?;
    Ok(())
}

/// The links of the files that are found, if no rule is broken.
///
/// # Errors
///
/// The breach of the least broken rule, at the least sector that breaks it.
pub fn test_rules(
    alloc: Global,
    image: &IdentifiedImage<'_>,
    files: &[FoundFile],
) -> Result<Vec<Link>, CheckError>
    requires { AreFiles image.now files.now }
    ensures links { IfOk result (λ links. AreLinks (disk_on image.now) links.items) }
    ensures kept { OnOk result (Keeps (disk_on image.now)) }
    ensures broken { IfErr result (IsLeastError (disk_on image.now)) }
{
    test_files(alloc, image, files)?;
    let links = list_links(alloc, image, files)?;
    test_tree(alloc, image, files, &links)?;
    Ok(links)
}

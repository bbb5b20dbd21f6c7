ghost use Rattle.std.specs.Prelude.{◌≡◌, ℕ, ◌⊎◌, ◌+◌, ◌*◌, ◌<◌, ◌≤◌, length, min, not, MatchOption};
ghost use Rattle.rbf_model.specs.Decides.{Decides};
ghost use Rattle.rbf_model.specs.Fields.{directory_entry, descriptor_field, segments_field, size_field};
ghost use Rattle.rbf_model.specs.File.{has_room};
ghost use Rattle.rbf_model.specs.Geometry.{IsNumber, sector as sector_of};
ghost use Rattle.rbf_model.specs.Tree.{HasEntry};
ghost use Rattle.rbf_sector_rules.specs.Files.{IsFileOn, AreFiles};
ghost use Rattle.rbf_sector_rules.specs.Reading.{disk_on, IsDirectory, listed};
ghost use Rattle.rbf_sector_rules.specs.Rules.{BreaksOwn, BreaksOwnAt, rule_number};
ghost use Rattle.rbf_sector_rules.specs.Least.{IsLeast, IsLeastBreach};

use crate::{FoundFile, IdentifiedImage, least_of};
use rbf_sector::Fd;

/// A rule that a descriptor breaks by itself.
#[derive(Clone, Copy, Debug, PartialEq, Eq)]
pub enum OwnRule {
    /// Rule 5: the segments hold the size.
    Room,
    /// Rule 6: the root is a directory, and a directory has whole entries, at least two.
    Size,
}

// Whether this file breaks the rule.
fn breaks(image: &IdentifiedImage<'_>, rule: OwnRule, file: &FoundFile) -> bool
    requires { IsFileOn image.now file.now }
    ensures { Decides result (BreaksOwn rule (disk_on image.now) file.now.number) }
{
    match rule {
        OwnRule::Room => breaks_room(&file.fd),
        OwnRule::Size => breaks_size(image, file),
    }
}

fn breaks_room(fd: &Fd) -> bool
    ensures { result ≡ not (has_room fd.now.segs fd.now.size) }
{
    u64::from(fd.size) > 256 * u64::from(fd.segs.sectors())
}

fn breaks_size(image: &IdentifiedImage<'_>, file: &FoundFile) -> bool
    requires { IsFileOn image.now file.now }
    ensures { Decides result (BreaksOwn OwnRule.Size (disk_on image.now) file.now.number) }
{
    let fd = &file.fd;
    if fd.attr >> 7 != 1 {
        return file.number == image.ident.root;
    }
    fd.size < 64 || fd.size % 32 != 0
}

// The descriptor, if it breaks the rule.
fn breach_of(image: &IdentifiedImage<'_>, rule: OwnRule, file: &FoundFile) -> Option<u32>
    requires { IsFileOn image.now file.now }
    ensures { IsLeast (BreaksOwnAt rule (disk_on image.now) file.now.number) result }
{
    if breaks(image, rule, file) {
        Some(file.number)
    } else {
        None
    }
}

/// The least found descriptor that breaks the rule. None if the rule is kept.
pub fn least_breach(image: &IdentifiedImage<'_>, files: &[FoundFile], rule: OwnRule) -> Option<u32>
    requires { AreFiles image.now files.now }
    ensures { IsLeastBreach (disk_on image.now) (rule_number rule) result }
{
    let mut least = None;
    for file in files {
        least = least_of(least, breach_of(image, rule, file));
    }
    least
}

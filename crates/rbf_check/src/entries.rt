ghost use Rattle.std.specs.Prelude.{◌≡◌, ◌+◌, ◌<◌, ◌≤◌, IfOk, MatchBool};
ghost use Rattle.rbf_model.specs.Tree.{HasEntryNames, HasDifferentNames};
ghost use Rattle.rbf_sector_rules.specs.Files.{IsFileOn, AreFiles};
ghost use Rattle.rbf_sector_rules.specs.Reading.{disk_on, IsDirectory, listed};
ghost use Rattle.rbf_sector_rules.specs.Least.{IsLeast, IsLeastBreach};
ghost use Rattle.rbf_check.specs.Keys.{AreNamed, IsBadlyNamed, IsBadlyNamedAt};

use crate::keys::{add_key, key_of};
use crate::names::is_text;
use os9_base::name::header_name;
use rbf_sector::read_entry;
use rbf_sector_rules::{
    Directory, FoundFile, IdentifiedImage, directory_of, entry_bytes, least_of,
};
use std::alloc::{AllocError, Global};
use std::collections::BTreeSet;

// Whether the entry is free, or has a proper name that no earlier entry has. The key of the name is
// then added.
fn add_name(
    image: &IdentifiedImage<'_>,
    dir: &Directory,
    keys: &mut BTreeSet<[u8; 29]>,
    i: u32,
) -> Result<bool, AllocError>
    requires directory { IsDirectory image.now dir.now }
    requires after { 2 ≤ i }
    requires within { i < dir.now.entries }
    requires named { AreNamed (listed image.now dir.now.number) keys.old i }
    ensures { IfOk result
        (λ good. MatchBool good
        (AreNamed (listed image.now dir.now.number) keys.new (i + 1))
        (IsBadlyNamed (listed image.now dir.now.number))) }
{
    let entry = read_entry(&entry_bytes(image, dir, i));
    if entry.name[0] == 0 {
        return Ok(true);
    }
    let Ok(name) = header_name(&entry.name) else {
        return Ok(false);
    };
    if is_text(&name, b".") {
        return Ok(false);
    }
    if is_text(&name, b"..") {
        return Ok(false);
    }
    let fresh = add_key(keys, key_of(&name))?;
    Ok(fresh)
}

// Whether the used entries after the first two have proper names that differ.
fn is_well_named(
    alloc: Global,
    image: &IdentifiedImage<'_>,
    dir: &Directory,
) -> Result<bool, AllocError>
    requires { IsDirectory image.now dir.now }
    ensures { IfOk result
        (λ good. MatchBool good
        (HasEntryNames (listed image.now dir.now.number)
        × HasDifferentNames (listed image.now dir.now.number))
        (IsBadlyNamed (listed image.now dir.now.number))) }
{
    let mut keys = BTreeSet::new(alloc);
    for i in 2..dir.entries {
        let good = add_name(image, dir, &mut keys, i)?;
        if !good {
            return Ok(false);
        }
    }
    Ok(true)
}

// The descriptor, if it is that of a directory whose names do not keep that rule.
fn badly_named(
    alloc: Global,
    image: &IdentifiedImage<'_>,
    file: &FoundFile,
) -> Result<Option<u32>, AllocError>
    requires { IsFileOn image.now file.now }
    ensures { IfOk result (IsLeast (IsBadlyNamedAt (disk_on image.now) file.now.number)) }
{
    let dir = directory_of(image, file);
    let good = is_well_named(alloc, image, &dir)?;
    if good {
        return Ok(None);
    }
    Ok(Some(file.number))
}

/// The least directory that breaks rule 8: an entry after the first two has no proper name, or two
/// have the same name, with the case of letters ignored. None if the rule is kept.
///
/// # Errors
///
/// Out of memory.
pub fn least_badly_named(
    alloc: Global,
    image: &IdentifiedImage<'_>,
    files: &[FoundFile],
) -> Result<Option<u32>, AllocError>
    requires { AreFiles image.now files.now }
    ensures { IfOk result (IsLeastBreach (disk_on image.now) 8) }
{
    let mut least = None;
    for file in files {
        let one = badly_named(alloc, image, file)?;
        least = least_of(least, one);
    }
    Ok(least)
}

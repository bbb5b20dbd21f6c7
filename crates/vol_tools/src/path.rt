ghost use Rattle.std.specs.Prelude.{◌≡◌, IfOk, map, option_map};
ghost use Rattle.vol_tools.specs.Path as model;
ghost use Rattle.vol_tools.specs.Names.{if_names};

use crate::name::name_of;
use os9_base::name::Name;
use std::alloc::{AllocError, Global};

/// The names of a path, if it is valid (this project's own): one or more, between slashes.
///
/// # Errors
///
/// `AllocError` if out of memory.
pub fn path_names(alloc: Global, path: &[u8]) -> Result<Option<Vec<Name>>, AllocError>
    ensures { IfOk result
        (λ names. option_map (λ names. names.items) names ≡ model.path_names path.now) }
{
    let parts = parts(alloc, path)?;
    names_of(alloc, &parts)
}

/// The names of the path of a directory (this project's own): no names for `/` alone, which is the
/// root.
///
/// # Errors
///
/// `AllocError` if out of memory.
pub fn directory_names(alloc: Global, path: &[u8]) -> Result<Option<Vec<Name>>, AllocError>
    ensures { IfOk result
        (λ names. option_map (λ names. names.items) names ≡ model.directory_names path.now) }
{
    if path == b"/".as_slice() {
        return Ok(Some(Vec::new(alloc)));
    }
    path_names(alloc, path)
}

// The parts of a text between slashes.
fn parts(alloc: Global, path: &[u8]) -> Result<Vec<&[u8]>, AllocError>
    ensures { IfOk result (λ parts. map (λ part. part.now) parts.items ≡ model.parts path.now) }
{
    path.split(|byte| *byte == b'/').collect(alloc)
}

// The names in these parts, if each is a name.
fn names_of(alloc: Global, parts: &[&[u8]]) -> Result<Option<Vec<Name>>, AllocError>
    ensures { IfOk result (λ names. option_map (λ names. names.items) names
        ≡ if_names (map (λ part. part.now) parts.now)) }
{
    let mut names = Vec::new(alloc);
    for part in parts {
        match name_of(part) {
            Some(name) => names.push(name)?,
            None => return Ok(None),
        }
    }
    Ok(Some(names))
}

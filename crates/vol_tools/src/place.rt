ghost use Rattle.std.specs.Prelude.{◌≡◌, IfOk, option_map};
ghost use Rattle.os9_base.specs.Name.{IsName};
ghost use Rattle.rbf_change.specs.Names.{is_dots as is_dots_model};
ghost use Rattle.vol_tools.specs.Path.{place_of as place_of_model};
ghost use Rattle.vol_tools.specs.Names.{new_place, place};

use crate::path::path_names;
use os9_base::name::Name;
use std::alloc::{AllocError, Global};

/// A name in a directory: the names of the route from the root to the directory, and the name.
#[derive(Debug, Drop)]
pub struct Place {
    pub way: Vec<Name>,
    pub name: Name,
}

/// The place that a path names, if it is valid (this project's own).
///
/// # Errors
///
/// `AllocError` if out of memory.
pub fn place_of(alloc: Global, path: &[u8]) -> Result<Option<Place>, AllocError>
    ensures { IfOk result (λ at. option_map place at ≡ place_of_model path.now) }
{
    let Some(mut way) = path_names(alloc, path)? else {
        return Ok(None);
    };
    match way.pop() {
        Some(name) => Ok(Some(Place { way, name })),
        None => Ok(None),
    }
}

/// The place of a new file that a path names (this project's own). None if the path does not name a
/// place, or its last name is `.` or `..`.
///
/// # Errors
///
/// `AllocError` if out of memory.
pub fn new_place_of(alloc: Global, path: &[u8]) -> Result<Option<Place>, AllocError>
    ensures { IfOk result (λ at. option_map place at ≡ new_place path.now) }
{
    let Some(at) = place_of(alloc, path)? else {
        return Ok(None);
    };
    if is_dots(&at.name) {
        return Ok(None);
    }
    Ok(Some(at))
}

// Whether it is `.` or `..`, which every directory has.
fn is_dots(name: &Name) -> bool
    ensures value { result ≡ is_dots_model name.now }
    ensures name { IsName name.now }
{
    match name.len() {
        1 => name.byte(0) == b'.',
        2 => name.byte(0) == b'.' && name.byte(1) == b'.',
        _ => false,
    }
}

ghost use Rattle.std.specs.Prelude.{◌≡◌, ◌+◌, ◌<◌, None, is_none, option_map, IfOk, IfSome, IsSome, length, drop, position, replicate, slice_index_or};
ghost use Rattle.std.specs.List.{list_any};
ghost use Rattle.io_model.specs.Path as model;
ghost use Rattle.io_model.specs.Path.{inherited_numbers};

use io_model::path::{Desc, PROCESS_PATHS, SysPath};
use std::alloc::{AllocError, Global};

/// Places for descriptors, by number from 0; no system path has the number 0.
const DESC_PLACES: usize = 65;

/// Processes, by number from 0 to 32.
const PROCESSES: usize = 33;

// Places without descriptors.
pub(crate) fn empty_descs(alloc: Global) -> Result<Vec<Option<Desc>>, AllocError>
    ensures { IfOk result (λ descs. descs.items ≡ replicate 65 None) }
{
    let mut descs = Vec::with_capacity(alloc, DESC_PLACES)?;
    'fill: while descs.len() < DESC_PLACES {
        descs.push(None)?;
    }
    Ok(descs)
}

// The numbers of processes without paths.
pub(crate) fn free_numbers(
    alloc: Global,
) -> Result<Vec<[Option<SysPath>; PROCESS_PATHS]>, AllocError>
    ensures { IfOk result (λ own. own.items ≡ replicate 33 (replicate 16 None)) }
{
    let mut own = Vec::with_capacity(alloc, PROCESSES)?;
    'fill: while own.len() < PROCESSES {
        own.push([None; PROCESS_PATHS])?;
    }
    Ok(own)
}

// The least free number of a process.
pub(crate) fn free_number(numbers: &[Option<SysPath>]) -> Option<u8>
    requires { length numbers.now ≡ 16 }
    ensures number { result ≡ position is_none numbers.now }
    ensures place { IfSome result (λ n. n < 16) }
{
    let place = numbers.iter().position(|place| place.is_none())?;
    Some(place as u8)
}

// The least free system path.
pub(crate) fn free_path(descs: &[Option<Desc>]) -> Option<SysPath>
    requires { length descs.now ≡ 65 }
    ensures number { option_map (λ s. s.0) result
        ≡ option_map (λ k. k + 1) (position is_none (drop 1 descs.now)) }
    ensures place { IfSome result (λ s. (0 < s.0) × (s.0 < 65)) }
{
    let place = descs[1..].iter().position(|place| place.is_none())?;
    Some(SysPath((place + 1) as u8))
}

// Is the place an image of this path?
fn is_image(place: &Option<SysPath>, s: SysPath) -> bool
    ensures { result ≡ model.is_image s.0 place.now }
{
    match place {
        None => false,
        Some(path) => *path == s,
    }
}

// Is one of the numbers an image of this path?
pub(crate) fn has_image(numbers: &[Option<SysPath>], s: SysPath) -> bool
    ensures { result ≡ list_any (model.is_image s.0) numbers.now }
{
    numbers.iter().any(|place| is_image(place, s))
}

// Does some process hold this path?
pub(crate) fn is_held(own: &[[Option<SysPath>; PROCESS_PATHS]], s: SysPath) -> bool
    ensures { result ≡ list_any (list_any (model.is_image s.0)) own.now }
{
    own.iter().any(|numbers| has_image(numbers, s))
}

// The numbers that a child gets of these: the first three.
pub(crate) fn inherited(
    numbers: &[Option<SysPath>; PROCESS_PATHS],
) -> [Option<SysPath>; PROCESS_PATHS]
    ensures { result ≡ inherited_numbers numbers.now }
{
    let mut given = [None; PROCESS_PATHS];
    given[..3].copy_from_slice(&numbers[..3]);
    given
}

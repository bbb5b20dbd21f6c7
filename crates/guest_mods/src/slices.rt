ghost use Rattle.std.specs.Prelude.{◌≡◌, ◌<◌, ◌≤◌, ◌++◌, ◌∷◌, [], IfOk};
ghost use Rattle.guest_mods.specs.Random.{slice_lengths};

use crate::random::{draw, next_random, random_at};
use os9_base::call::OutOfMemory;
use std::alloc::Global;

/// The place after which the random numbers of the slices begin; the writes use those up to it.
const WRITES: u32 = 800;

/// The greatest number of instructions of a slice.
const LONGEST_SLICE: u32 = 500;

/// The number of instructions of each slice of the command `stress`, in order, for a seed and a
/// number of slices (this project's own).
///
/// # Errors
///
/// `OutOfMemory` alone.
pub fn stress_slices(alloc: Global, seed: u32, count: u32) -> Result<Vec<u32>, OutOfMemory>
    requires seed { seed < 2147483648 }
    requires count { count ≤ 1000000 }
    ensures { IfOk result (λ slices. slices.items ≡ slice_lengths seed count) }
{
    let mut x = random_at(seed, WRITES);
    let mut slices = Vec::new(alloc);
    for _i in 0..count {
        x = next_random(x);
        push_length(&mut slices, draw(LONGEST_SLICE, x))?;
    }
    Ok(slices)
}

// Adds one length at the end of these.
fn push_length(lengths: &mut Vec<u32>, length: u32) -> Result<(), OutOfMemory>
    ensures { IfOk result (λ _. lengths.new.items ≡ lengths.old.items ++ length ∷ []) }
{
    match lengths.push(length) {
        Ok(()) => Ok(()),
        Err(_) => Err(OutOfMemory),
    }
}

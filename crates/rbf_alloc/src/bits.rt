ghost use Rattle.std.specs.Prelude.{◌≡◌, true, ℕ, ◌/◌, ◌==◌, ◌≤◌};
ghost use Rattle.rbf_alloc.specs.Own.{ClearsIn, in_own, in_stretch};

use crate::own::{OwnSectors, Stretch};

// Clears the marks of a file's clusters in the bytes of the map's sector `place`.
pub fn clear_own(bytes: &mut [u8; 256], own: &OwnSectors, k: u16, place: u16)
    requires { 1 ≤ k }
    ensures { ClearsIn place bytes.old bytes.new (in_own k own.now) }
{
    for i in 0..own.count() {
        clear_stretch(bytes, &own.stretch(i, k, place));
    }
}

// Clears the marks of clusters that follow one another, all in one sector of the map.
fn clear_stretch(bytes: &mut [u8; 256], part: &Stretch)
    ensures { (place : ℕ) → ((c : ℕ) → in_stretch part.now c ≡ true → c / 2048 ≡ place)
        → ClearsIn place bytes.old bytes.new (in_stretch part.now) }
{
    for c in part.first..part.end {
        clear_mark(bytes, c);
    }
}

/// Clears the mark of a cluster in the bytes of the map's sector that has it.
pub fn clear_mark(bytes: &mut [u8; 256], c: u32)
    ensures { ClearsIn (c / 2048) bytes.old bytes.new (λ other. other == c) }
{
    bytes[(c / 8 % 256) as usize] &= !(1 << (7 - c % 8));
}

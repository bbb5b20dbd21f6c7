//! A number in two registers.

ghost use Rattle.std.specs.Prelude.{◌≡◌};
ghost use Rattle.file_rules.specs.Seek as model;

use os9_base::registers::Regs;

/// The number in X, the high half, and U (System Programmer's Manual, I$Seek, and I$SetStt,
/// SS.Size).
pub fn long_of(regs: Regs) -> u32
    ensures { result ≡ model.long_of regs }
{
    65_536 * u32::from(regs.x) + u32::from(regs.u)
}

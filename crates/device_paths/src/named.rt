//! The names of a path list, one by one.

ghost use Rattle.std.specs.Prelude.{◌≡◌, ◌<◌, ℕ, suc, List};
ghost use Rattle.guest_memory.specs.Tie.{IsMemorySame, cells_of};
ghost use Rattle.io_model.specs.PathList.{names_at};
ghost use Rattle.device_paths.specs.Standing.{IsFirstRead, NamesStand, NextIsBehind, name_list, named_by, names_after};

use crate::names::{Step, step_over};
use guest_memory::memory::Memory;
use os9_base::name::Name;
use os9_base::name_fault::NameFault;
use os9_base::registers::Pid;

/// A name of a path list.
#[derive(Clone, Copy, Debug)]
pub struct Named {
    pub name: Name,
    /// The address of the next name, if one follows.
    pub next: Option<u16>,
}

/// Reads the name of a path list at an address of a process (System Programmer's Manual, I$Open).
///
/// # Errors
///
/// `Unreadable` exactly if a byte that must be read is in no named slot or past `FFFF`, else
/// `NoName` exactly if no name is there.
pub fn read_name(memory: &mut Memory, p: Pid, at: u16) -> Result<Named, NameFault>
    requires { p.0 < 33 }
    ensures names { (left : ℕ) → name_list (names_at (cells_of memory.old p.0) at (suc left))
        ≡ names_after (λ next. name_list (names_at (cells_of memory.old p.0) next left)) result }
    ensures first { (names : List (List ℕ)) → NamesStand (cells_of memory.old p.0) at names
        → IsFirstRead (cells_of memory.old p.0) names result }
    ensures up { NextIsBehind at result }
    ensures same { IsMemorySame memory.old memory.new }
{
    let name = memory.name(p, at)?;
    let step = step_over(memory, p, at, &name);
    with_next(name, step)
}

/// The name, with what follows it.
fn with_next(name: Name, step: Result<Step, NameFault>) -> Result<Named, NameFault>
    ensures { result ≡ named_by name step }
{
    match step {
        Err(fault) => Err(fault),
        Ok(Step::Last(_)) => Ok(Named { name, next: None }),
        Ok(Step::Another(next)) => Ok(Named {
            name,
            next: Some(next),
        }),
    }
}

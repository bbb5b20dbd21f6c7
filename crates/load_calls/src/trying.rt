//! Modules of a file, tried one after another.

ghost use Rattle.std.specs.Prelude.{◌≡◌, ℕ, ◌≤◌, List, Option, length};
ghost use Rattle.proc_model.specs.Loading as model;
ghost use Rattle.proc_model.specs.ModuleList.{ModuleEntry};
ghost use Rattle.load_calls.specs.Trying.{AreAlike, TriesModules, entry_refusal_beside};

use crate::namesakes::is_among;
use module_dir::Dir;
use module_format::next_module;
use os9_base::errors::{E_BMCRC, E_BMHP, E_BMID, E_DIRFUL, E_KWNMOD};
use proc_model::module::{ModuleFault, ModuleInfo, ModuleStep};

/// The most modules that are tried: no more can be entered.
const MOST_TRIED: usize = 64;

/// Tries the modules of a file, each by all rules before the next, as if the earlier ones were
/// entered in the directory as one group (System Programmer's Manual, F$Load).
///
/// # Errors
///
/// That of the first refused module: E$BMID, E$BMHP or E$BMCRC if it breaks a rule of its own; else
/// E$KwnMod if it is known, else E$DirFul if no place is left.
pub fn try_modules(dir: &Dir, file: &[u8]) -> Result<(), u8>
    requires short { length file.now ≤ 65536 }
    ensures tried { (entries : List (Option ModuleEntry)) (group : List ℕ)
        → AreAlike dir.now entries → TriesModules file.now group entries result }
{
    let mut tried: [Option<ModuleInfo>; MOST_TRIED] = [None; MOST_TRIED];
    let mut count = 0;
    let mut from = 0;
    loop {
        match next_module(file, from) {
            ModuleStep::End => return Ok(()),
            ModuleStep::Fault(_, fault) => return Err(module_error(fault)),
            ModuleStep::Module(info) => match refusal(dir, &tried, count, &info) {
                Some(number) => return Err(number),
                None => {
                    tried[count] = Some(info);
                    count += 1;
                    from = info.at + u32::from(info.size);
                }
            },
        }
    }
}

/// The number with which the directory refuses a module after `count` tried modules; None if it
/// takes the module.
fn refusal(dir: &Dir, tried: &[Option<ModuleInfo>], count: usize, info: &ModuleInfo) -> Option<u8>
    ensures refusal { result ≡ entry_refusal_beside dir.now tried.now count info.now }
    ensures places { length dir.now ≡ 64 }
{
    if dir.knows(info) || is_among(tried, info) {
        Some(E_KWNMOD)
    } else if usize::from(dir.room()) <= count {
        Some(E_DIRFUL)
    } else {
        None
    }
}

/// The error of a module that breaks a rule of its own.
fn module_error(fault: ModuleFault) -> u8
    ensures { result ≡ model.module_error fault }
{
    match fault {
        ModuleFault::BadSync => E_BMID,
        ModuleFault::BadParity => E_BMHP,
        ModuleFault::BadCrc => E_BMCRC,
    }
}

//! The modules of a boot file, one after another.

ghost use Rattle.std.specs.Prelude.{◌≡◌, ◌+◌, ◌<◌, ◌≤◌, None, Some, OnOk, IfOk, IfErr, IfSome, IfNone, length};
ghost use Rattle.proc_model.specs.Loading as model;
ghost use Rattle.proc_model.specs.Loading.{entry_refusal};
ghost use Rattle.proc_model.specs.Module.{step_from};
ghost use Rattle.proc_model.specs.declared.module.ModuleFault.{ModuleFault};

use machine_model::ends::BootFault;
use module_dir::Dir;
use module_format::next_module;
use os9_base::errors::{E_BMCRC, E_BMHP, E_BMID, E_DIRFUL, E_KWNMOD};
use os9_base::limits::MOST_GROUP_BYTES;
use proc_model::module::{ModuleFault, ModuleInfo, ModuleStep};
use thiserror::Error;

/// A refused module: where it begins, and the number of the error.
#[derive(Clone, Copy, Debug, PartialEq, Eq, Error)]
#[error("module {error} at {at}")]
pub struct Refusal {
    pub at: u32,
    pub error: u8,
}

impl From<Refusal> for BootFault {
    ghost use Rattle.machine_model.specs.declared.ends.BootFault.TheVariants.{BadModule};

    ghost from_gives = { λ refusal fault. fault ≡ BadModule refusal.at refusal.error };

    fn from(refusal: Refusal) -> BootFault {
        BootFault::BadModule(refusal.at, refusal.error)
    }
}

/// The next module in a file from a place on, if there is one.
///
/// # Errors
///
/// The module breaks a rule of its own: of the header, the parity or the CRC.
pub fn module_from(file: &[u8], from: u32) -> Result<Option<ModuleInfo>, Refusal>
    requires short { length file.now ≤ MOST_GROUP_BYTES }
    requires within { from ≤ length file.now }
    ensures module { IfOk result (λ step. IfSome step (λ info. step_from file.now from
        ≡ ModuleStep.Module info)) }
    ensures end { IfOk result (λ step. IfNone step (step_from file.now from ≡ ModuleStep.End)) }
    ensures fault { IfErr result (λ refusal. (fault : ModuleFault)
        × (step_from file.now from ≡ ModuleStep.Fault refusal.at fault)
        × (refusal.error ≡ model.module_error fault)) }
    ensures in_file { IfOk result (λ step. IfSome step
        (λ info. info.at + info.size ≤ length file.now)) }
{
    match next_module(file, from) {
        ModuleStep::Module(info) => Ok(Some(info)),
        ModuleStep::End => Ok(None),
        ModuleStep::Fault(at, fault) => Err(Refusal {
            at,
            error: module_error(fault),
        }),
    }
}

/// The error of a module that breaks a rule of its own.
fn module_error(fault: ModuleFault) -> u8
    ensures { result ≡ model.module_error fault }
{
    match fault {
        ModuleFault::BadSync => E_BMID,
        ModuleFault::BadParity => E_BMHP,
        ModuleFault::BadCrc => E_BMCRC,
    }
}

/// Does the directory take a module?
///
/// # Errors
///
/// E$KwnMod exactly if the module is known, else E$DirFul exactly if no place is left.
pub fn takes(modules: &Dir, info: &ModuleInfo) -> Result<(), Refusal>
    ensures taken { OnOk result (entry_refusal modules.now info.now ≡ None) }
    ensures refused { IfErr result (λ refusal. (refusal.at ≡ info.now.at)
        × (entry_refusal modules.now info.now ≡ Some refusal.error)) }
{
    let at = info.at;
    if modules.knows(info) {
        return Err(Refusal {
            at,
            error: E_KWNMOD,
        });
    }
    if modules.room() == 0 {
        return Err(Refusal {
            at,
            error: E_DIRFUL,
        });
    }
    Ok(())
}

//! Links to modules, counted over all processes.

ghost use Rattle.std.specs.Prelude.{◌≡◌, IsSome, map};
ghost use Rattle.guest_memory.specs.Tie.{modules_of};
ghost use Rattle.proc_model.specs.ModuleList.{module_entry_at};
ghost use Rattle.proc_model.specs.Processes.{Processes};
ghost use Rattle.proc_model.specs.ModuleLinks as model;
ghost use Rattle.proc_model.specs.ModuleLinks.{without_module_link};
ghost use Rattle.proc_state.specs.Tie.{RepresentsProcesses};

use crate::state::ProcState;
use module_dir::Dir;
use proc_model::module::ModId;
use proc_model::own::Own;

impl ProcState {
    /// Gives up one link of an entered module, if it has one (F$UnLink, F$UnLoad). If its group
    /// leaves memory with it, no process has a primary module of the group any more.
    pub fn unlink_module(&mut self, id: ModId)
        requires { IsSome (module_entry_at (modules_of self.old.memory) id.0) }
        ensures tied { (m : Processes) → RepresentsProcesses self.old m
            → RepresentsProcesses self.new (without_module_link m id.0) }
        ensures records { self.new.table ≡ self.old.table }
    {
        self.memory.unlink(id);
        keep_entered(&mut self.own, self.memory.modules());
    }
}

/// Removes from each process a primary module that is not entered.
fn keep_entered(owns: &mut [Own], modules: &Dir)
    ensures { owns.new ≡ map (model.still_primary modules.now) owns.old }
{
    for own in owns.iter_mut() {
        *own = still_primary(*own, modules);
    }
}

/// The data of a process without a primary module that is not entered.
fn still_primary(own: Own, modules: &Dir) -> Own
    ensures { result ≡ model.still_primary modules.now own }
{
    match own.primary {
        Some(id) if !modules.is_entered(id) => Own {
            primary: None,
            ..own
        },
        _ => own,
    }
}

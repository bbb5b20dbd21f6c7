//! The end of a process.

ghost use Rattle.std.specs.Prelude.{◌≡◌, IsSome};
ghost use Rattle.std.specs.Option.{ForSome};
ghost use Rattle.guest_memory.specs.Tie.{modules_of};
ghost use Rattle.proc_model.specs.ModuleList.{module_entry_at};
ghost use Rattle.proc_model.specs.Records.{IsLiving};
ghost use Rattle.proc_model.specs.End.{ended, without_process};
ghost use Rattle.proc_model.specs.Processes.{Processes, no_own};
ghost use Rattle.proc_model.specs.ModuleLinks.{without_primary_link};
ghost use Rattle.proc_state.specs.Tie.{RepresentsProcesses};

use crate::state::ProcState;
use os9_base::registers::Pid;
use proc_model::own::Own;

/// The data of a process that does not exist.
pub(crate) const NO_OWN: Own = Own {
    size: 0,
    primary: None,
    links: [0; 8],
    call: None,
    until: None,
    woken: false,
};

impl ProcState {
    /// Ends a process with this status (F$Exit): it gives up one link of its primary module and its
    /// whole map, and has no turn any more. Its parent may wait for its status.
    pub fn end(&mut self, p: Pid, status: u8)
        requires { IsLiving self.old.table p.0 }
        ensures { (m : Processes) → RepresentsProcesses self.old m
            → RepresentsProcesses self.new (ended m p.0 status) }
    {
        let own = self.own(p);
        self.unlink_primary(own);
        self.leave(p, status);
    }

    /// Gives up the link of a process with this data to its primary module, if it has one.
    pub fn unlink_primary(&mut self, own: Own)
        requires { ForSome own.primary
            (λ id. IsSome (module_entry_at (modules_of self.old.memory) id.0)) }
        ensures tied { (m : Processes) → RepresentsProcesses self.old m
            → RepresentsProcesses self.new (without_primary_link m own) }
        ensures records { self.new.table ≡ self.old.table }
    {
        if let Some(id) = own.primary {
            self.unlink_module(id);
        }
    }

    /// A process does not live any more, and has nothing.
    fn leave(&mut self, p: Pid, status: u8)
        requires { IsLiving self.old.table p.0 }
        ensures { (m : Processes) → RepresentsProcesses self.old m
            → RepresentsProcesses self.new (without_process m p.0 status) }
    {
        self.memory.clear(p);
        self.table.exit(p, status);
        self.sched.remove(p);
        self.own[p.0 as usize] = NO_OWN;
    }
}

//! The first process (this project's own: number 2, without a parent, the superuser's).

ghost use Rattle.std.specs.Prelude.{◌≡◌, None, IsSome, option_map};
ghost use Rattle.std.specs.Option.{ForSome};
ghost use Rattle.guest_memory.specs.Tie.{modules_of};
ghost use Rattle.proc_model.specs.Memory.{MemoryState};
ghost use Rattle.proc_model.specs.MemoryChanges.{started};
ghost use Rattle.proc_model.specs.ModuleList.{ModuleEntry, module_entry_at};
ghost use Rattle.proc_model.specs.Program.{area_pages as area_pages_model, blocks_of_pages};
ghost use Rattle.machine_model.specs.ProcessStart.{first_process, first_program as first_program_model};
ghost use Rattle.proc_state.specs.Tie.{RepresentsProcesses};
ghost use Rattle.cold_start.specs.Beginning.{HasNobody, BeginsFirstProcess, nobody_in, with_first};

use fork_calls::loading::load_program;
use fork_calls::naming::area_pages;
use fork_calls::program::NamedProgram;
use fork_calls::starting::Beginning;
use module_dir::Dir;
use os9_base::name::parse_name;
use os9_base::registers::Pid;
use proc_model::module::ModId;
use proc_state::state::ProcState;

/// The number of the first process.
const FIRST: Pid = Pid(2);
/// The number that means no parent.
const NO_PARENT: Pid = Pid(0);
/// The user that may act on every process.
const SUPERUSER: u16 = 0;
/// The priority of the first process.
const FIRST_PRIORITY: u8 = 128;
/// The type and the language of a program in 6809 code.
const PROGRAM: u8 = 0x11;

/// The first program among the entered modules: `SysGo`, in 6809 code.
pub fn first_program(modules: &Dir) -> Option<ModId>
    ensures { option_map (λ id. id.0) result ≡ first_program_model modules.now }
{
    let name = parse_name(b"SysGo").ok()?;
    modules.find(&name, PROGRAM)
}

/// Begins the first process, with the program of an entered module and without parameters. No
/// process has begun yet.
///
/// # Errors
///
/// The number of an error, if there are too few blocks or slots for the data area and the group of
/// the program. Nothing has changed then.
pub fn begin(processes: &mut ProcState, id: ModId) -> Result<(), u8>
    requires nobody { HasNobody processes.old }
    requires entered { IsSome (module_entry_at (modules_of processes.old.memory) id.0) }
    ensures begun { (memory : MemoryState) (entry : ModuleEntry)
        → RepresentsProcesses processes.old (nobody_in memory)
        → module_entry_at memory.modules id.0 ≡ Some entry
        → BeginsFirstProcess (started memory first_process.0 id.0
        (blocks_of_pages (area_pages_model entry 0 0))) id.0 entry result processes.new }
{
    let info = processes.memory.info(id);
    let program = NamedProgram {
        id,
        pages: area_pages(info.storage, 0, 0),
        parameters: 0,
        count: 0,
    };
    let start = load_program(processes, FIRST, program)?;
    add_first(processes, start);
    Ok(())
}

/// Makes the first process, with this beginning.
fn add_first(processes: &mut ProcState, start: Beginning)
    requires nobody { HasNobody processes.old }
    requires entered { ForSome start.own.primary
        (λ id. IsSome (module_entry_at (modules_of processes.old.memory) id.0)) }
    requires until { start.own.until ≡ None }
    ensures { (memory : MemoryState) → RepresentsProcesses processes.old (nobody_in memory)
        → RepresentsProcesses processes.new (with_first memory start) }
{
    processes.set_own(FIRST, start.own);
    let made = processes
        .make(NO_PARENT, SUPERUSER, FIRST_PRIORITY)
        .unwrap();
    processes.set_regs(made, start.regs);
}

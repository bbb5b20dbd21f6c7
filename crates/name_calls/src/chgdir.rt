//! I$ChgDir.

ghost use Rattle.std.specs.Prelude.{◌≡◌, List, Ok, Err, length, vec_len, if◌then◌else◌};
ghost use Rattle.file_rules.specs.ChgDir as model;
ghost use Rattle.file_rules.specs.declared.path_call.PathCall.TheVariants as Call;
ghost use Rattle.file_state.specs.Counted.{AttemptsWithin};
ghost use Rattle.file_state.specs.Tie.{AreSoundFiles};
ghost use Rattle.file_state.specs.Context.{InFirstAttempt};
ghost use Rattle.name_calls.specs.ListCalls.{i_chgdir_calls};
ghost use Rattle.name_calls.specs.ChgDir.{looks_for_directory};
ghost use Rattle.name_calls.specs.Kept.{KeepsAllButDisks};
ghost use Rattle.name_calls.specs.Locating.{IsLocated};
ghost use Rattle.name_calls.specs.Looks.{LooksFrom};
ghost use Rattle.os9_base.specs.declared.registers.TimePacket.{TimePacket};
ghost use Rattle.os9_outer.specs.TerminalState.{TerminalState};
ghost use Rattle.proc_state.specs.Tie.{AreProcessesSame};
ghost use Rattle.rbf_access.specs.Reading.{IsFdOf};
ghost use Rattle.rbf_model.specs.File.{DiskFile};
ghost use Rattle.file_drives.specs.Drives.{drives_seen};
ghost use Rattle.io_state.specs.Context.{InCall, SameTerminals};
ghost use Rattle.file_state.specs.Context.{machine_seen};

use crate::finding::Lookup;
use crate::locating::locate;
use crate::open_modes::{is_for_execution, is_mode};
use device_table::devices::Devices;
use file_routes::route::{Located, mode_refusal};
use file_state::machine::Machine;
use io_state::ends::{answer, refuse};
use io_state::requester::Requester;
use os9_base::call::CallEnd;
use os9_base::errors::E_FNA;
use os9_base::registers::Regs;
use os9_outer::drive::BlockDriver;
use rbf_sector::Fd;
use rbf_walk::may;

/// I$ChgDir: changes a directory of the process (System Programmer's Manual, I$ChgDir). Takes the
/// mode in A and the address of the path list in X; returns X past the list. It changes the
/// execution directory if the mode is for execution, else the data directory.
///
/// # Errors
///
/// E$BPAddr exactly if a byte of the path list that has to be read is in no named slot or past
/// `FFFF`; else E$BMode exactly if the mode has none of read, write and execute; else those of the
/// list; else E$FNA exactly if the list names a terminal or a pipe; else those of the walk; else
/// E$FNA exactly if the file is not a directory or may not be used so. The number of the fault, if
/// the drive fails. No directory has changed then.
pub fn i_chgdir(machine: &mut Machine, devices: &mut Devices, by: Requester) -> CallEnd
    requires calls { InFirstAttempt by machine.old }
    requires sound { AreSoundFiles machine.old.files (drives_seen BlockDriver-box devices.old) }
    ensures call { (now : TimePacket) (terms : List TerminalState)
        → length terms ≡ vec_len devices.old.terms
        → AttemptsWithin i_chgdir_calls Call.ChgDir now by.p.0 result terms terms
        (machine_seen BlockDriver-box machine.old devices.old)
        (machine_seen BlockDriver-box machine.new devices.new) }
    ensures kept { SameTerminals by machine.new.processes devices.old devices.new }
{
    match find_directory(machine, devices, by) {
        Err(number) => refuse(&mut machine.files.io, by.p, number),
        Ok(located) => {
            let x = (located.next % 65_536) as u16;
            let regs = Regs { x, ..by.regs };
            let end = answer(&mut machine.processes, &mut machine.files.io, by.p, regs);
            let execute = is_for_execution(by.regs.a);
            machine.files.set_directory(by.p, execute, located.place);
            end
        }
    }
}

/// Finds the new directory of a process.
///
/// # Errors
///
/// As `i_chgdir`.
fn find_directory(
    machine: &mut Machine,
    devices: &mut Devices,
    by: Requester,
) -> Result<Located, u8>
    requires calls { InCall by machine.old.processes }
    requires sound { AreSoundFiles machine.old.files (drives_seen BlockDriver-box devices.old) }
    ensures finds { LooksFrom IsLocated looks_for_directory i_chgdir_calls by.p.0
        (vec_len devices.old.terms) result (machine_seen BlockDriver-box machine.old devices.old)
        (machine_seen BlockDriver-box machine.new devices.new) }
    ensures rest_kept { KeepsAllButDisks machine.old.files machine.new.files }
    ensures same { AreProcessesSame machine.old.processes machine.new.processes }
    ensures kept { SameTerminals by machine.new.processes devices.old devices.new }
{
    let mode = by.regs.a;
    let user = machine.processes.table.user(by.p);
    let refusal = mode_refusal(is_mode(mode));
    let lookup = Lookup {
        execute: is_for_execution(mode),
        refusal,
    };
    match locate(machine, devices, by, lookup) {
        Err(number) => Err(number),
        Ok(located) => match machine.files.disks.fd(devices, located.place) {
            Err(fault) => Err(fault.number()),
            Ok(fd) => if_directory(&fd, user, mode, located),
        },
    }
}

/// The located file, if a user may go to the file of this descriptor with this mode.
///
/// # Errors
///
/// E$FNA exactly if the user may not.
fn if_directory(fd: &Fd, user: u16, mode: u8, located: Located) -> Result<Located, u8>
    ensures { (file : DiskFile) → IsFdOf file fd.now
        → result ≡ (if model.may_go_to file user mode then Ok located else Err E_FNA) }
{
    if fd.attr >> 7 == 1 && may(fd, user, mode) {
        Ok(located)
    } else {
        Err(E_FNA)
    }
}

//! I$Delete and I$DeletX.

ghost use Rattle.std.specs.Prelude.{◌≡◌, List, length, vec_len};
ghost use Rattle.io_state.specs.Context.{InCall, SameTerminals};
ghost use Rattle.file_state.specs.Context.{machine_seen};
ghost use Rattle.file_drives.specs.Drives.{drives_seen};
ghost use Rattle.file_drives.specs.Mounted.{HasFileAt};
ghost use Rattle.file_rules.specs.Delete.{deletes_by};
ghost use Rattle.file_rules.specs.declared.path_call.PathCall.TheVariants as Call;
ghost use Rattle.file_state.specs.Counted.{AttemptsWithin};
ghost use Rattle.file_state.specs.Tie.{AreSoundFiles};
ghost use Rattle.file_state.specs.Context.{InFirstAttempt};
ghost use Rattle.name_calls.specs.ListCalls.{deletes_by_calls, i_delete_calls, i_deletx_calls};
ghost use Rattle.name_calls.specs.Delete.{DeletesIn};
ghost use Rattle.name_calls.specs.Kept.{KeepsAllButDisks};
ghost use Rattle.name_calls.specs.Tries.{TriesNameCallFrom};
ghost use Rattle.file_routes.specs.Routes.{refuses_by};
ghost use Rattle.os9_base.specs.declared.registers.TimePacket.{TimePacket};
ghost use Rattle.os9_outer.specs.TerminalState.{TerminalState};
ghost use Rattle.proc_state.specs.Tie.{AreProcessesSame};

use crate::ends::end_call;
use crate::finding::{Lookup, Search};
use crate::naming::{LastLocated, locate_last};
use crate::open_modes::{is_for_execution, is_mode};
use device_table::devices::Devices;
use file_routes::route::{Purpose, mode_refusal};
use file_state::machine::Machine;
use file_state::state::FileState;
use io_state::requester::Requester;
use lock_model::place::FilePlace;
use os9_base::call::CallEnd;
use os9_base::errors::E_SHARE;
use os9_outer::drive::BlockDriver;
use rbf_walk::Searcher;

/// I$Delete: deletes a file (System Programmer's Manual, I$Delete). Takes the address of the path
/// list in X; returns X past the list. The list starts at the data directory of the process, if it
/// names no device.
///
/// # Errors
///
/// E$BPAddr exactly if a byte of the path list that has to be read is in no named slot or past
/// `FFFF`; else those of the list; else E$FNA exactly if it names a terminal, a pipe or the root of
/// a drive; else those of the walk to the directory; else E$FNA exactly if the user may not change
/// that directory, E$PNNF exactly if the name is not there, E$FNA exactly if it names a directory
/// or a file that the user may not write, E$Share exactly if a path is on the file. The number of
/// the fault, if the drive fails.
pub fn i_delete(machine: &mut Machine, devices: &mut Devices, by: Requester) -> CallEnd
    requires calls { InFirstAttempt by machine.old }
    requires sound { AreSoundFiles machine.old.files (drives_seen BlockDriver-box devices.old) }
    ensures call { (now : TimePacket) (terms : List TerminalState)
        → length terms ≡ vec_len devices.old.terms
        → AttemptsWithin i_delete_calls Call.Delete now by.p.0 result terms terms
        (machine_seen BlockDriver-box machine.old devices.old)
        (machine_seen BlockDriver-box machine.new devices.new) }
    ensures kept { SameTerminals by machine.new.processes devices.old devices.new }
{
    let lookup = Lookup {
        execute: false,
        refusal: None,
    };
    let came = delete_named(machine, devices, by, lookup);
    end_call(machine, by, came)
}

/// I$DeletX: deletes a file (System Programmer's Manual, I$DeletX). Takes a mode in A and the
/// address of the path list in X; returns X past the list. A list that names no device starts at
/// the execution directory of the process if the mode is for execution, else at its data directory.
/// The mode is not tested on the file.
///
/// # Errors
///
/// As `i_delete`, with E$BMode exactly if the mode has none of read, write and execute, after
/// E$BPAddr and before all others.
pub fn i_deletx(machine: &mut Machine, devices: &mut Devices, by: Requester) -> CallEnd
    requires calls { InFirstAttempt by machine.old }
    requires sound { AreSoundFiles machine.old.files (drives_seen BlockDriver-box devices.old) }
    ensures call { (now : TimePacket) (terms : List TerminalState)
        → length terms ≡ vec_len devices.old.terms
        → AttemptsWithin i_deletx_calls Call.DeletX now by.p.0 result terms terms
        (machine_seen BlockDriver-box machine.old devices.old)
        (machine_seen BlockDriver-box machine.new devices.new) }
    ensures kept { SameTerminals by machine.new.processes devices.old devices.new }
{
    let mode = by.regs.a;
    let refusal = mode_refusal(is_mode(mode));
    let lookup = Lookup {
        execute: is_for_execution(mode),
        refusal,
    };
    let came = delete_named(machine, devices, by, lookup);
    end_call(machine, by, came)
}

/// Deletes the file that the path list at X names, and returns the address just past the list.
///
/// # Errors
///
/// As `i_deletx`, with the call's refusal in place of E$BMode.
fn delete_named(
    machine: &mut Machine,
    devices: &mut Devices,
    by: Requester,
    lookup: Lookup,
) -> Result<u32, u8>
    requires calls { InCall by machine.old.processes }
    requires sound { AreSoundFiles machine.old.files (drives_seen BlockDriver-box devices.old) }
    ensures tries { (now : TimePacket) → TriesNameCallFrom
        (λ asker was terms. deletes_by asker was terms lookup.execute (refuses_by lookup.refusal))
        (deletes_by_calls lookup.execute) now by.p.0 (vec_len devices.old.terms) result
        (machine_seen BlockDriver-box machine.old devices.old)
        (machine_seen BlockDriver-box machine.new devices.new) }
    ensures io_kept { machine.new.files.io ≡ machine.old.files.io }
    ensures same { AreProcessesSame machine.old.processes machine.new.processes }
    ensures kept { SameTerminals by machine.new.processes devices.old devices.new }
{
    let user = machine.processes.table.user(by.p);
    let searcher = Searcher {
        user,
        execute: lookup.execute,
    };
    let search = Search {
        purpose: Purpose::Existing,
        lookup,
    };
    match locate_last(machine, devices, by, search) {
        Err(number) => Err(number),
        Ok(located) => delete_in(&mut machine.files, devices, located, searcher),
    }
}

/// Deletes the file with the last name of a path list in the directory that was found, and returns
/// the address just past the list.
///
/// # Errors
///
/// In this order: E$FNA exactly if the user may not change the directory, E$PNNF exactly if the
/// name is not there, E$FNA exactly if it names a directory or a file that the user may not write,
/// E$Share exactly if a path is on the file. The number of the fault, if the drive fails.
fn delete_in(
    files: &mut FileState,
    devices: &mut Devices,
    located: LastLocated,
    by: Searcher,
) -> Result<u32, u8>
    requires { HasFileAt files.old.disks (drives_seen BlockDriver-box devices.old)
        located.last.directory }
    ensures deletes { DeletesIn by.user by.execute located
        files.old (drives_seen BlockDriver-box devices.old) result
        files.new (drives_seen BlockDriver-box devices.new) }
    ensures rest_kept { KeepsAllButDisks files.old files.new }
    ensures terms_kept { devices.new.terms ≡ devices.old.terms }
{
    let last = located.last;
    match files
        .disks
        .find_deletable(devices, last.directory, &last.name, by)
    {
        Err(error) => Err(error.number()),
        Ok(found) => {
            let place = FilePlace {
                drive: last.directory.drive,
                number: found.descriptor,
            };
            if files.is_open(place) {
                Err(E_SHARE)
            } else {
                match files.disks.delete_at(devices, last.directory, &found) {
                    Err(fault) => Err(fault.number()),
                    Ok(()) => Ok(located.next),
                }
            }
        }
    }
}

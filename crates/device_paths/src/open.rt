//! Calls that open paths.

ghost use Rattle.std.specs.Prelude.{◌≡◌, ◌<◌, not, None, Ok, IfOk, IsErr, List, length, vec_len};
ghost use Rattle.os9_outer.specs.TerminalState.{TerminalState};
ghost use Rattle.proc_model.specs.Records.{IsLiving};
ghost use Rattle.proc_model.specs.Processes.{Processes};
ghost use Rattle.io_model.specs.Attempts.{caller_of};
ghost use Rattle.io_model.specs.Io.{Io, pending_at};
ghost use Rattle.io_model.specs.Lead.{lead_of};
ghost use Rattle.io_model.specs.Open.{opens, opens_lead};
ghost use Rattle.io_model.specs.PathList.{PathList};
ghost use Rattle.io_model.specs.Step.{Caller, refuses};
ghost use Rattle.io_model.specs.declared.io_call.IoCall.TheVariants as Call;
ghost use Rattle.io_state.specs.Attempt.{IoAttempted};
ghost use Rattle.device_paths.specs.Openings.{begun, opens_found, opens_at};
ghost use Rattle.device_paths.specs.Places.{search_of, lead_to, allows, IsPlaceInRange};
ghost use Rattle.device_paths.specs.Quiet.{EndsIoAttempt};
ghost use Rattle.device_paths.specs.Listed.{listed};
ghost use Rattle.proc_state.specs.Tie.{RepresentsProcesses, AreProcessesSame};

use crate::list::Listed;
use crate::lists::read_list;
use crate::places::{Place, Search, place_of};
use device_table::devices::Devices;
use io_model::path::PathsFull;
use io_state::ends::{answer, refuse};
use io_state::state::IoState;
use os9_base::call::CallEnd;
use os9_base::errors::{E_BMODE, E_BPADDR, E_BPNAM, E_PTHFUL};
use os9_base::name_fault::NameFault;
use os9_base::registers::{Pid, Regs};
use proc_state::state::ProcState;

/// What a path list names.
#[derive(Clone, Copy, Debug, PartialEq, Eq)]
pub struct Found {
    /// The place at which a path can be opened.
    pub place: Place,
    /// The address just past the path list.
    pub next: u32,
}

/// I$Open: opens a path (System Programmer's Manual, I$Open). Takes the mode in A and the address
/// of the path list in X; returns the number of the new path, the least free one, in A, and X past
/// the list. Each opening of `/PIPE` makes a new pipe.
///
/// # Errors
///
/// E$BPAddr exactly if a byte of the path list that must be read is in no named slot or past
/// `FFFF`, else E$BMode exactly if the mode has none of read, write and execute, else E$BPNam
/// exactly if there is no name where one is required, or a slash follows the name of a terminal or
/// a pipe. Else E$PNNF exactly if the list does not start at a device, E$MNF exactly if its device
/// does not exist or is a drive, and E$PthFul exactly if the process's sixteen numbers, the 64
/// system paths or, for a pipe, the sixteen pipes are in use. A refused call changes nothing.
pub fn i_open(s: &mut ProcState, io: &mut IoState, p: Pid, devices: &Devices) -> CallEnd
    requires lives { IsLiving s.old.table p.0 }
    requires first { pending_at io.old p.0 ≡ None }
    ensures call { (m : Processes) (terms : List TerminalState) → RepresentsProcesses s.old m
        → length terms ≡ vec_len devices.now.terms
        → IoAttempted Call.Open m io.old (vec_len devices.now.drives) p.0 result s.new io.new
        terms terms }
    ensures lives { IsLiving s.new.table p.0 }
{
    open(s, io, p, devices, Search::Existing)
}

/// I$Create: makes a file (System Programmer's Manual, I$Create); for a terminal or a pipe it opens
/// a path. Takes the mode in A and the address of the path list in X; returns as I$Open does.
///
/// # Errors
///
/// As I$Open, but E$BMode exactly if the mode lacks write, and E$BPNam also if the last name is
/// that of a directory itself or of its parent, or if the list is the root of a drive.
pub fn i_create(s: &mut ProcState, io: &mut IoState, p: Pid, devices: &Devices) -> CallEnd
    requires lives { IsLiving s.old.table p.0 }
    requires first { pending_at io.old p.0 ≡ None }
    ensures call { (m : Processes) (terms : List TerminalState) → RepresentsProcesses s.old m
        → length terms ≡ vec_len devices.now.terms
        → IoAttempted Call.Create m io.old (vec_len devices.now.drives) p.0 result s.new io.new
        terms terms }
    ensures lives { IsLiving s.new.table p.0 }
{
    open(s, io, p, devices, Search::New)
}

/// Opens a path at the place to which the path list at X leads, with the mode in A.
fn open(s: &mut ProcState, io: &mut IoState, p: Pid, devices: &Devices, search: Search) -> CallEnd
    requires lives { IsLiving s.old.table p.0 }
    requires first { pending_at io.old p.0 ≡ None }
    ensures call { (m : Processes) → RepresentsProcesses s.old m
        → EndsIoAttempt (opens (search_of search) (allows search (caller_of m p.0).regs.a)
        (caller_of m p.0) io.old (vec_len devices.now.drives) (vec_len devices.now.terms))
        m io.old p.0 result s.new io.new }
    ensures lives { IsLiving s.new.table p.0 }
{
    match find(s, p, devices, search) {
        Err(number) => refuse(io, p, number),
        Ok(found) => open_at(s, io, p, found),
    }
}

/// What the path list at X names, if the mode in A is allowed.
///
/// # Errors
///
/// The number of the refusal.
fn find(s: &mut ProcState, p: Pid, devices: &Devices, search: Search) -> Result<Found, u8>
    requires lives { IsLiving s.old.table p.0 }
    ensures found { (m : Processes) (io : Io) → RepresentsProcesses s.old m
        → opens (search_of search) (allows search (caller_of m p.0).regs.a)
        (caller_of m p.0) io (vec_len devices.now.drives) (vec_len devices.now.terms)
        ≡ opens_found (caller_of m p.0) io result }
    ensures there { IfOk result (λ found. IsPlaceInRange found.place) }
    ensures same { AreProcessesSame s.old s.new }
{
    let regs = s.regs(p);
    match read_list(s, p, regs.x) {
        Err(NameFault::Unreadable) => Err(E_BPADDR),
        Err(NameFault::NoName) => if_allowed(search, regs.a, Err(E_BPNAM)),
        Ok(list) => if_allowed(search, regs.a, find_by(devices, search, &list)),
    }
}

/// What was found, if a path may be opened with this mode.
///
/// # Errors
///
/// E$BMode exactly if it may not, else the number of the refusal.
fn if_allowed(search: Search, mode: u8, found: Result<Found, u8>) -> Result<Found, u8>
    ensures found { (caller : Caller) (io : Io) → opens_found caller io result
        ≡ refuses (not (allows search mode)) E_BMODE (opens_found caller io found) }
    ensures there { IfOk found (λ it. IsPlaceInRange it.place)
        → IfOk result (λ it. IsPlaceInRange it.place) }
{
    if search.allows(mode) {
        found
    } else {
        Err(E_BMODE)
    }
}

/// What a path list names.
///
/// # Errors
///
/// The number of the refusal.
fn find_by(devices: &Devices, search: Search, list: &Listed) -> Result<Found, u8>
    ensures found { (named : PathList) (caller : Caller) (io : Io) → list.now ≡ listed named
        → opens_lead caller io named (lead_of (search_of search) (vec_len devices.now.drives)
        (vec_len devices.now.terms) named) ≡ opens_found caller io result }
    ensures there { IfOk result (λ found. IsPlaceInRange found.place) }
{
    match place_of(search, devices, list) {
        Err(number) => Err(number),
        Ok(place) => Ok(Found {
            place,
            next: list.next,
        }),
    }
}

/// Opens a path on what was found, with the mode in A.
fn open_at(s: &mut ProcState, io: &mut IoState, p: Pid, found: Found) -> CallEnd
    requires lives { IsLiving s.old.table p.0 }
    requires first { pending_at io.old p.0 ≡ None }
    requires there { IsPlaceInRange found.place }
    ensures call { (m : Processes) → RepresentsProcesses s.old m
        → EndsIoAttempt (opens_at (caller_of m p.0) io.old found) m io.old p.0 result s.new io.new }
    ensures lives { IsLiving s.new.table p.0 }
{
    let regs = s.regs(p);
    match begin(io, p, found.place, regs.a) {
        Err(PathsFull) => refuse(io, p, E_PTHFUL),
        Ok(a) => {
            let x = (found.next % 65_536) as u16;
            answer(s, io, p, Regs { a, x, ..regs })
        }
    }
}

/// Opens a path of a process with this mode, and returns its number.
///
/// # Errors
///
/// `PathsFull` if no number, no path or no pipe is free. Nothing changes then.
fn begin(io: &mut IoState, p: Pid, place: Place, mode: u8) -> Result<u8, PathsFull>
    requires process { p.0 < 33 }
    requires there { IsPlaceInRange place }
    ensures begun { (caller : Caller) (list : PathList) → caller.process.0 ≡ p.0
        → caller.regs.a ≡ mode
        → opens_lead caller io.old list (lead_to (Ok place)) ≡ begun result caller list io.new }
    ensures kept { IsErr result → io.new ≡ io.old }
    ensures calls { io.new.calls ≡ io.old.calls }
{
    match place {
        Place::Terminal(terminal) => io.begin_terminal(p, terminal, mode),
        Place::Pipe => io.begin_pipe(p, mode),
    }
}

//! Calls on names.

ghost use Rattle.std.specs.Prelude.{◌≡◌, ◌<◌, IfNone, IfSome};
ghost use Rattle.os9_base.specs.Name.{lower as lower_model};
ghost use Rattle.proc_model.specs.Records.{IsLiving};
ghost use Rattle.proc_model.specs.CmpNam.{f_cmpnam as f_cmpnam_model, agrees as agrees_model, same_names as same_names_model};
ghost use Rattle.proc_model.specs.Processes.{Processes, cells_at, regs_at};
ghost use Rattle.proc_model.specs.PrsNam.{f_prsnam as f_prsnam_model, past_slash as past_slash_model, parses_name as parses_name_model};
ghost use Rattle.guest_memory.specs.Tie.{cells_of};
ghost use Rattle.proc_state.specs.Tie.{RepresentsProcesses, ReturnsCallEnd};

use guest_memory::memory::Memory;
use os9_base::call::CallEnd;
use os9_base::errors::{E_BNAM, E_BPADDR};
use os9_base::name_fault::NameFault;
use os9_base::registers::{Pid, Regs};
use proc_state::state::ProcState;

/// F$PrsNam: parses the name at the address in X, and skips one slash before it (System
/// Programmer's Manual, F$PrsNam). Returns the address of its first character in X, the address
/// after its last one in Y, its length in B, and the byte at Y in A.
///
/// # Errors
///
/// E$BPAddr exactly if a byte that has to be read is in no named slot or past `FFFF`, else E$BNam
/// exactly if the bytes are not a name; else E$BPAddr exactly if the byte at Y is missing.
pub fn f_prsnam(s: &mut ProcState, p: Pid) -> CallEnd
    requires lives { IsLiving s.old.table p.0 }
    ensures call { (m : Processes) → RepresentsProcesses s.old m
        → ReturnsCallEnd m p.0 (f_prsnam_model m p.0) result s.new }
    ensures lives { IsLiving s.new.table p.0 }
{
    let regs = s.table.regs(p);
    match past_slash(&s.memory, p, regs.x) {
        None => CallEnd::Error(E_BPADDR),
        Some(first) => parses_name(s, p, first),
    }
}

/// Parses the name at this address.
fn parses_name(s: &mut ProcState, p: Pid, first: u16) -> CallEnd
    requires lives { IsLiving s.old.table p.0 }
    ensures call { (m : Processes) → RepresentsProcesses s.old m
        → ReturnsCallEnd m p.0 (parses_name_model m p.0 first) result s.new }
    ensures lives { IsLiving s.new.table p.0 }
{
    let regs = s.table.regs(p);
    match s.memory.name(p, first) {
        Err(NameFault::Unreadable) => CallEnd::Error(E_BPADDR),
        Err(NameFault::NoName) => CallEnd::Error(E_BNAM),
        Ok(name) => {
            let b = name.len();
            let Some(a) = s.memory.byte(p, first, b as u16) else {
                return CallEnd::Error(E_BPADDR);
            };
            let x = first;
            let y = first + b as u16;
            s.set_regs(p, Regs { a, b, x, y, ..regs });
            CallEnd::Done
        }
    }
}

/// The address after one slash, if there is one; None if it would be past `FFFF`.
fn past_slash(memory: &Memory, p: Pid, at: u16) -> Option<u16>
    requires { p.0 < 33 }
    ensures some { IfSome result
        (λ first. past_slash_model (cells_of memory.now p.0) at ≡ first) }
    ensures none { IfNone result (past_slash_model (cells_of memory.now p.0) at ≡ 65536) }
{
    match memory.byte(p, at, 0) {
        Some(b'/') => at.checked_add(1),
        _ => Some(at),
    }
}

/// F$CmpNam: compares two names, regardless of the case of letters (System Programmer's Manual,
/// F$CmpNam). Takes the length of the first name in B, its address in X, and the address of the
/// second one, whose last character has bit 7, in Y. The bytes are read pair by pair until the
/// result is known.
///
/// # Errors
///
/// E$BPAddr exactly if a byte that has to be read is in no named slot or past `FFFF`, else E$BNam
/// exactly if the names differ or B is 0.
pub fn f_cmpnam(s: &mut ProcState, p: Pid) -> CallEnd
    requires lives { IsLiving s.old.table p.0 }
    ensures call { (m : Processes) → RepresentsProcesses s.old m
        → ReturnsCallEnd m p.0 (f_cmpnam_model m p.0) result s.new }
    ensures lives { IsLiving s.new.table p.0 }
{
    match compares(s, p) {
        None => CallEnd::Error(E_BPADDR),
        Some(false) => CallEnd::Error(E_BNAM),
        Some(true) => CallEnd::Done,
    }
}

/// Does the name at X, of the length in B, agree with that at Y? None if a byte that has to be read
/// is missing.
fn compares(s: &ProcState, p: Pid) -> Option<bool>
    requires lives { IsLiving s.now.table p.0 }
    ensures { (m : Processes) → RepresentsProcesses s.now m → result
        ≡ same_names_model (cells_at m p.0) (regs_at m p.0).x (regs_at m p.0).y (regs_at m p.0).b }
{
    let regs = s.table.regs(p);
    same_names(&s.memory, p, regs.x, regs.y, regs.b)
}

/// Does the first name, of this length, agree with the second one? None if a byte that has to be
/// read is missing.
fn same_names(memory: &Memory, p: Pid, one: u16, other: u16, length: u8) -> Option<bool>
    requires { p.0 < 33 }
    ensures { result ≡ same_names_model (cells_of memory.now p.0) one other length }
{
    for place in 0..length {
        let a = memory.byte(p, one, place as u16)?;
        let b = memory.byte(p, other, place as u16)?;
        if !agrees(a, b) {
            return Some(false);
        }
        if b >= 128 {
            return Some(place + 1 == length);
        }
    }
    Some(false)
}

/// Does a character of the first name agree with one of the second name?
fn agrees(one: u8, other: u8) -> bool
    ensures { result ≡ agrees_model one other }
{
    lower(one) == lower(other % 128)
}

/// A letter in lower case, or any other character unchanged.
fn lower(character: u8) -> u8
    ensures { result ≡ lower_model character }
{
    if character >= b'A' && character <= b'Z' {
        character + 32
    } else {
        character
    }
}

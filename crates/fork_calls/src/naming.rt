//! The names of programs, and what they name.

ghost use Rattle.std.specs.Prelude.{◌≡◌, ℕ, ◌*◌, ◌<◌, ◌≤◌, IsSome, IfOk, MatchResult};
ghost use Rattle.guest_memory.specs.Tie.{RepresentsMemory, IsMemorySame, modules_of, cells_of, seen_cells};
ghost use Rattle.os9_base.specs.Name.{is_name_character as is_name_character_model};
ghost use Rattle.proc_model.specs.Memory.{MemoryState};
ghost use Rattle.proc_model.specs.ModuleList.{ModuleEntry, module_entry_at};
ghost use Rattle.proc_model.specs.Program.{program_name, name_of_run as name_of_run_model, ends_in_slash as ends_in_slash_model, asks_for_program as asks_for_program_model, area_pages as area_pages_model};
ghost use Rattle.fork_calls.specs.Naming.{IsProgramFound, IsUnfound};

use guest_memory::memory::Memory;
use os9_base::errors::{E_BNAM, E_MNF, E_NEMOD};
use os9_base::name::{Name, parse_name};
use os9_base::registers::Pid;
use proc_calls::program::PAGE_BYTES;
use proc_model::module::ModId;
use proc_model::program_name::ProgramName;

/// The type and language of a program in 6809 code (Level Two manual, "Memory modules").
const PROGRAM: u8 = 0x11;

/// The type of a program, in any language.
const ANY_PROGRAM: u8 = 0x10;

/// Reads what the bytes at an address of a process name (System Programmer's Manual, F$Fork and
/// F$Chain): at most 30 bytes of a run of name characters, and the byte after a `/` that ends it.
pub fn read_name(memory: &mut Memory, p: Pid, at: u16) -> ProgramName
    requires { p.0 < 33 }
    ensures name { (m : MemoryState) → RepresentsMemory memory.old m
        → result ≡ program_name (seen_cells m p.0) at }
    ensures same { IsMemorySame memory.old memory.new }
{
    let mut run = [0; 30];
    let Some(count) = memory.name_run(p, at, &mut run) else {
        return ProgramName::Unreadable;
    };
    let bytes = &run[..count];
    if !ends_in_slash(bytes) {
        return name_of_run(bytes);
    }
    match memory.byte(p, at, count as u16) {
        None => ProgramName::Unreadable,
        Some(byte) if is_name_character(byte % 128) => ProgramName::PathList,
        Some(_) => name_of_run(bytes),
    }
}

/// The name that the bytes of a run are, if they are one.
fn name_of_run(bytes: &[u8]) -> ProgramName
    ensures { result ≡ name_of_run_model bytes.now }
{
    match parse_name(bytes) {
        Ok(name) => ProgramName::OneName(name),
        Err(_) => ProgramName::PathList,
    }
}

/// A letter, a digit, `_` or `.`.
fn is_name_character(character: u8) -> bool
    ensures { result ≡ is_name_character_model character }
{
    matches!(character, b'a'..=b'z' | b'A'..=b'Z' | b'0'..=b'9' | b'_' | b'.')
}

/// Do the bytes end in a slash?
fn ends_in_slash(bytes: &[u8]) -> bool
    ensures { result ≡ ends_in_slash_model bytes.now }
{
    match bytes.last() {
        Some(byte) => *byte == b'/',
        None => false,
    }
}

/// The entered program with a name and this type and language, and the length of the name.
///
/// # Errors
///
/// E$NEMod if the call does not ask for a program, else E$BNam if there is no name, else E$MNF if
/// no such module is entered, else E$NEMod if the module is not a program in 6809 code.
pub fn find_program(memory: &Memory, kind: u8, name: Option<Name>) -> Result<(ModId, u8), u8>
    ensures found { (m : MemoryState) → RepresentsMemory memory.now m
        → MatchResult result (λ found. IsProgramFound m.modules kind name found.0.0 found.1)
        (IsUnfound m.modules kind name) }
    ensures entered { IfOk result
        (λ found. IsSome (module_entry_at (modules_of memory.now) found.0.0)) }
{
    if !asks_for_program(kind) {
        return Err(E_NEMOD);
    }
    let Some(name) = name else {
        return Err(E_BNAM);
    };
    let Some(id) = memory.modules().find(&name, kind) else {
        return Err(E_MNF);
    };
    if memory.info(id).kind != PROGRAM {
        return Err(E_NEMOD);
    }
    Ok((id, name.len()))
}

/// May a call ask for this type and language: any, a program in any language, or in 6809 code?
fn asks_for_program(kind: u8) -> bool
    ensures { result ≡ asks_for_program_model kind }
{
    matches!(kind, 0 | ANY_PROGRAM | PROGRAM)
}

/// The pages of a new data area: at least one, those of the module's storage, those that the call
/// asks for, and those of the parameters.
pub fn area_pages(storage: u16, pages: u8, parameters: u16) -> u16
    ensures pages { (entry : ModuleEntry) → entry.info.storage ≡ storage
        → result ≡ area_pages_model entry pages parameters }
    ensures some { 1 ≤ result }
    ensures most { result ≤ 256 }
    ensures fits { parameters ≤ 256 * result }
{
    let stored = storage.div_ceil(PAGE_BYTES);
    let passed = parameters.div_ceil(PAGE_BYTES);
    stored.max(u16::from(pages).max(passed)).max(1)
}

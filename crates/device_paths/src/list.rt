//! Path lists.

ghost use Rattle.std.specs.Prelude.{◌≡◌, ◌+◌, ◌<◌, ◌≤◌, Ok, MatchOption, length};
ghost use Rattle.os9_base.specs.Cells.{Cells};
ghost use Rattle.guest_memory.specs.Tie.{IsMemorySame, cells_of};
ghost use Rattle.io_model.specs.PathList.{PathList, path_list, device_list, relative_list, names_from, behind};
ghost use Rattle.device_paths.specs.Listed.{listed, listed_of, listed_by, listed_with, tails};
ghost use Rattle.device_paths.specs.Standing.{NamesFrom};
ghost use Rattle.device_paths.specs.Tail.{step_by};

use crate::names::{Step, Tail, read_tail, step_over};
use guest_memory::memory::Memory;
use os9_base::name::Name;
use os9_base::name_fault::NameFault;
use os9_base::registers::Pid;

/// What a path list says about the place to which it leads.
#[derive(Clone, Copy, Debug)]
pub struct Listed {
    /// The name of the device at which it starts, if it names one.
    pub device: Option<Name>,
    /// Names are looked up after that.
    pub has_names: bool,
    /// The last of them names a directory itself or its parent.
    pub dots: bool,
    /// A slash follows the last name.
    pub slash: bool,
    /// The address just past the list.
    pub next: u32,
}

impl Listed {
    /// The address of the first name that is looked up, for a list at this address. None exactly if
    /// no name is looked up.
    pub fn first_name(&self, at: u16) -> Option<u16>
        ensures { (cells : Cells) (list : PathList) → path_list cells at ≡ Ok list
            → self.now ≡ listed list → NamesFrom cells result list.names }
    {
        if !self.has_names {
            return None;
        }
        match &self.device {
            None => Some(at),
            Some(device) => behind_device(at, device.len()),
        }
    }
}

/// The address of the first name after that of the device, which has this length. None exactly if
/// it would be past `FFFF`.
fn behind_device(at: u16, len: u8) -> Option<u16>
    ensures { MatchOption result (65536 ≤ at + len + 2) (λ first. first ≡ at + len + 2) }
{
    at.checked_add(u16::from(len) + 2)
}

/// Reads the path list at an address of a process (System Programmer's Manual, I$Open): names with
/// slashes between them. After a leading slash the first name is that of a device.
///
/// # Errors
///
/// `Unreadable` exactly if a byte that must be read is in no named slot or past `FFFF`, else
/// `NoName` exactly if there is no name where one is required.
pub fn read_path_list(memory: &mut Memory, p: Pid, at: u16) -> Result<Listed, NameFault>
    requires { p.0 < 33 }
    ensures list { result ≡ listed_of (path_list (cells_of memory.old p.0) at) }
    ensures same { IsMemorySame memory.old memory.new }
{
    match memory.byte(p, at, 0) {
        None => Err(NameFault::Unreadable),
        Some(b'/') => read_behind_slash(memory, p, at),
        Some(_) => read_relative(memory, p, at),
    }
}

/// Reads the list that starts at a device, after the slash at this address.
fn read_behind_slash(memory: &mut Memory, p: Pid, at: u16) -> Result<Listed, NameFault>
    requires { p.0 < 33 }
    ensures list { result
        ≡ listed_of (device_list (names_from (cells_of memory.old p.0) (at + 1))) }
    ensures same { IsMemorySame memory.old memory.new }
{
    if at == u16::MAX {
        return Err(NameFault::Unreadable);
    }
    read_from_device(memory, p, at + 1)
}

/// Reads the list whose first name is the name of a device.
fn read_from_device(memory: &mut Memory, p: Pid, at: u16) -> Result<Listed, NameFault>
    requires { p.0 < 33 }
    ensures list { result ≡ listed_of (device_list (names_from (cells_of memory.old p.0) at)) }
    ensures same { IsMemorySame memory.old memory.new }
{
    match memory.name(p, at) {
        Err(fault) => Err(fault),
        Ok(device) => read_behind_device(memory, p, at, device),
    }
}

/// Reads what follows the name of this device.
fn read_behind_device(
    memory: &mut Memory,
    p: Pid,
    at: u16,
    device: Name,
) -> Result<Listed, NameFault>
    requires { p.0 < 33 }
    ensures list { result ≡ listed_by device (tails (cells_of memory.old p.0))
        (step_by device (at + length device)
        (behind (cells_of memory.old p.0) (at + length device))) }
    ensures same { IsMemorySame memory.old memory.new }
{
    match step_over(memory, p, at, &device)? {
        Step::Another(next) => with_names(Some(device), read_tail(memory, p, next)),
        Step::Last(tail) => Ok(Listed {
            device: Some(device),
            has_names: false,
            dots: false,
            slash: tail.slash,
            next: tail.next,
        }),
    }
}

/// Reads the list that starts at no device.
fn read_relative(memory: &mut Memory, p: Pid, at: u16) -> Result<Listed, NameFault>
    requires { p.0 < 33 }
    ensures list { result ≡ listed_of (relative_list (names_from (cells_of memory.old p.0) at)) }
    ensures same { IsMemorySame memory.old memory.new }
{
    with_names(None, read_tail(memory, p, at))
}

/// The list that starts at this device, or at none, and whose names have this tail.
fn with_names(device: Option<Name>, tail: Result<Tail, NameFault>) -> Result<Listed, NameFault>
    ensures { result ≡ listed_with device tail }
{
    let tail = tail?;
    Ok(Listed {
        device,
        has_names: true,
        dots: tail.dots,
        slash: tail.slash,
        next: tail.next,
    })
}

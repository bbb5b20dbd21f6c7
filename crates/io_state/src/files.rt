//! Paths on files and directories of drives.

ghost use Rattle.std.specs.Prelude.{◌≡◌, ◌<◌, ◌&&◌, true, Some, IfSome, IsSome, is_some};
ghost use Rattle.std.specs.Result.{result_ok};
ghost use Rattle.io_model.specs.Path.{desc_of, new_number, paths_after_begin, with_desc};
ghost use Rattle.io_model.specs.Io.{new_desc as new_desc_model, with_paths};
ghost use Rattle.io_model.specs.Modes.{has_bit_of as has_bit_of_model};
ghost use Rattle.io_state.specs.Files.{IsOnDisk, is_of_file as is_of_file_model, is_path_on as is_path_on_model, some_path_on};

use crate::state::{IoState, new_desc};
use io_model::path::{Desc, PathsFull, SysPath, Target};
use os9_base::registers::Pid;

impl IoState {
    /// The number that a new path of a process gets; None if its sixteen numbers or the 64 system
    /// paths are in use.
    pub fn next_number(&self, p: Pid) -> Option<u8>
        requires { p.0 < 33 }
        ensures { result ≡ new_number self.now.paths p.0 }
    {
        self.paths.next_number(p)
    }

    /// Opens a path of a process on a file or a directory. It gets the least free number of the
    /// process.
    ///
    /// # Errors
    ///
    /// `PathsFull` if the process's sixteen numbers or the 64 system paths are in use. A refused
    /// call changes nothing.
    pub fn begin_on_disk(&mut self, p: Pid, target: Target, mode: u8) -> Result<u8, PathsFull>
        requires process { p.0 < 33 }
        requires disk { IsOnDisk target }
        ensures number { result_ok result ≡ new_number self.old.paths p.0 }
        ensures io { self.new ≡ with_paths self.old
            (paths_after_begin self.old.paths p.0 (new_desc_model target mode)) }
    {
        self.paths.begin(p, new_desc(target, mode))
    }

    /// Sets the position of a path, in bytes (System Programmer's Manual, I$Seek).
    pub fn set_position(&mut self, path: SysPath, at: u32)
        requires { IsSome (desc_of self.old.paths path.0) }
        ensures { IfSome (desc_of self.old.paths path.0) (λ desc. self.new ≡ with_paths self.old
            (with_desc self.old.paths path.0 (Some (record desc { at = at })))) }
    {
        let desc = moved_to(self.paths.desc(path), at);
        self.paths.set_desc(path, desc);
    }

    /// Sets how many ticks the requests of a path wait for a record (SS.Ticks).
    pub fn set_ticks(&mut self, path: SysPath, ticks: u16)
        requires { IsSome (desc_of self.old.paths path.0) }
        ensures { IfSome (desc_of self.old.paths path.0) (λ desc. self.new ≡ with_paths self.old
            (with_desc self.old.paths path.0 (Some (record desc { ticks = ticks })))) }
    {
        let desc = with_ticks(self.paths.desc(path), ticks);
        self.paths.set_desc(path, desc);
    }

    /// Is this system path there?
    pub fn is_there(&self, path: SysPath) -> bool
        ensures { result ≡ is_some (desc_of self.now.paths path.0) }
    {
        match self.paths.descs().get(path.0 as usize) {
            Some(desc) => desc.is_some(),
            None => false,
        }
    }

    /// Is some path on the file or directory of this number of a drive?
    pub fn is_on_path(&self, drive: u8, number: u32) -> bool
        ensures { result ≡ some_path_on self.now drive number (λ desc. true) }
    {
        self.paths
            .descs()
            .iter()
            .any(|desc| is_path_on(drive, number, desc))
    }

    /// Has some path on the file or directory of this number of a drive a mode with one of these
    /// bits?
    pub fn is_on_path_of_mode(&self, drive: u8, number: u32, bits: u8) -> bool
        ensures { result
            ≡ some_path_on self.now drive number (λ desc. has_bit_of_model bits desc.mode) }
    {
        self.paths
            .descs()
            .iter()
            .any(|desc| is_path_of_mode_on(drive, number, bits, desc))
    }
}

/// A path's descriptor with another position.
fn moved_to(desc: Desc, at: u32) -> Desc
    ensures { result ≡ record desc { at = at } }
{
    Desc { at, ..desc }
}

/// A path's descriptor with another number of ticks.
fn with_ticks(desc: Desc, ticks: u16) -> Desc
    ensures { result ≡ record desc { ticks = ticks } }
{
    Desc { ticks, ..desc }
}

/// Is a path on the file or directory of this number of a drive?
fn is_path_on(drive: u8, number: u32, desc: &Option<Desc>) -> bool
    ensures { result ≡ is_path_on_model drive number (λ desc. true) desc.now }
{
    match desc {
        Some(desc) => is_of_file(drive, number, desc.target),
        None => false,
    }
}

/// Is a path on this file or directory, and has its mode one of these bits?
fn is_path_of_mode_on(drive: u8, number: u32, bits: u8, desc: &Option<Desc>) -> bool
    ensures { result
        ≡ is_path_on_model drive number (λ desc. has_bit_of_model bits desc.mode) desc.now }
{
    match desc {
        Some(desc) => is_of_file(drive, number, desc.target) && has_bit_of(bits, desc.mode),
        None => false,
    }
}

/// Is this target the file or directory of this number of a drive?
fn is_of_file(drive: u8, number: u32, target: Target) -> bool
    ensures { result ≡ is_of_file_model drive number target }
{
    match target {
        Target::File(on, file) => drive == on && number == file,
        Target::Folder(on, file) => drive == on && number == file,
        Target::Term(_) | Target::Pipe(_) => false,
    }
}

/// Has a mode one of these bits?
fn has_bit_of(bits: u8, mode: u8) -> bool
    ensures { result ≡ has_bit_of_model bits mode }
{
    mode & bits != 0
}

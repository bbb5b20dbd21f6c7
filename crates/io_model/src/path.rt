//! Paths (Level Two manual, path descriptors), with a worked case.

ghost use Rattle.std.specs.Prelude.{◌≡◌, ℕ, Some, None, List, [], ◌∷◌, ◌++◌, replicate};
ghost use Rattle.io_model.specs.Path.{PathTable, no_paths, slot_of, desc_of, paths_after_begin, paths_after_dup, paths_after_inherit, paths_after_close, closed_desc, is_held};
ghost use Rattle.io_model.specs.declared.path.Desc.{Desc as Descriptor};
ghost use Rattle.io_model.specs.declared.path.Target.TheVariants.{Pipe};

use thiserror::Error;

/// The maximum number of paths of a process, and of all paths (this project's own).
pub const PROCESS_PATHS: usize = 16;

pub const SYSTEM_PATHS: usize = 64;

/// The number of a system path, from 1 to 64.
#[derive(Clone, Copy, Debug, PartialEq, Eq)]
pub struct SysPath(pub u8);

/// The target of a path.
#[derive(Clone, Copy, Debug, PartialEq, Eq)]
pub enum Target {
    /// A file, by its drive and the sector of its descriptor.
    File(u8, u32),
    /// A directory, by its drive and the sector of its descriptor.
    Folder(u8, u32),
    /// A terminal, by its number: 0 for TERM, 1 to 3 for T1 to T3.
    Term(u8),
    /// A pipe, by its number.
    Pipe(u8),
}

/// A path descriptor.
#[derive(Clone, Copy, Debug, PartialEq, Eq)]
pub struct Desc {
    pub target: Target,
    /// The mode with which it was opened.
    pub mode: u8,
    /// The position in the file: the next byte.
    pub at: u32,
    /// The number of ticks that a request for a record waits, by SS.Ticks.
    pub ticks: u16,
}

/// All path numbers of the process or all system paths are in use: error 200.
#[derive(Clone, Copy, Debug, PartialEq, Eq, Error)]
#[error("all path numbers are in use")]
pub struct PathsFull;

/// A parent opens a pipe and forks: the child's path is the same one, and it ends when both have
/// closed it.
pub fn shared_path(desc: Desc)
    ensures opened { slot_of (paths_after_begin no_paths 3 desc) 3 0 ≡ Some (record { 0 = 1 }) }
    ensures inherited { slot_of (paths_after_inherit (paths_after_begin no_paths 3 desc) 3 4) 4 0
        ≡ Some (record { 0 = 1 }) }
    ensures stays { closed_desc (paths_after_inherit (paths_after_begin no_paths 3 desc) 3 4) 3 0
        ≡ None }
    ensures goes { closed_desc
        (paths_after_close (paths_after_inherit (paths_after_begin no_paths 3 desc) 3 4) 3 0) 4 0
        ≡ Some desc }
{}

/// A duplicated path ends when both of its numbers are closed.
pub fn duplicated_path(desc: Desc)
    ensures same { slot_of (paths_after_dup (paths_after_begin no_paths 2 desc) 2 0) 2 1
        ≡ Some (record { 0 = 1 }) }
    ensures stays { closed_desc (paths_after_dup (paths_after_begin no_paths 2 desc) 2 0) 2 0
        ≡ None }
    ensures goes { closed_desc
        (paths_after_close (paths_after_dup (paths_after_begin no_paths 2 desc) 2 0) 2 0) 2 1
        ≡ Some desc }
{}

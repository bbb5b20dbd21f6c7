//! The state of input and output with the disks.

ghost use Rattle.std.specs.Prelude.{◌≡◌, ◌<◌, ◌==◌, Bool, false, None, Some, IfOk, IfSome, IsSome, OnOk, OnErr, List, replicate, vec_len};
ghost use Rattle.std.specs.Option.{option_map_or};
ghost use Rattle.io_model.specs.Path.{new_number, slot_of};
ghost use Rattle.io_model.specs.Io.{first_io, pending_at, open_path};
ghost use Rattle.io_model.specs.Waiting.{interrupted_count};
ghost use Rattle.io_state.specs.Files.{IsOnDisk};
ghost use Rattle.lock_model.specs.Locks.{lock_of};
ghost use Rattle.lock_model.specs.Records.{ends_lock, ends_locks_below, no_records};
ghost use Rattle.record_locks.specs.Places.{IsPath};
ghost use Rattle.rbf_model.specs.File.{DiskFile, is_directory as is_directory_model};
ghost use Rattle.rbf_model.specs.Volume.{DiskVolume};
ghost use Rattle.file_rules.specs.Files.{Files, directories_at, directory_of, no_directories, target_on as target_on_model, with_directories_of, with_directory, with_drives, with_volume};
ghost use Rattle.file_rules.specs.Close.{files_after_close};
ghost use Rattle.file_rules.specs.Locking.{call_wait, end_of_wait as end_of_wait_model, files_interrupted, lock_ends as lock_ends_model, request_wait as request_wait_model};
ghost use Rattle.file_rules.specs.Processes.{files_started, files_ended};
ghost use Rattle.file_rules.specs.Sharing.{is_open as is_open_model, is_not_shared as is_not_shared_model, is_single as is_single_model, some_path_on};
ghost use Rattle.file_rules.specs.Route.{Found};
ghost use Rattle.file_drives.specs.Drives.{ChangesOneDrive, DriveView, drive_states, drives_seen};
ghost use Rattle.file_drives.specs.Mounted.{HasFileAt, ReadsToMount};
ghost use Rattle.file_laws.specs.Kinds.{AreKinds};
ghost use Rattle.file_state.specs.Opened.{IsPathOf, NumberNamesFile, NamesNoFile, directory_in, opened_by, path_of};
ghost use Rattle.file_state.specs.Reached.{MountsOn, OthersKept};
ghost use Rattle.file_state.specs.Tie.{RepresentsFiles};

use device_table::devices::Devices;
use file_drives::disks::Disks;
use file_rules::places::Directories;
use file_rules::status::SINGLE_USER;
use io_model::path::{Desc, SysPath, Target};
use io_state::state::IoState;
use lock_model::lock::{PATH_PLACES, Request};
use lock_model::place::FilePlace;
use os9_base::call::OutOfMemory;
use os9_base::registers::Pid;
use os9_outer::drive::BlockDriver;
use os9_sched::{Cause, Wait};
use rbf_access::VolFault;
use record_locks::records::Records;
use std::alloc::Global;

/// Processes, by number from 0 to 32.
const PROCESSES: usize = 33;

/// No directory for data, and none for execution.
const NO_DIRECTORIES: Directories = Directories {
    data_directory: None,
    execution_directory: None,
};

/// Paths, terminals, pipes and waiting calls, the volumes that are mounted on the drives, the
/// directories of each process, by its number, and the record locks with their history (Level Two
/// manual, "I/O system"; OS-9 Technical Reference, Random Block File Manager).
#[derive(Drop)]
pub struct FileState {
    pub io: IoState,
    pub disks: Disks,
    pub directories: [Directories; PROCESSES],
    pub records: Records,
}

/// A path on a file or a directory: its system path, its descriptor, and the place of the file.
#[derive(Clone, Copy, Debug, PartialEq, Eq)]
pub struct OpenFile {
    pub path: SysPath,
    pub desc: Desc,
    pub place: FilePlace,
    pub is_directory: bool,
}

impl FileState {
    /// The state of a machine with process 2, whose standard paths are one path on TERM. No volume
    /// is mounted, no process has a directory, and no path holds a lock.
    ///
    /// # Errors
    ///
    /// Out of memory.
    pub fn new(alloc: Global) -> Result<FileState, OutOfMemory>
        ensures io { IfOk result (λ state. state.io ≡ first_io) }
        ensures disks { IfOk result (λ state. state.disks ≡ replicate 4 None) }
        ensures directories { IfOk result
            (λ state. state.directories ≡ replicate 33 no_directories) }
        ensures records { IfOk result (λ state. state.records ≡ no_records) }
    {
        Ok(FileState {
            io: IoState::new(alloc)?,
            disks: Disks::new(alloc)?,
            directories: [NO_DIRECTORIES; PROCESSES],
            records: Records::new(alloc)?,
        })
    }

    /// Mounts the volume on the media of drive `n`, in place of the one that was mounted there.
    /// Paths, directories, locks and what is kept of the other drives stay.
    ///
    /// # Errors
    ///
    /// `NotRbf` if the drive has no media or the media holds no RBF volume, `Device` if a read of
    /// the drive fails, or out of memory. Each mounted volume is still mounted then.
    pub fn mount(&mut self, alloc: Global, n: u8, devices: &mut Devices) -> Result<(), VolFault>
        requires drive { n < vec_len devices.old.drives }
        requires few { n < 4 }
        ensures mounted { MountsOn result n self.old (drives_seen BlockDriver-box devices.old)
            self.new (drives_seen BlockDriver-box devices.new) }
        ensures drive { ChangesOneDrive (ReadsToMount result) n
            (drives_seen BlockDriver-box devices.old) (drives_seen BlockDriver-box devices.new) }
        ensures rest { self.new ≡ record self.old { disks = self.new.disks } }
        ensures others { OthersKept n self.old.disks self.new.disks }
        ensures terms_kept { devices.new.terms ≡ devices.old.terms }
    {
        self.disks.mount(alloc, n, devices)
    }

    /// The file or directory that a number of a process names; None if it names none.
    pub fn open_file(&self, p: Pid, n: u8) -> Option<OpenFile>
        ensures path { IfSome result (IsPathOf self.now.io) }
        ensures named { IfSome result
            (λ file. open_path self.now.io p.0 n ≡ Some (path_of file)) }
        ensures none { result ≡ None → NamesNoFile self.now.io p.0 n }
        ensures file { (views : List DriveView) (files : Files)
            → RepresentsFiles self.now views files → AreKinds files
            → NumberNamesFile self.now views files p.0 n result }
    {
        match self.io.open_path(p, n) {
            Some((path, desc)) => opened_on(path, desc),
            None => None,
        }
    }

    /// The number that a new path of a process gets; None if its sixteen numbers or the 64 system
    /// paths are in use.
    pub fn next_number(&self, p: Pid) -> Option<u8>
        requires { p.0 < 33 }
        ensures { (views : List DriveView) (files : Files) → RepresentsFiles self.now views files
            → result ≡ new_number files.io.paths p.0 }
    {
        self.io.next_number(p)
    }

    /// Is some path of any process on the file at a place?
    pub fn is_open(&self, place: FilePlace) -> bool
        ensures { (views : List DriveView) (files : Files) → RepresentsFiles self.now views files
            → result ≡ is_open_model files place }
    {
        self.io.is_on_path(place.drive, place.number)
    }

    /// Is a file with these attributes barred from being opened with a mode: is another path on it,
    /// and is the file, the mode or such a path for a single user (OS-9 Technical Reference,
    /// FD.ATT)?
    pub fn is_not_shared(&self, place: FilePlace, attributes: u8, mode: u8) -> bool
        ensures { (views : List DriveView) (files : Files) (found : Found)
            → RepresentsFiles self.now views files → found.place ≡ place
            → found.file.attributes ≡ attributes → result ≡ is_not_shared_model files found mode }
    {
        self.is_open(place)
            && (is_single(attributes) || is_single(mode) || self.is_open_for_one(place))
    }

    /// Is some path for a single user on the file at a place?
    fn is_open_for_one(&self, place: FilePlace) -> bool
        ensures { (views : List DriveView) (files : Files) → RepresentsFiles self.now views files
            → result ≡ some_path_on files place (λ desc. is_single_model desc.mode) }
    {
        self.io
            .is_on_path_of_mode(place.drive, place.number, SINGLE_USER)
    }

    /// The directory of a process at which its path lists start, for execution or not (System
    /// Programmer's Manual, I$ChgDir); None if it has none.
    pub fn directory(&self, p: Pid, execute: bool) -> Option<FilePlace>
        requires { p.0 < 33 }
        ensures directory { (views : List DriveView) (files : Files)
            → RepresentsFiles self.now views files → result ≡ directory_of files p.0 execute }
        ensures there { (views : List DriveView) (files : Files)
            → RepresentsFiles self.now views files → AreKinds files
            → IfSome result (HasFileAt self.now.disks views) }
    {
        chosen(self.directories[p.0 as usize], execute)
    }

    /// Gives a process another directory, for execution or for data (System Programmer's Manual,
    /// I$ChgDir).
    pub fn set_directory(&mut self, p: Pid, execute: bool, place: FilePlace)
        requires { p.0 < 33 }
        ensures { (views : List DriveView) (files : Files) → RepresentsFiles self.old views files
            → RepresentsFiles self.new views (with_directories_of files p.0
            (with_directory (directories_at files p.0) execute place)) }
    {
        let directories = self.directories[p.0 as usize];
        self.directories[p.0 as usize] = with_chosen(directories, execute, place);
    }

    /// Gives a new process images of its parent's standard paths and its parent's directories
    /// (System Programmer's Manual, F$Fork). The new process has no pending call.
    pub fn start(&mut self, parent: Pid, child: Pid)
        requires parent { parent.0 < 33 }
        requires child { child.0 < 33 }
        requires quiet { pending_at self.old.io child.0 ≡ None }
        ensures { (views : List DriveView) (files : Files) → RepresentsFiles self.old views files
            → RepresentsFiles self.new views (files_started files parent.0 child.0) }
    {
        self.io.start(parent, child);
        self.directories[child.0 as usize] = self.directories[parent.0 as usize];
    }

    /// A process closes its number of a path on a file or a directory (System Programmer's Manual,
    /// I$Close). The path goes with its last number, and its lock with it.
    pub fn close_file(&mut self, p: Pid, n: u8, path: SysPath)
        requires open { slot_of self.old.io.paths p.0 n ≡ Some path }
        requires there { IsPath path.0 }
        requires quiet { pending_at self.old.io p.0 ≡ None }
        ensures { (views : List DriveView) (files : Files) → RepresentsFiles self.old views files
            → RepresentsFiles self.new views (files_after_close files p.0 n path.0) }
    {
        self.io.close(p, n);
        if !self.io.is_there(path) {
            self.records.drop_lock(path.0);
        }
    }

    /// A process ends (System Programmer's Manual, F$Exit): its paths are closed, what it waits for
    /// is dropped, its locks and those of paths that have gone end, and it has no directory any
    /// more.
    pub fn end(&mut self, p: Pid)
        requires { p.0 < 33 }
        ensures { (views : List DriveView) (files : Files) → RepresentsFiles self.old views files
            → RepresentsFiles self.new views (files_ended files p.0) }
    {
        self.io.end(p);
        self.records.cancel(p);
        self.end_locks_of(p);
        self.directories[p.0 as usize] = NO_DIRECTORIES;
    }

    /// The locks of a process and those of paths that have gone end, the least path first.
    fn end_locks_of(&mut self, p: Pid)
        ensures { self.new ≡ record self.old {
          records = ends_locks_below (lock_ends_model self.old.io.paths (λ owner. owner == p.0))
              PATH_PLACES self.old.records;
        } }
    {
        for path in 0..PATH_PLACES {
            self.end_lock(SysPath(path as u8), p);
        }
    }

    /// The lock of a path ends if the path has gone or the process owns the lock.
    fn end_lock(&mut self, path: SysPath, p: Pid)
        requires { IsPath path.0 }
        ensures { self.new ≡ record self.old {
          records = ends_lock
              (lock_ends_model self.old.io.paths (λ owner. owner == p.0)) path.0 self.old.records;
        } }
    {
        if self.lock_ends(path, p) {
            self.records.drop_lock(path.0);
        }
    }

    /// Does the lock of a path, if it holds one, end with this process?
    fn lock_ends(&self, path: SysPath, p: Pid) -> bool
        ensures { result ≡ option_map_or
            (lock_ends_model self.now.io.paths (λ owner. owner == p.0) path.0)
            (lock_of self.now.records.locks path.0) false }
    {
        match self.records.locks().lock_of(path.0) {
            Some(lock) => !self.io.is_there(path) || lock.owner == p,
            None => false,
        }
    }

    /// The waiting call of a process is broken off, if one waits: neither it nor its request is
    /// kept any longer. The answer is the count in Y: what a write or a line read of a pipe has
    /// moved; None for any other call (System Programmer's Manual, F$Icpt).
    pub fn interrupt(&mut self, p: Pid) -> Option<u16>
        requires { p.0 < 33 }
        ensures count { result ≡ interrupted_count self.old.io p.0 }
        ensures files { (views : List DriveView) (files : Files)
            → RepresentsFiles self.old views files
            → RepresentsFiles self.new views (files_interrupted files p.0) }
    {
        self.records.cancel(p);
        self.io.interrupt(p)
    }

    /// What a process waits for, if a call of it waits on a terminal, on a pipe or for a record.
    pub fn waits_for(&self, p: Pid) -> Option<Wait>
        requires { p.0 < 33 }
        ensures { result ≡ call_wait self.now.io self.now.records.locks p.0 }
    {
        match self.records.locks().request_of(p) {
            Some(request) => Some(request_wait(request)),
            None => {
                let cause = self.io.waits_for(p)?;
                Some(Wait { cause, until: None })
            }
        }
    }
}

/// What a request waits for: a record of its file, for as many ticks as its path allows.
fn request_wait(request: Request) -> Wait
    ensures { result ≡ request_wait_model request }
{
    let file = request.lock.file;
    Wait {
        cause: Cause::Lock(file.drive, file.number),
        until: end_of_wait(request),
    }
}

/// The tick from which a request waits no longer, if its path limits its ticks.
fn end_of_wait(request: Request) -> Option<u32>
    ensures { result ≡ end_of_wait_model request }
{
    if request.ticks <= 1 {
        return None;
    }
    request.since.checked_add(u32::from(request.ticks))
}

/// The target of a path on the file or directory at a place.
pub fn target_on(place: FilePlace, is_directory: bool) -> Target
    ensures target { (file : DiskFile) → is_directory_model file ≡ is_directory
        → result ≡ target_on_model file place }
    ensures disk { IsOnDisk result }
{
    if is_directory {
        Target::Folder(place.drive, place.number)
    } else {
        Target::File(place.drive, place.number)
    }
}

/// The file or directory that a path is on, if it is on one.
fn opened_on(path: SysPath, desc: Desc) -> Option<OpenFile>
    ensures { result ≡ opened_by path desc desc.target }
{
    match desc.target {
        Target::File(drive, number) => Some(OpenFile {
            path,
            desc,
            place: FilePlace { drive, number },
            is_directory: false,
        }),
        Target::Folder(drive, number) => Some(OpenFile {
            path,
            desc,
            place: FilePlace { drive, number },
            is_directory: true,
        }),
        Target::Term(_) | Target::Pipe(_) => None,
    }
}

/// Does a mode or an attribute byte say a single user?
fn is_single(bits: u8) -> bool
    ensures { result ≡ is_single_model bits }
{
    bits & SINGLE_USER != 0
}

/// The execution directory, or the data directory.
fn chosen(directories: Directories, execute: bool) -> Option<FilePlace>
    ensures { result ≡ directory_in directories execute }
{
    if execute {
        directories.execution_directory
    } else {
        directories.data_directory
    }
}

/// The directories with another one for execution, or for data.
fn with_chosen(directories: Directories, execute: bool, place: FilePlace) -> Directories
    ensures { result ≡ with_directory directories execute place }
{
    if execute {
        Directories {
            execution_directory: Some(place),
            ..directories
        }
    } else {
        Directories {
            data_directory: Some(place),
            ..directories
        }
    }
}

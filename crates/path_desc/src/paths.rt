ghost use Rattle.std.specs.Prelude.{◌≡◌, ◌<◌, false, Some, None, option_map, IfOk, IfSome, IsSome};
ghost use Rattle.std.specs.Result.{result_ok};
ghost use Rattle.io_model.specs.Path as model;
ghost use Rattle.io_model.specs.Path.{PathTable, ArePaths, IsOpen, no_paths, desc_of, slot_of, holds_path, with_desc, with_slot, new_number, paths_after_begin, paths_after_dup, paths_after_inherit, paths_after_close, closed_desc};

use crate::numbers::{
    empty_descs, free_number, free_numbers, free_path, has_image, inherited, is_held,
};
use io_model::path::{Desc, PROCESS_PATHS, PathsFull, SysPath};
use os9_base::call::OutOfMemory;
use os9_base::registers::Pid;
use std::alloc::Global;
use std::marker::Model;

/// Up to 64 paths, by number from 1 to 64, and the sixteen path numbers of each process (Level Two
/// manual, path descriptors). Only [`Paths::new`] takes memory.
#[derive(Drop)]
pub struct Paths {
    descs: Vec<Option<Desc>>,
    own: Vec<[Option<SysPath>; PROCESS_PATHS]>,
}

impl Model for Paths {
    ghost use Rattle.io_model.specs.Path.{PathTable, ArePaths};

    ghost Value = { PathTable };

    ghost view = { λ p. record { descs = p.descs.items; own = p.own.items } };

    ghost invariant = { λ p. ArePaths (record { descs = p.descs.items; own = p.own.items }) };
}

impl Paths {
    /// No path.
    pub fn new(alloc: Global) -> Result<Paths, OutOfMemory>
        ensures { IfOk result (λ paths. paths ≡ no_paths) }
    {
        Ok(Paths {
            descs: empty_descs(alloc)?,
            own: free_numbers(alloc)?,
        })
    }

    /// Begins a path of a process, from 2 to 32, with this descriptor. It gets the least free
    /// system path and the least free number of the process, and returns that number.
    ///
    /// # Errors
    ///
    /// `PathsFull` if the process's sixteen numbers or the 64 system paths are in use. A refused
    /// call changes nothing.
    pub fn begin(&mut self, p: Pid, d: Desc) -> Result<u8, PathsFull>
        requires { p.0 < 33 }
        ensures number { result_ok result ≡ new_number self.old p.0 }
        ensures paths { self.new ≡ paths_after_begin self.old p.0 d }
        ensures shape { ArePaths self.new }
    {
        let Some(n) = self.free_number(p) else {
            return Err(PathsFull);
        };
        let Some(s) = self.free_path() else {
            return Err(PathsFull);
        };
        self.put_desc(s, d);
        self.put(p, n, Some(s));
        Ok(n)
    }

    /// The number that a new path of a process gets; None if its sixteen numbers or the 64 system
    /// paths are in use.
    pub fn next_number(&self, p: Pid) -> Option<u8>
        requires { p.0 < 33 }
        ensures number { result ≡ new_number self.now p.0 }
        ensures shape { ArePaths self.now }
    {
        let n = self.free_number(p)?;
        self.free_path()?;
        Some(n)
    }

    /// Makes the least free number of the process an image of the path that its number `n` names
    /// (Level Two manual, I$Dup).
    ///
    /// # Errors
    ///
    /// `PathsFull` if the process's sixteen numbers are in use. A refused call changes nothing.
    pub fn dup(&mut self, p: Pid, n: u8) -> Result<u8, PathsFull>
        requires { IsOpen self.old p.0 n }
        ensures number { result_ok result ≡ model.free_number self.old p.0 }
        ensures paths { self.new ≡ paths_after_dup self.old p.0 n }
        ensures shape { ArePaths self.new }
    {
        let s = self.slot(p, n);
        let Some(free) = self.free_number(p) else {
            return Err(PathsFull);
        };
        self.put(p, free, s);
        Ok(free)
    }

    /// The system path that a number of a process names; None if it names none.
    pub fn slot(&self, p: Pid, n: u8) -> Option<SysPath>
        ensures slot { result ≡ slot_of self.now p.0 n }
        ensures shape { ArePaths self.now }
    {
        let numbers = self.own.get(p.0 as usize)?;
        match numbers.get(n as usize) {
            Some(place) => *place,
            None => None,
        }
    }

    /// The descriptor of a system path.
    pub fn desc(&self, s: SysPath) -> Desc
        requires { IsSome (desc_of self.now s.0) }
        ensures desc { desc_of self.now s.0 ≡ Some result }
        ensures shape { ArePaths self.now }
    {
        self.descs[s.0 as usize].unwrap()
    }

    /// The descriptors, by the numbers of their system paths from 0 on. None for a path that does
    /// not exist.
    pub fn descs(&self) -> &[Option<Desc>]
        ensures descs { result.now ≡ self.now.descs }
        ensures shape { ArePaths self.now }
    {
        self.descs.as_slice()
    }

    /// Gives a system path another descriptor.
    pub fn set_desc(&mut self, s: SysPath, d: Desc)
        requires { IsSome (desc_of self.old s.0) }
        ensures paths { self.new ≡ with_desc self.old s.0 (Some d) }
        ensures shape { ArePaths self.new }
    {
        self.descs[s.0 as usize] = Some(d);
    }

    /// Gives a process, which has no path yet, images of the numbers 0, 1 and 2 of another process
    /// (Level Two manual, F$Fork).
    pub fn inherit(&mut self, from: Pid, to: Pid)
        requires parent { from.0 < 33 }
        requires child { to.0 < 33 }
        ensures paths { self.new ≡ paths_after_inherit self.old from.0 to.0 }
        ensures shape { ArePaths self.new }
    {
        self.own[to.0 as usize] = inherited(&self.own[from.0 as usize]);
    }

    /// Frees a number of a process. Returns the path's descriptor if this was its last image; the
    /// path ends then (Level Two manual, I$Close).
    pub fn close(&mut self, p: Pid, n: u8) -> Option<Desc>
        requires { IsOpen self.old p.0 n }
        ensures last { result ≡ closed_desc self.old p.0 n }
        ensures paths { self.new ≡ paths_after_close self.old p.0 n }
        ensures shape { ArePaths self.new }
    {
        let s = self.slot(p, n)?;
        self.put(p, n, None);
        if self.is_held(s) {
            return None;
        }
        let desc = self.desc(s);
        self.remove(s);
        Some(desc)
    }

    /// Does a number of the process name this system path?
    pub fn holds(&self, p: Pid, s: SysPath) -> bool
        ensures holds { result ≡ holds_path self.now p.0 s.0 }
        ensures shape { ArePaths self.now }
    {
        match self.own.get(p.0 as usize) {
            Some(numbers) => has_image(numbers, s),
            None => false,
        }
    }
}

impl Paths {
    fn free_number(&self, p: Pid) -> Option<u8>
        requires { p.0 < 33 }
        ensures number { result ≡ model.free_number self.now p.0 }
        ensures place { IfSome result (λ n. n < 16) }
        ensures shape { ArePaths self.now }
    {
        free_number(&self.own[p.0 as usize])
    }

    fn free_path(&self) -> Option<SysPath>
        ensures number { option_map (λ s. s.0) result ≡ model.free_path self.now }
        ensures place { IfSome result (λ s. (0 < s.0) × (s.0 < 65)) }
        ensures shape { ArePaths self.now }
    {
        free_path(&self.descs)
    }

    fn is_held(&self, s: SysPath) -> bool
        ensures held { result ≡ model.is_held self.now s.0 }
        ensures shape { ArePaths self.now }
    {
        is_held(&self.own, s)
    }

    fn put_desc(&mut self, s: SysPath, d: Desc)
        requires { (0 < s.0) × (s.0 < 65) }
        ensures paths { self.new ≡ with_desc self.old s.0 (Some d) }
        ensures shape { ArePaths self.new }
    {
        self.descs[s.0 as usize] = Some(d);
    }

    fn remove(&mut self, s: SysPath)
        requires unheld { model.is_held self.old s.0 ≡ false }
        requires there { s.0 < 65 }
        ensures paths { self.new ≡ with_desc self.old s.0 None }
        ensures shape { ArePaths self.new }
    {
        self.descs[s.0 as usize] = None;
    }

    fn put(&mut self, p: Pid, n: u8, path: Option<SysPath>)
        requires process { p.0 < 33 }
        requires number { n < 16 }
        requires there { IfSome path (λ s. IsSome (desc_of self.old s.0)) }
        ensures paths { self.new ≡ with_slot self.old p.0 n path }
        ensures shape { ArePaths self.new }
    {
        self.own[p.0 as usize][n as usize] = path;
    }
}

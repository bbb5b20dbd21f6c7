ghost use Rattle.std.specs.Prelude.{◌≡◌, ◌+◌, ◌-◌, ◌<◌, ◌≤◌, ◌↔◌, false, IsTrue, IsSome, IsSomeAnd, IfSome, IfOk, OnOk, OnErr, MatchOption, Option, Some, None, option_map, is_some, length, replicate};
ghost use Rattle.proc_model.specs.Group.{group_block_numbers};
ghost use Rattle.proc_model.specs.ModuleList as model;
ghost use Rattle.proc_model.specs.ModuleList.{ModuleEntry, module_entry_at, module_room, found_module, new_entry, with_module_entry, entry_linked, modules_without_group, leaving_group, after_unlink};

use crate::entry::Entry;
use crate::list::{find_entry, free_number, is_in_use, is_known, remove_group};
use os9_base::call::OutOfMemory;
use os9_base::name::Name;
use proc_model::group::Group;
use proc_model::module::{ModId, ModuleInfo};
use std::alloc::{AllocError, Global};
use std::marker::Model;
use thiserror::Error;

/// The most modules that may be entered.
const PLACES: usize = 64;

/// Why a module is not entered.
#[derive(Clone, Copy, Debug, PartialEq, Eq, Error)]
pub enum DirFault {
    /// An entry of its name and type has its revision or a greater one: error 231.
    #[error("known module")]
    Known,
    /// The directory is full: error 206.
    #[error("module directory full")]
    DirFull,
}

/// The module directory: up to 64 modules by number, each with its group and the number of its
/// links (Level Two manual, F$Link).
#[derive(Drop)]
pub struct Dir {
    entries: Vec<Option<Entry>>,
}

impl Model for Dir {
    ghost use Rattle.std.specs.Prelude.{◌≡◌, List, Option, length};
    ghost use Rattle.proc_model.specs.ModuleList.{ModuleEntry};
    ghost use Rattle.module_dir.specs.Entries.{held_entries};

    ghost Value = { List (Option ModuleEntry) };

    ghost view = { λ dir. held_entries dir.entries.items };

    ghost invariant = { λ dir. length dir.entries.items ≡ 64 };
}

impl Dir {
    ghost use Rattle.module_dir.specs.Entries.{seen};

    /// A directory without entries. Only this call takes memory.
    pub fn new(alloc: Global) -> Result<Dir, OutOfMemory>
        ensures { IfOk result (λ dir. dir ≡ replicate 64 None) }
    {
        Ok(Dir {
            entries: empty_places(alloc)?,
        })
    }

    /// Enters a module, with one link if it is the boot file's, and otherwise without links. It
    /// gets the least number that no entry has. There are 64 places.
    ///
    /// # Errors
    ///
    /// `Known` if an entry of its name and type has the same or a greater revision; else `DirFull`
    /// if 64 modules are entered.
    pub fn enter(&mut self, info: ModuleInfo, group: Group, boot: bool) -> Result<ModId, DirFault>
        ensures known { (result ≡ Err DirFault.Known) ↔ IsTrue (model.is_known self.old info) }
        ensures full { (result ≡ Err DirFault.DirFull)
            ↔ ((model.is_known self.old info ≡ false) × (module_room self.old ≡ 0)) }
        ensures number { IfOk result (λ id. model.free_number self.old ≡ Some id.0) }
        ensures entered { IfOk result (λ id. self.new
            ≡ with_module_entry self.old id.0 (new_entry info (group_block_numbers group) boot)) }
        ensures there { IfOk result (λ id. module_entry_at self.new id.0
            ≡ Some (new_entry info (group_block_numbers group) boot)) }
        ensures room { OnOk result (module_room self.new + 1 ≡ module_room self.old) }
        ensures refused { OnErr result (self.new ≡ self.old) }
        ensures places { length self.new ≡ 64 }
    {
        if self.knows(&info) {
            return Err(DirFault::Known);
        }
        let id = self.free_number().ok_or(DirFault::DirFull)?;
        let links = if boot { 1 } else { 0 };
        self.put(
            id,
            Entry {
                info,
                group,
                links,
                is_boot: boot,
            },
        );
        Ok(id)
    }

    /// The entry of this name whose type and language match `kind`, in which a half of 0 matches
    /// any, among those that no greater revision shadows. If there are several, the one of least
    /// number.
    pub fn find(&self, name: &Name, kind: u8) -> Option<ModId>
        ensures found { option_map (λ id. id.0) result ≡ found_module self.now name.now kind }
        ensures places { length self.now ≡ 64 }
    {
        find_entry(&self.entries, name, kind).map(|number| ModId(number as u8))
    }

    /// Is there an entry of this number?
    pub fn is_entered(&self, id: ModId) -> bool
        ensures { result ≡ is_some (module_entry_at self.now id.0) }
    {
        matches!(self.entries.get(id.0 as usize), Some(Some(_)))
    }

    /// The number of modules that can still be entered.
    pub fn room(&self) -> u8
        ensures room { result ≡ module_room self.now }
        ensures places { length self.now ≡ 64 }
    {
        self.entries.iter().filter(|place| place.is_none()).count() as u8
    }

    /// What the header of an entered module says. Its `at` is the module's offset in the group.
    pub fn info(&self, id: ModId) -> ModuleInfo
        requires { IsSome (module_entry_at self.now id.0) }
        ensures { option_map (λ entry. entry.info) (module_entry_at self.now id.0) ≡ Some result }
    {
        self.entry(id).info
    }

    /// The group of an entered module.
    pub fn group(&self, id: ModId) -> Group
        requires { IsSome (module_entry_at self.now id.0) }
        ensures { option_map (λ entry. entry.group) (module_entry_at self.now id.0)
            ≡ Some (group_block_numbers result) }
    {
        self.entry(id).group
    }

    /// Is the group of an entered module the boot file's?
    pub fn is_boot(&self, id: ModId) -> bool
        requires { IsSome (module_entry_at self.now id.0) }
        ensures { option_map (λ entry. entry.is_boot) (module_entry_at self.now id.0)
            ≡ Some result }
    {
        self.entry(id).is_boot
    }

    /// The number of links of an entered module.
    pub fn links(&self, id: ModId) -> u32
        requires { IsSome (module_entry_at self.now id.0) }
        ensures links { option_map (λ entry. entry.links) (module_entry_at self.now id.0)
            ≡ Some result }
        ensures most { result ≤ 65535 }
    {
        u32::from(self.entry(id).links)
    }

    /// Counts one more link of an entered module.
    pub fn link(&mut self, id: ModId)
        requires { IsSomeAnd (module_entry_at self.old id.0) (λ entry. entry.links < 65535) }
        ensures { option_map (λ entry. with_module_entry self.old id.0 (entry_linked entry))
            (module_entry_at self.old id.0) ≡ Some self.new }
    {
        let entry = self.entry(id);
        let links = entry.links + 1;
        self.put(id, Entry { links, ..entry });
    }

    /// Gives up one link of an entered module, if it has one. If then no entry of its group has a
    /// link, and the group is not the boot file's, removes the entries of the group and returns the
    /// group.
    pub fn unlink(&mut self, id: ModId) -> Option<Group>
        requires { IsSome (module_entry_at self.old id.0) }
        ensures list { option_map (after_unlink self.old id.0) (module_entry_at self.old id.0)
            ≡ Some self.new }
        ensures group { option_map (leaving_group self.old id.0) (module_entry_at self.old id.0)
            ≡ Some (option_map group_block_numbers result) }
    {
        let entry = self.entry(id);
        let links = entry.links.saturating_sub(1);
        self.put(id, Entry { links, ..entry });
        if entry.is_boot || self.uses(&entry.group) {
            return None;
        }
        self.remove(&entry.group);
        Some(entry.group)
    }

    fn entry(&self, id: ModId) -> Entry
        requires { IsSome (module_entry_at self.now id.0) }
        ensures entry { module_entry_at self.now id.0 ≡ Some (seen result) }
        ensures within { id.0 < length self.now }
    {
        self.entries[id.0 as usize].unwrap()
    }

    fn put(&mut self, id: ModId, entry: Entry)
        requires { id.0 < length self.old }
        ensures entered { self.new ≡ with_module_entry self.old id.0 (seen entry) }
        ensures places { length self.new ≡ length self.old }
    {
        self.entries[id.0 as usize] = Some(entry);
    }

    /// Is a module known: is there an entry of its name and type with its revision or a greater
    /// one?
    pub fn knows(&self, info: &ModuleInfo) -> bool
        ensures known { result ≡ model.is_known self.now info.now }
        ensures places { length self.now ≡ 64 }
    {
        is_known(&self.entries, info)
    }

    fn free_number(&self) -> Option<ModId>
        ensures number { option_map (λ id. id.0) result ≡ model.free_number self.now }
        ensures within { IfSome result (λ id. id.0 < length self.now) }
        ensures room { MatchOption result (module_room self.now
            ≡ 0) (λ _. 0 < module_room self.now) }
    {
        free_number(&self.entries).map(|number| ModId(number as u8))
    }

    fn uses(&self, group: &Group) -> bool
        ensures { result ≡ model.is_in_use self.now (group_block_numbers group.now) }
    {
        is_in_use(&self.entries, group)
    }

    fn remove(&mut self, group: &Group)
        ensures { self.new ≡ modules_without_group self.old (group_block_numbers group.now) }
    {
        remove_group(&mut self.entries, group);
    }
}

/// Places without entries.
fn empty_places(alloc: Global) -> Result<Vec<Option<Entry>>, AllocError>
    ensures { IfOk result (λ places. places.items ≡ replicate 64 None) }
{
    let mut places = Vec::with_capacity(alloc, PLACES)?;
    'fill: while places.len() < PLACES {
        places.push(None)?;
    }
    Ok(places)
}

ghost use Rattle.std.specs.Prelude.{◌≡◌, take};
ghost use Rattle.proc_model.specs.Group.{group_block_numbers};
ghost use Rattle.proc_model.specs.ModuleList as model;
ghost use Rattle.module_dir.specs.Entries.{seen};

use os9_base::name::same_name;
use proc_model::group::{BlockId, Group};
use proc_model::module::ModuleInfo;

/// An entry of the module directory.
#[derive(Clone, Copy, Debug)]
pub struct Entry {
    /// What the header says; `at` is the module's offset in its group.
    pub info: ModuleInfo,
    pub group: Group,
    pub links: u16,
    /// Is the group the boot file's?
    pub is_boot: bool,
}

/// Do these two modules have the same name, case ignored, and the same type, regardless of the
/// language?
pub fn are_namesakes(a: &ModuleInfo, b: &ModuleInfo) -> bool
    ensures { result ≡ model.are_namesakes a.now b.now }
{
    same_name(&a.name, &b.name) && a.kind >> 4 == b.kind >> 4
}

/// Does this type and language match the wanted one, in which a half of 0 matches any?
pub fn kind_matches(wanted: u8, kind: u8) -> bool
    ensures { result ≡ model.kind_matches wanted kind }
{
    half_matches(wanted >> 4, kind >> 4) && half_matches(wanted & 0x0f, kind & 0x0f)
}

fn half_matches(wanted: u8, half: u8) -> bool
    ensures { result ≡ model.half_matches wanted half }
{
    wanted == 0 || wanted == half
}

/// Is the entry of this group?
pub fn is_of_group(entry: &Entry, group: &Group) -> bool
    ensures { result ≡ model.is_of_group (group_block_numbers group.now) (seen entry.now) }
{
    blocks(group) == blocks(&entry.group)
}

/// The blocks of a group, in order.
fn blocks(group: &Group) -> &[BlockId]
    ensures { result.now ≡ take group.now.len group.now.blocks }
{
    &group.blocks[..group.len as usize]
}

ghost use Rattle.std.specs.Prelude.{◌≡◌, ◌<◌, ◌≤◌, ◌&&◌, nat_lt, nat_le, option_map, MatchOption, length};
ghost use Rattle.proc_model.specs.Group.{group_block_numbers};
ghost use Rattle.proc_model.specs.ModuleList as model;
ghost use Rattle.proc_model.specs.ModuleList.{passes, revision_of, answers_to, found_module, module_room, modules_without_group};
ghost use Rattle.module_dir.specs.Entries.{seen, held_entries};

use crate::entry::{Entry, are_namesakes, is_of_group, kind_matches};
use os9_base::name::{Name, same_name};
use proc_model::group::Group;
use proc_model::module::ModuleInfo;

/// Is there an entry of the module's name and type with its revision or a greater one?
pub fn is_known(entries: &[Option<Entry>], info: &ModuleInfo) -> bool
    ensures { result ≡ model.is_known (held_entries entries.now) info.now }
{
    entries.iter().any(|place| makes_known(place, info))
}

/// Is there an entry of the module's name and type with a greater revision?
fn is_shadowed(entries: &[Option<Entry>], info: &ModuleInfo) -> bool
    ensures { result ≡ model.is_shadowed (held_entries entries.now) info.now }
{
    entries.iter().any(|place| shadows(place, info))
}

/// The least number of an entry that has the name, matches the type and language, and is not
/// shadowed.
pub fn find_entry(entries: &[Option<Entry>], name: &Name, kind: u8) -> Option<usize>
    ensures { result ≡ found_module (held_entries entries.now) name.now kind }
{
    entries
        .iter()
        .position(|place| answers(entries, name, kind, place))
}

/// The least number that no entry has.
pub fn free_number(entries: &[Option<Entry>]) -> Option<usize>
    ensures number { result ≡ model.free_number (held_entries entries.now) }
    ensures room { MatchOption result (module_room (held_entries entries.now)
        ≡ 0) (λ _. 0 < module_room (held_entries entries.now)) }
{
    entries.iter().position(|place| place.is_none())
}

/// Does an entry of this group have a link?
pub fn is_in_use(entries: &[Option<Entry>], group: &Group) -> bool
    ensures { result ≡ model.is_in_use (held_entries entries.now) (group_block_numbers group.now) }
{
    entries.iter().any(|place| uses(place, group))
}

/// Removes the entries of this group.
pub fn remove_group(entries: &mut [Option<Entry>], group: &Group)
    ensures { held_entries entries.new
        ≡ modules_without_group (held_entries entries.old) (group_block_numbers group.now) }
{
    for place in entries.iter_mut() {
        *place = place_without_group(place, group);
    }
}

/// Is there an entry here of the module's name and type with its revision or a greater one?
fn makes_known(place: &Option<Entry>, info: &ModuleInfo) -> bool
    ensures { result
        ≡ passes (λ entry. model.are_namesakes info.now entry.info
        && nat_le (revision_of info.now) (revision_of entry.info)) (option_map seen place.now) }
{
    match place {
        None => false,
        Some(entry) => {
            are_namesakes(info, &entry.info) && revision(info) <= revision(&entry.info)
        }
    }
}

/// Is there an entry here of the module's name and type with a greater revision?
fn shadows(place: &Option<Entry>, info: &ModuleInfo) -> bool
    ensures { result
        ≡ passes (λ entry. model.are_namesakes info.now entry.info
        && nat_lt (revision_of info.now) (revision_of entry.info)) (option_map seen place.now) }
{
    match place {
        None => false,
        Some(entry) => are_namesakes(info, &entry.info) && revision(info) < revision(&entry.info),
    }
}

/// Is there an entry here that has the name, matches the type and language, and is not shadowed?
fn answers(entries: &[Option<Entry>], name: &Name, kind: u8, place: &Option<Entry>) -> bool
    ensures { result
        ≡ passes (answers_to (held_entries entries.now) name.now kind) (option_map seen place.now) }
{
    match place {
        None => false,
        Some(entry) => {
            same_name(name, &entry.info.name)
                && kind_matches(kind, entry.info.kind)
                && !is_shadowed(entries, &entry.info)
        }
    }
}

/// Is there an entry of this group here that has a link?
fn uses(place: &Option<Entry>, group: &Group) -> bool
    ensures { result
        ≡ passes (λ entry. model.is_of_group (group_block_numbers group.now) entry
        && nat_lt 0 entry.links) (option_map seen place.now) }
{
    match place {
        None => false,
        Some(entry) => is_of_group(entry, group) && entry.links > 0,
    }
}

/// What remains of a place after the entries of this group are removed.
fn place_without_group(place: &Option<Entry>, group: &Group) -> Option<Entry>
    ensures { option_map seen result
        ≡ model.place_without_group (group_block_numbers group.now) (option_map seen place.now) }
{
    match place {
        Some(entry) if is_of_group(entry, group) => None,
        _ => *place,
    }
}

/// The revision: the low half of the attributes.
fn revision(info: &ModuleInfo) -> u8
    ensures { result ≡ revision_of info.now }
{
    info.attr & 0x0f
}

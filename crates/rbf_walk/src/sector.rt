ghost use Rattle.std.specs.Prelude.{◌≡◌, ℕ, List, ◌-◌, ◌*◌, ◌^◌, ◌<◌, ◌≤◌, ◌+◌, true, min, not, slice_index, IfSome, MatchOption, Some, None};
ghost use Rattle.os9_base.specs.Name as model;
ghost use Rattle.rbf_model.specs.Fields.{directory_entry, descriptor_field, is_used};
ghost use Rattle.rbf_model.specs.Walk.{entry_has_name};
ghost use Rattle.rbf_walk.specs.Search.{NonePasses, IsFirstMatch, IsEndOf};

use os9_base::name::{Name, header_name, same_name};
use rbf_sector::read_entry;

// The end of a name: the place of its last character, and that in lower case.
#[derive(Clone, Copy, Debug)]
pub struct NameEnd {
    pub at: u8,
    pub last: u8,
}

// The number of a directory's entries in the sector in this place.
pub fn entries_in(entries: u32, place: u32) -> u32
    requires { place < 2 ^ 27 }
    ensures { result ≡ min 8 (entries - 8 * place) }
{
    entries.saturating_sub(8 * place).min(8)
}

// The first of the entries of a sector that has the name.
pub fn named_in(sector: &[u8; 256], count: u32, name: &Name) -> Option<u32>
    requires { count ≤ 8 }
    ensures { MatchOption result
        (NonePasses (entry_has_name name.now) sector.now count)
        (IsFirstMatch (entry_has_name name.now) sector.now count) }
{
    let end = end_of(name);
    if none_alike(sector, name, end) {
        return None;
    }
    for i in 0..count {
        if has_name_at(sector, i, name, end) {
            return Some(i);
        }
    }
    None
}

// Whether no entry of a sector ends as the name does; then none has the name. This is so for most
// sectors.
fn none_alike(sector: &[u8; 256], name: &Name, end: NameEnd) -> bool
    requires { IsEndOf name.now end }
    ensures { result ≡ true → NonePasses (entry_has_name name.now) sector.now 8 }
{
    for i in 0..8 {
        if pair_alike(sector, i, name, end) {
            return false;
        }
    }
    true
}

// The end of a name.
fn end_of(name: &Name) -> NameEnd
    ensures { IsEndOf name.now result }
{
    let at = name.len() - 1;
    NameEnd {
        at,
        last: lower(name.byte(at)),
    }
}

// The first of the entries of a sector that is free.
pub fn free_in(sector: &[u8; 256], count: u32) -> Option<u32>
    requires { count ≤ 8 }
    ensures { MatchOption result
        (NonePasses (λ entry. not (is_used entry)) sector.now count)
        (IsFirstMatch (λ entry. not (is_used entry)) sector.now count) }
{
    if none_free(sector) {
        return None;
    }
    for i in 0..count {
        if byte_at(sector, i, 0) == 0 {
            return Some(i);
        }
    }
    None
}

// Whether no entry of a sector is free. This is so for most sectors.
fn none_free(sector: &[u8; 256]) -> bool
    ensures { result ≡ true → NonePasses (λ entry. not (is_used entry)) sector.now 8 }
{
    for i in 0..8 {
        if byte_at(sector, i, 0) == 0 {
            return false;
        }
    }
    true
}

// The descriptor that an entry of a sector names.
pub fn descriptor_in(sector: &[u8; 256], i: u32) -> u32
    requires { i < 8 }
    ensures { result ≡ descriptor_field (directory_entry sector.now i) }
{
    read_entry(&entry_at(sector, i)).lsn
}

// Whether the entry in a place of a sector is used and has this name, with the case of letters
// ignored.
fn has_name_at(sector: &[u8; 256], i: u32, name: &Name, end: NameEnd) -> bool
    requires entry { i < 8 }
    requires end { IsEndOf name.now end }
    ensures { result ≡ entry_has_name name.now (directory_entry sector.now i) }
{
    if !ends_alike(sector, i, end) {
        return false;
    }
    if !begins_alike(sector, i, name) {
        return false;
    }
    has_name(&entry_at(sector, i), name)
}

// Whether an entry ends at the end of the name, and its last two characters agree with those of the
// name as far as `ends_alike` compares characters. No other entry has the name.
fn pair_alike(sector: &[u8; 256], i: u32, name: &Name, end: NameEnd) -> bool
    requires entry { i < 8 }
    requires end { IsEndOf name.now end }
    ensures { entry_has_name name.now (directory_entry sector.now i) ≡ true → result ≡ true }
{
    if !ends_alike(sector, i, end) {
        return false;
    }
    if end.at == 0 {
        return true;
    }
    let before = end.at - 1;
    byte_at(sector, i, before) % 32 == name.byte(before) % 32
}

// Whether an entry ends at the end of the name, and the low five bits of its last character are
// those of the name's last one: a capital letter has those of the small one. No other entry has the
// name, so most entries need no further test.
fn ends_alike(sector: &[u8; 256], i: u32, end: NameEnd) -> bool
    requires entry { i < 8 }
    requires within { end.at < 32 }
    ensures { (name : List ℕ) → IsEndOf name end
        → entry_has_name name (directory_entry sector.now i) ≡ true → result ≡ true }
{
    let byte = byte_at(sector, i, end.at);
    if byte < 128 {
        return false;
    }
    byte % 32 == end.last % 32
}

// Whether an entry has the characters of the name before the last one. No other entry has the name.
// Most entries differ near the end.
fn begins_alike(sector: &[u8; 256], i: u32, name: &Name) -> bool
    requires { i < 8 }
    ensures { entry_has_name name.now (directory_entry sector.now i) ≡ true → result ≡ true }
{
    let last = name.len() - 1;
    for behind in 0..last {
        let at = last - 1 - behind;
        let here = lower(byte_at(sector, i, at));
        let wanted = lower(name.byte(at));
        if here != wanted {
            return false;
        }
    }
    true
}

// A letter in lower case; any other character is unchanged.
fn lower(character: u8) -> u8
    ensures { result ≡ model.lower character }
{
    if character >= b'A' && character <= b'Z' {
        character + 32
    } else {
        character
    }
}

// A byte of the entry in a place of a sector.
fn byte_at(sector: &[u8; 256], i: u32, at: u8) -> u8
    requires entry { i < 8 }
    requires within { at < 32 }
    ensures { result ≡ slice_index (directory_entry sector.now i) at }
{
    sector[32 * i as usize + usize::from(at)]
}

// The entry in a place of a sector.
fn entry_at(sector: &[u8; 256], i: u32) -> [u8; 32]
    requires { i < 8 }
    ensures { result ≡ directory_entry sector.now i }
{
    let at = 32 * i as usize;
    let mut entry = [0; 32];
    entry.copy_from_slice(&sector[at..at + 32]);
    entry
}

// Whether the entry is used and has this name, with the case of letters ignored.
fn has_name(entry: &[u8; 32], name: &Name) -> bool
    ensures { result ≡ entry_has_name name.now entry.now }
{
    if entry[0] == 0 {
        return false;
    }
    match header_name(&entry[..29]) {
        Err(_) => false,
        Ok(other) => same_name(name, &other),
    }
}

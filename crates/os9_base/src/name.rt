ghost use Rattle.std.specs.Prelude.{◌≡◌, ◌↔◌, ◌<◌, ◌≤◌, length, map, take, Some, None, All, true, IsTrue, IfSome, slice_get};
ghost use Rattle.std.specs.Result.{result_ok};
ghost use Rattle.os9_base.specs.Name as model;
ghost use Rattle.os9_base.specs.Name.{name_run, parsed_name, stored_name, SameName, IsName, EndsName};

use std::marker::Model;
use thiserror::Error;

/// The most characters of a name.
const LONGEST: usize = 29;

/// The bytes are not a name.
#[derive(Clone, Copy, Debug, PartialEq, Eq, Error)]
#[error("bad name")]
pub struct BadName;

/// A name of a file, a device or a module: 1 to 29 characters, each from `!` to `~` except `/`. A
/// clause sees the list of its characters, without bit 7.
#[derive(Clone, Copy, Debug)]
pub struct Name {
    characters: [u8; 29],
    len: u8,
}

impl Model for Name {
    ghost use Rattle.std.specs.Prelude.{ℕ, List, take};

    ghost Value = { List ℕ };

    ghost use Rattle.os9_base.specs.NameFields.{IsNameField, name_field, name_field-view};

    ghost view = { λ field. take field.len field.characters };

    ghost invariant = { IsNameField };

    ghost inverse = { name_field };

    ghost inverse_ok = { name_field-view };
}

impl Name {
    /// The number of characters of the name, from 1 to 29.
    pub fn len(&self) -> u8
        ensures length { result ≡ length self.now }
        ensures name { IsName self.now }
    {
        let _ = &self.characters;
        self.len
    }

    /// The character at a place below the length.
    pub fn byte(&self, i: u8) -> u8
        requires { i < length self.now }
        ensures { slice_get self.now i ≡ Some result }
    {
        self.characters[i as usize]
    }
}

/// Reads the name at the front of the bytes of a path list or a call (System Programmer's Manual,
/// F$PrsNam): the longest run of letters, digits, `_` and `.`, which a character with bit 7 ends.
/// No more than 30 bytes are looked at.
///
/// # Errors
///
/// `BadName` if the run is empty or has more than 29 characters.
pub fn parse_name(bytes: &[u8]) -> Result<Name, BadName>
    ensures { result_ok result ≡ parsed_name bytes.now }
{
    let len = run_length(bytes);
    if len == 0 || len > LONGEST {
        return Err(BadName);
    }
    Ok(without_mark(&bytes[..len]))
}

/// Reads the name of a module header or of a directory entry (System Programmer's Manual, module
/// headers; RBF directories): 1 to 29 characters from `!` to `~` except `/`, the last with bit 7.
///
/// # Errors
///
/// `BadName` if the bytes do not begin with such a name.
pub fn header_name(bytes: &[u8]) -> Result<Name, BadName>
    ensures { result_ok result ≡ stored_name bytes.now }
{
    match marked_length(bytes) {
        None => Err(BadName),
        Some(len) => Ok(without_mark(&bytes[..len])),
    }
}

/// Do two names agree, regardless of the case of letters?
pub fn same_name(a: &Name, b: &Name) -> bool
    ensures { IsTrue result ↔ SameName a.now b.now }
{
    a.len == b.len
        && same_letters(
            &a.characters[..a.len as usize],
            &b.characters[..b.len as usize],
        )
}

/// Do two texts of the same length agree, regardless of the case of letters?
fn same_letters(a: &[u8], b: &[u8]) -> bool
    requires { length a.now ≡ length b.now }
    ensures { IsTrue result ↔ (map model.lower a.now ≡ map model.lower b.now) }
{
    for i in 0..a.len() {
        if lower(a[i]) != lower(b[i]) {
            return false;
        }
    }
    true
}

/// A letter in lower case, or any other character unchanged.
fn lower(character: u8) -> u8
    ensures { result ≡ model.lower character }
{
    if character >= b'A' && character <= b'Z' {
        character + 32
    } else {
        character
    }
}

/// A byte without bit 7, which marks the last character of a name.
fn low_bits(byte: u8) -> u8
    ensures value { result ≡ model.low_bits byte }
    ensures below { result < 128 }
{
    byte & 0x7f
}

fn is_name_character(character: u8) -> bool
    ensures { result ≡ model.is_name_character character }
{
    matches!(character, b'a'..=b'z' | b'A'..=b'Z' | b'0'..=b'9' | b'_' | b'.')
}

fn is_stored_character(character: u8) -> bool
    ensures { result ≡ model.is_stored_character character }
{
    character >= 33 && character <= 126 && character != b'/'
}

/// The number of bytes in the run of name characters at the front, or 30 if there are more.
fn run_length(bytes: &[u8]) -> usize
    ensures within { result ≤ length bytes.now }
    ensures short { result ≤ 29 → name_run bytes.now ≡ map model.low_bits (take result bytes.now) }
    ensures long { 29 < result → 29 < length (name_run bytes.now) }
    ensures characters { All (λ c. model.is_stored_character c
        ≡ true) (map model.low_bits (take result bytes.now)) }
{
    for (i, byte) in bytes.iter().enumerate() {
        if i > LONGEST || !is_name_character(low_bits(*byte)) {
            return i;
        }
        if *byte >= 0x80 {
            return i + 1;
        }
    }
    bytes.len()
}

/// The number of bytes of the name at the front, up to and with its last character, if the bytes
/// begin with one.
fn marked_length(bytes: &[u8]) -> Option<usize>
    ensures none { result ≡ None → stored_name bytes.now ≡ None }
    ensures some { IfSome result (λ len. EndsName bytes.now len) }
{
    for (i, byte) in bytes.iter().enumerate() {
        if i >= LONGEST {
            return None;
        }
        if !is_stored_character(low_bits(*byte)) {
            return None;
        }
        if *byte >= 0x80 {
            return Some(i + 1);
        }
    }
    None
}

/// The name that these bytes spell, with bit 7 removed.
fn without_mark(run: &[u8]) -> Name
    requires { IsName (map model.low_bits run.now) }
    ensures { result ≡ map model.low_bits run.now }
{
    let mut characters = [0; 29];
    for (i, byte) in run.iter().enumerate() {
        characters[i] = low_bits(*byte);
    }
    Name {
        characters,
        len: run.len() as u8,
    }
}

//! The names of a path list.

ghost use Rattle.std.specs.Prelude.{◌≡◌, ◌+◌, ◌<◌, ◌≤◌, ℕ, suc, Ok, length};
ghost use Rattle.guest_memory.specs.Tie.{IsMemorySame, cells_of};
ghost use Rattle.io_model.specs.PathList.{behind as behind_model, behind_slash as behind_slash_model, names_behind, is_dots as is_dots_model, is_marked as is_marked_model, names_at};
ghost use Rattle.os9_base.specs.Name.{is_name_character as is_name_character_model, low_bits};
ghost use Rattle.device_paths.specs.Tail.{behind_of, tail_of, tail_after, HasLaterName, step_by};

use guest_memory::memory::Memory;
use os9_base::name::Name;
use os9_base::name_fault::NameFault;
use os9_base::registers::Pid;

/// How the names from an address on end.
#[derive(Clone, Copy, Debug, PartialEq, Eq)]
pub struct Tail {
    /// The last one names a directory itself or its parent.
    pub dots: bool,
    /// A slash follows the last name.
    pub slash: bool,
    /// The address just past the names.
    pub next: u32,
}

/// What follows a name.
#[derive(Clone, Copy, Debug, PartialEq, Eq)]
pub enum Behind {
    /// A slash, and a character of a name after it.
    Another,
    /// A slash, and no character of a name after it.
    Slash,
    /// Anything else, or the name has bit 7.
    Nothing,
    /// A byte that must be read is not there.
    Unreadable,
}

/// A step over a name of a path list.
#[derive(Clone, Copy, Debug, PartialEq, Eq)]
pub enum Step {
    /// Another name begins at this address.
    Another(u16),
    /// It is the last one, and the names end with this tail.
    Last(Tail),
}

/// How the names from an address on end. At least one name must be there.
///
/// # Errors
///
/// `Unreadable` exactly if a byte that must be read is in no named slot or past `FFFF`, else
/// `NoName` exactly if there is no name where one is required.
pub fn read_tail(memory: &mut Memory, p: Pid, start: u16) -> Result<Tail, NameFault>
    requires { p.0 < 33 }
    ensures tail { (left : ℕ) → 65536 ≤ left + start
        → result ≡ tail_of (names_at (cells_of memory.old p.0) start left) }
    ensures same { IsMemorySame memory.old memory.new }
{
    let mut at = start;
    'names: loop {
        match read_step(memory, p, at) {
            Err(fault) => return Err(fault),
            Ok(Step::Last(tail)) => return Ok(tail),
            Ok(Step::Another(next)) => at = next,
        }
    }
}

/// Reads the name at an address, and what follows it.
fn read_step(memory: &mut Memory, p: Pid, at: u16) -> Result<Step, NameFault>
    requires { p.0 < 33 }
    ensures step { (left : ℕ) → tail_of (names_at (cells_of memory.old p.0) at (suc left))
        ≡ tail_after (λ next. tail_of (names_at (cells_of memory.old p.0) next left)) result }
    ensures up { HasLaterName at result }
    ensures same { IsMemorySame memory.old memory.new }
{
    let name = memory.name(p, at)?;
    step_over(memory, p, at, &name)
}

/// What follows this name at an address.
pub(crate) fn step_over(memory: &Memory, p: Pid, at: u16, name: &Name) -> Result<Step, NameFault>
    requires { p.0 < 33 }
    ensures exact { result ≡ step_by name.now (at + length name.now)
        (behind_model (cells_of memory.now p.0) (at + length name.now)) }
    ensures step { (left : ℕ) → tail_of (names_behind
        (λ next. names_at (cells_of memory.now p.0) next left)
        (cells_of memory.now p.0) at (Ok name.now))
        ≡ tail_after (λ next. tail_of (names_at (cells_of memory.now p.0) next left)) result }
    ensures up { HasLaterName at result }
{
    let len = name.len();
    let dots = is_dots(name);
    let next = u32::from(at) + u32::from(len);
    let mut slash = false;
    match what_follows(memory, p, at, len) {
        Behind::Unreadable => return Err(NameFault::Unreadable),
        Behind::Another => return Ok(Step::Another((next + 1) as u16)),
        Behind::Slash => slash = true,
        Behind::Nothing => {}
    }
    Ok(Step::Last(Tail { dots, slash, next }))
}

/// What follows a name of this length at an address.
fn what_follows(memory: &Memory, p: Pid, at: u16, len: u8) -> Behind
    requires process { p.0 < 33 }
    requires some { 0 < len }
    ensures behind { behind_of result ≡ behind_model (cells_of memory.now p.0) (at + len) }
    ensures another { result ≡ Behind.Another → at + len + 1 < 65536 }
{
    let len = u16::from(len);
    if is_marked(memory.byte(p, at, len - 1)) {
        return Behind::Nothing;
    }
    match memory.byte(p, at, len) {
        None => Behind::Unreadable,
        Some(b'/') => behind_slash(memory.byte(p, at, len + 1)),
        Some(_) => Behind::Nothing,
    }
}

/// Does a byte have bit 7?
fn is_marked(byte: Option<u8>) -> bool
    ensures { result ≡ is_marked_model byte }
{
    matches!(byte, Some(128..=255))
}

/// What a slash means if this byte follows it.
fn behind_slash(byte: Option<u8>) -> Behind
    ensures { behind_of result ≡ behind_slash_model byte }
{
    match byte {
        None => Behind::Unreadable,
        Some(byte) if is_name_character(byte % 128) => Behind::Another,
        Some(_) => Behind::Slash,
    }
}

/// Is it a letter, a digit, `_` or `.`?
fn is_name_character(character: u8) -> bool
    ensures { result ≡ is_name_character_model character }
{
    matches!(character, b'a'..=b'z' | b'A'..=b'Z' | b'0'..=b'9' | b'_' | b'.')
}

/// Does it name a directory itself or its parent?
fn is_dots(name: &Name) -> bool
    ensures { result ≡ is_dots_model name.now }
{
    match name.len() {
        1 => name.byte(0) == b'.',
        2 => name.byte(0) == b'.' && name.byte(1) == b'.',
        _ => false,
    }
}

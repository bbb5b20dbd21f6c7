ghost use Rattle.std.specs.Prelude.{◌≡◌, ◌+◌, ◌≤◌, None, Some, IfNone, IfSome, length, take};
ghost use Rattle.os9_base.specs.UserNames.{user_cell, goes_on as goes_on_model, run_bytes, name_at};
ghost use Rattle.os9_base.specs.Name.{is_name_character as is_name_character_model};

use crate::memory::UserMem;
use crate::name::{Name, parse_name};
use crate::name_fault::NameFault;

/// The most bytes that are read of a run of name characters.
const MOST_READ: u16 = 30;

/// The byte at an offset from an address; None if it is in no named slot or past `FFFF`.
pub fn user_byte<M: UserMem>(memory: &M, at: u16, offset: u16) -> Option<u8>
    ensures { result ≡ user_cell (M.cells memory.now) (at + offset) }
{
    let address = at.checked_add(offset)?;
    if !memory.fits(address, 1) {
        return None;
    }
    let mut byte = [0];
    memory.load(address, &mut byte);
    Some(byte[0])
}

/// Reads the name at an address (System Programmer's Manual, F$PrsNam): the longest run of letters,
/// digits, `_` and `.`, which a character with bit 7 ends. The byte after a name is read too,
/// unless bit 7 ended the name. Of a run of 30 characters or more 30 bytes are read.
///
/// # Errors
///
/// `Unreadable` exactly if one of these bytes is in no named slot or past `FFFF`, else `NoName`
/// exactly if the run is empty or has more than 29 characters.
pub fn read_name<M: UserMem>(memory: &M, at: u16) -> Result<Name, NameFault>
    ensures { result ≡ name_at (M.cells memory.now) at }
{
    let mut run = [0; 30];
    let Some(count) = read_run(memory, at, &mut run) else {
        return Err(NameFault::Unreadable);
    };
    match parse_name(&run[..count]) {
        Ok(name) => Ok(name),
        Err(_) => Err(NameFault::NoName),
    }
}

/// Reads the bytes of a run from an address on into the front of a buffer. Returns the number of
/// bytes, or None if one of them is in no named slot or past `FFFF`.
pub fn read_run<M: UserMem>(memory: &M, at: u16, into: &mut [u8]) -> Option<usize>
    requires { length into.old ≡ 30 }
    ensures none { IfNone result (run_bytes (M.cells memory.now) at 30 ≡ None) }
    ensures some { IfSome result (λ count. run_bytes (M.cells memory.now) at 30
        ≡ Some (take count into.new)) }
    ensures short { IfSome result (λ count. count ≤ 30) }
    ensures room { length into.new ≡ 30 }
{
    for count in 0..MOST_READ {
        let byte = user_byte(memory, at, count)?;
        into[count as usize] = byte;
        if !goes_on(byte) {
            return Some(count as usize + 1);
        }
    }
    Some(MOST_READ as usize)
}

/// Does a run of name characters go on after this byte?
fn goes_on(byte: u8) -> bool
    ensures { result ≡ goes_on_model byte }
{
    byte < 0x80 && is_name_character(byte)
}

fn is_name_character(character: u8) -> bool
    ensures { result ≡ is_name_character_model character }
{
    matches!(character, b'a'..=b'z' | b'A'..=b'Z' | b'0'..=b'9' | b'_' | b'.')
}

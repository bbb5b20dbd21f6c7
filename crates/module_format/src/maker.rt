ghost use Rattle.std.specs.Prelude.{◌≡◌, ◌≤◌, ◌<◌, ◌+◌, ◌-◌, ◌++◌, ◌∷◌, [], length, IfOk, slice_range};
ghost use Rattle.proc_model.specs.UserBytes.{word_bytes};
ghost use Rattle.os9_base.specs.Name.{IsName, marked_name};
ghost use Rattle.os9_base.specs.declared.limits.TheConstants.{MOST_GROUP_BYTES};
ghost use Rattle.proc_model.specs.Module.{IsModule, info_at};
ghost use Rattle.module_format.specs.GuestModule.{made_module, made_info, BeginsWithin, guest_module, guest_info, guest_size, code_offset, is_program_kind, kind_header_length, header_front, parity_of, program_fields, crc_bytes};

use crate::crc24;
use os9_base::call::OutOfMemory;
use os9_base::name::Name;
use std::alloc::{AllocError, Global};

/// The type of a program; only this type has an execution offset and a storage size.
const PROGRAM: u8 = 1;

/// The number of bytes of the CRC.
const CRC_LENGTH: u16 = 3;

/// What the header of a module says in addition to the name and the size.
#[derive(Clone, Copy)]
pub struct Header {
    /// The type (high half) and the language (low half).
    pub kind: u8,
    /// The attributes (high half) and the revision (low half).
    pub attr: u8,
    /// The place in the module at which a program begins; not used for another type.
    pub entry: u16,
    /// The size of a program's data memory in bytes; not used for another type.
    pub storage: u16,
}

/// What the header of a module that begins at its code says in addition to the name and the size:
/// the fields of a [`Header`] without the entry.
#[derive(Clone, Copy)]
pub struct CodeHeader {
    pub kind: u8,
    pub attr: u8,
    pub storage: u16,
}

/// Makes a module (System Programmer's Manual, "Memory module structure") from its name, the fields
/// of its header and its code.
///
/// The name follows the header and the code follows the name, without gaps; a program begins at the
/// start of its code. A module of a type other than 1 has no size of data memory.
///
/// # Errors
///
/// Only `OutOfMemory`.
pub fn module(
    alloc: Global,
    name: &Name,
    header: CodeHeader,
    code: &[u8],
) -> Result<Vec<u8>, OutOfMemory>
    requires filled { 0 < length code.now }
    requires short { guest_size name.now header.kind code.now ≤ MOST_GROUP_BYTES }
    ensures module { IfOk result (λ bytes. IsModule bytes.items) }
    ensures info { IfOk result (λ bytes. info_at 0 bytes.items
        ≡ guest_info name.now header.kind header.attr header.storage code.now) }
    ensures bytes { IfOk result (λ bytes. bytes.items
        ≡ guest_module name.now header.kind header.attr header.storage code.now) }
{
    let header = Header {
        kind: header.kind,
        attr: header.attr,
        entry: u16::from(header_length(header.kind)) + u16::from(name.len()),
        storage: header.storage,
    };
    module_with(alloc, name, header, code)
}

/// Makes a module from its name, the fields of its header and its code, like [`module`]; a program
/// begins at the entry of the header.
///
/// # Errors
///
/// Only `OutOfMemory`.
pub fn module_with(
    alloc: Global,
    name: &Name,
    header: Header,
    code: &[u8],
) -> Result<Vec<u8>, OutOfMemory>
    requires begins { BeginsWithin name.now header code.now }
    requires short { guest_size name.now header.kind code.now ≤ MOST_GROUP_BYTES }
    ensures module { IfOk result (λ bytes. IsModule bytes.items) }
    ensures info { IfOk result (λ bytes. info_at 0 bytes.items
        ≡ made_info name.now header code.now) }
    ensures bytes { IfOk result (λ bytes. bytes.items ≡ made_module name.now header code.now) }
{
    let mut bytes = Vec::new(alloc);
    push_header(&mut bytes, name, header, code.len() as u16)?;
    push_name(&mut bytes, name)?;
    bytes.extend_from_slice(code)?;
    let crc = crc24(&bytes);
    push_crc(&mut bytes, crc)?;
    Ok(bytes)
}

// Appends the header of a module with `code_length` bytes of code to these bytes.
fn push_header(
    bytes: &mut Vec<u8>,
    name: &Name,
    header: Header,
    code_length: u16,
) -> Result<(), AllocError>
    requires { code_offset name.now header.kind + code_length + 3 ≤ MOST_GROUP_BYTES }
    ensures { IfOk result (λ _. bytes.new.items ≡ bytes.old.items
        ++ (header_front (code_offset name.now header.kind + code_length + 3)
        header.kind header.attr
        ++ parity_of (header_front (code_offset name.now header.kind + code_length + 3)
        header.kind header.attr)
        ∷ program_fields header.kind header.entry header.storage)) }
{
    let length = header_length(header.kind);
    let size = u16::from(length) + u16::from(name.len()) + code_length + CRC_LENGTH;
    let [size_high, size_low] = size.to_be_bytes();
    let front = [
        0x87,
        0xcd,
        size_high,
        size_low,
        0,
        length,
        header.kind,
        header.attr,
    ];
    bytes.extend_from_slice(&front)?;
    bytes.push(parity(&front))?;
    if is_program(header.kind) {
        push_word(bytes, header.entry)?;
        push_word(bytes, header.storage)?;
    }
    Ok(())
}

// The length of the header of a module of this type.
fn header_length(kind: u8) -> u8
    ensures { result ≡ kind_header_length kind }
{
    if is_program(kind) { 13 } else { 9 }
}

// Is the type 1?
fn is_program(kind: u8) -> bool
    ensures { result ≡ is_program_kind kind }
{
    kind >> 4 == PROGRAM
}

// The byte that makes the exclusive or of the header's first nine bytes `FF`.
fn parity(front: &[u8]) -> u8
    ensures { result ≡ parity_of front.now }
{
    0xff - front.iter().fold(0, |parity, byte| parity ^ *byte)
}

// Appends the name, with bit 7 on its last character, to these bytes.
fn push_name(bytes: &mut Vec<u8>, name: &Name) -> Result<(), AllocError>
    ensures bytes { IfOk result (λ _. bytes.new.items ≡ bytes.old.items ++ marked_name name.now) }
    ensures name { IsName name.now }
{
    let last = name.len() - 1;
    for i in 0..last {
        bytes.push(name.byte(i))?;
    }
    bytes.push(name.byte(last) + 0x80)?;
    Ok(())
}

// Appends a word, high byte first, to these bytes.
fn push_word(bytes: &mut Vec<u8>, word: u16) -> Result<(), AllocError>
    ensures { IfOk result (λ _. bytes.new.items ≡ bytes.old.items ++ word_bytes word) }
{
    bytes.extend_from_slice(&word.to_be_bytes())
}

// Appends the three bytes of a CRC to these bytes.
fn push_crc(bytes: &mut Vec<u8>, crc: u32) -> Result<(), AllocError>
    requires { crc < 16777216 }
    ensures { IfOk result (λ _. bytes.new.items ≡ bytes.old.items ++ crc_bytes crc) }
{
    let [_, high, middle, low] = crc.to_be_bytes();
    bytes.extend_from_slice(&[high, middle, low])
}

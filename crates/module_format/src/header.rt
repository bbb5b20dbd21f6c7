ghost use Rattle.std.specs.Prelude.{◌≡◌, ◌+◌, ◌<◌, ◌≤◌, ◌&&◌, length, take, true, is_some, IfOk, IfSome, Option, Some};
ghost use Rattle.std.specs.Result.{result_err};
ghost use Rattle.proc_model.specs.CrcModel.{crc_register};
ghost use Rattle.proc_model.specs.Module as model;
ghost use Rattle.proc_model.specs.Module.{header_word, module_size, module_name, module_entry, has_sync, has_size, has_module_name, crc_offset, keeps_header_rule, keeps_parity_rule, keeps_crc_rule, module_fault, info_at, IsModule};

use crate::crc::crc24;
use byteorder::{BigEndian, ByteOrder};
use os9_base::name::{Name, header_name};
use proc_model::module::{ModuleFault, ModuleInfo};

/// The sync bytes at the front of a module.
const SYNC: u16 = 0x87cd;

/// The type of a program; only this type has an execution offset and a storage size.
const PROGRAM: u8 = 1;

/// The number of bytes of the CRC.
const CRC_LENGTH: u16 = 3;

/// Reads the module at the front of these bytes (System Programmer's Manual, "Memory module
/// structure"). Its bytes are the first `size` of them.
///
/// # Errors
///
/// The first of the header rule, the parity rule and the CRC rule that the bytes break.
pub fn read_module(bytes: &[u8]) -> Result<ModuleInfo, ModuleFault>
    ensures fault { result_err result ≡ module_fault bytes.now }
    ensures fields { IfOk result (λ info. info ≡ info_at 0 bytes.now) }
    ensures name { IfOk result (λ info. module_name bytes.now ≡ Some info.name) }
    ensures within { IfOk result (λ info. info.size ≤ length bytes.now) }
    ensures entry { IfOk result (λ info. info.entry + 3 < info.size) }
    ensures module { IfOk result (λ info. IsModule (take info.size bytes.now)) }
    // The usual test of a CRC: over the whole module the register ends at one constant.
    ensures residue { IfOk result (λ info. crc_register 0xFFFFFF (take info.size bytes.now)
        ≡ 0x800FE3) }
{
    let info = read_header(bytes).ok_or(ModuleFault::BadSync)?;
    if !has_parity(bytes) {
        return Err(ModuleFault::BadParity);
    }
    if !has_crc(bytes, info.size - CRC_LENGTH) {
        return Err(ModuleFault::BadCrc);
    }
    Ok(info)
}

/// Reads the header, if it keeps its rule.
fn read_header(bytes: &[u8]) -> Option<ModuleInfo>
    ensures rule { is_some result ≡ keeps_header_rule bytes.now }
    ensures fields { IfSome result (λ info. info ≡ info_at 0 bytes.now) }
{
    if !is_sized(bytes) {
        return None;
    }
    let size = word(bytes, 2);
    let name = read_name(bytes)?;
    let entry = program_word(bytes, 9);
    if entry >= size - CRC_LENGTH {
        return None;
    }
    Some(ModuleInfo {
        name,
        at: 0,
        size,
        kind: bytes[6],
        attr: bytes[7],
        entry,
        storage: program_word(bytes, 11),
    })
}

/// Are the sync bytes there, and is there room for the least module and for all of this one?
fn is_sized(bytes: &[u8]) -> bool
    ensures { result ≡ (has_sync bytes.now && has_size bytes.now) }
{
    if bytes.len() < 13 {
        return false;
    }
    let size = word(bytes, 2);
    word(bytes, 0) == SYNC && size >= header_length(bytes) + 4 && size as usize <= bytes.len()
}

/// The name between the header and the CRC, if there is one.
fn read_name(bytes: &[u8]) -> Option<Name>
    requires { has_size bytes.now ≡ true }
    ensures rule { is_some result ≡ has_module_name bytes.now }
    ensures name { IfSome result (λ name. module_name bytes.now ≡ Some name) }
{
    let offset = word(bytes, 4);
    let end = word(bytes, 2) - CRC_LENGTH;
    if offset < header_length(bytes) || offset > end {
        return None;
    }
    header_name(&bytes[offset as usize..end as usize]).ok()
}

/// Is the exclusive or of the header's first nine bytes `FF`?
fn has_parity(bytes: &[u8]) -> bool
    requires { 9 ≤ length bytes.now }
    ensures { result ≡ keeps_parity_rule bytes.now }
{
    bytes[..9].iter().fold(0, |parity, byte| parity ^ *byte) == 0xff
}

/// Is the number in the three bytes from `end` on the CRC of the bytes before them?
fn has_crc(bytes: &[u8], end: u16) -> bool
    requires place { end ≡ crc_offset bytes.now }
    requires within { end + 3 ≤ length bytes.now }
    ensures { result ≡ keeps_crc_rule bytes.now }
{
    let (body, crc) = bytes.split_at(end as usize);
    BigEndian::read_u24(crc) == crc24(body)
}

/// The word at a place, high byte first.
fn word(bytes: &[u8], at: usize) -> u16
    requires { at + 2 ≤ length bytes.now }
    ensures { result ≡ header_word bytes.now at }
{
    BigEndian::read_u16(&bytes[at..])
}

/// The word at a place of a program's header, or 0 in a module of another type.
fn program_word(bytes: &[u8], at: usize) -> u16
    requires kind { 6 < length bytes.now }
    requires within { at + 2 ≤ length bytes.now }
    ensures { result ≡ model.program_word bytes.now at }
{
    if is_program(bytes) {
        word(bytes, at)
    } else {
        0
    }
}

/// The length of the header.
fn header_length(bytes: &[u8]) -> u16
    requires { 6 < length bytes.now }
    ensures { result ≡ model.header_length bytes.now }
{
    if is_program(bytes) { 13 } else { 9 }
}

/// Is the type 1?
fn is_program(bytes: &[u8]) -> bool
    requires { 6 < length bytes.now }
    ensures { result ≡ model.is_program bytes.now }
{
    bytes[6] >> 4 == PROGRAM
}

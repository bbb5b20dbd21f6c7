//! The CRC of a process's bytes.

ghost use Rattle.std.specs.Prelude.{◌≡◌, ◌<◌, OnSome, IfSome, option_map, length};
ghost use Rattle.byteorder.specs.Endian.{big_number};
ghost use Rattle.os9_base.specs.Cells.{FitsIn};
ghost use Rattle.guest_memory.specs.Tie.{cells_of};
ghost use Rattle.proc_model.specs.CrcModel.{crc_register};
ghost use Rattle.proc_model.specs.MemoryChanges.{stored};
ghost use Rattle.proc_model.specs.Records.{IsLiving};
ghost use Rattle.proc_model.specs.Crc as model;
ghost use Rattle.proc_model.specs.Crc.{crc_bytes};
ghost use Rattle.proc_model.specs.Processes.{Processes, cells_at, with_memory};
ghost use Rattle.proc_model.specs.UserBytes.{user_bytes};
ghost use Rattle.proc_state.specs.Tie.{RepresentsProcesses, ReturnsDoneOrRefused, ReturnsCallEnd, AreProcessesSame};

use byteorder::{BigEndian, ByteOrder};
use module_format::crc_step;
use os9_base::call::CallEnd;
use os9_base::errors::E_BPADDR;
use os9_base::registers::Pid;
use proc_state::outcome::call_end;
use proc_state::state::ProcState;

/// The number of bytes of the accumulator of a CRC.
const CRC_BYTES: u16 = 3;

/// F$CRC: continues a CRC (System Programmer's Manual, F$CRC). Takes the address of the bytes in X,
/// their count in Y, and the address of the accumulator of three bytes in U.
///
/// # Errors
///
/// E$BPAddr exactly if one of these bytes is in no named slot or past `FFFF`. Nothing has changed
/// then.
pub fn f_crc(s: &mut ProcState, p: Pid) -> CallEnd
    requires lives { IsLiving s.old.table p.0 }
    ensures call { (m : Processes) → RepresentsProcesses s.old m
        → ReturnsCallEnd m p.0 (model.f_crc m p.0) result s.new }
    ensures lives { IsLiving s.new.table p.0 }
{
    call_end(crc(s, p))
}

fn crc(s: &mut ProcState, p: Pid) -> Result<(), u8>
    requires lives { IsLiving s.old.table p.0 }
    ensures call { (m : Processes) → RepresentsProcesses s.old m
        → ReturnsDoneOrRefused m (model.f_crc m p.0) result s.new }
    ensures lives { IsLiving s.new.table p.0 }
{
    let regs = s.regs(p);
    let Some(start) = read_register(s, p, regs.u) else {
        return Err(E_BPADDR);
    };
    let Some(register) = continue_crc(s, p, regs.x, regs.y, start) else {
        return Err(E_BPADDR);
    };
    store_register(s, p, regs.u, register);
    Ok(())
}

/// The register of a CRC that is stored in an accumulator; None if one of its bytes is in no named
/// slot or past `FFFF`.
fn read_register(s: &mut ProcState, p: Pid, at: u16) -> Option<u32>
    requires { p.0 < 33 }
    ensures read { (m : Processes) → RepresentsProcesses s.old m
        → result ≡ option_map (big_number 3) (user_bytes (cells_at m p.0) at 3) }
    ensures below { IfSome result (λ register. register < 16777216) }
    ensures fits { OnSome result (FitsIn (cells_of s.new.memory p.0) at 3) }
    ensures same { AreProcessesSame s.old s.new }
{
    if s.read_bytes(p, at, CRC_BYTES) {
        Some(register_in(&s.buffer[..CRC_BYTES as usize]))
    } else {
        None
    }
}

/// The register of a CRC that these three bytes hold.
fn register_in(accumulator: &[u8]) -> u32
    requires { length accumulator.now ≡ 3 }
    ensures value { result ≡ big_number 3 accumulator.now }
    ensures below { result < 16777216 }
{
    BigEndian::read_u24(accumulator)
}

/// The register of a CRC after `count` bytes from an address on; None if one of them is in no named
/// slot or past `FFFF`.
fn continue_crc(s: &mut ProcState, p: Pid, at: u16, count: u16, register: u32) -> Option<u32>
    requires process { p.0 < 33 }
    requires below { register < 16777216 }
    ensures read { (m : Processes) → RepresentsProcesses s.old m
        → result ≡ option_map (crc_register register) (user_bytes (cells_at m p.0) at count) }
    ensures below { IfSome result (λ after. after < 16777216) }
    ensures same { AreProcessesSame s.old s.new }
{
    if s.read_bytes(p, at, count) {
        Some(crc_step(register, &s.buffer[..count as usize]))
    } else {
        None
    }
}

/// Stores the register of a CRC in an accumulator.
fn store_register(s: &mut ProcState, p: Pid, at: u16, register: u32)
    requires process { p.0 < 33 }
    requires below { register < 16777216 }
    requires fits { FitsIn (cells_of s.old.memory p.0) at 3 }
    ensures tied { (m : Processes) → RepresentsProcesses s.old m
        → RepresentsProcesses s.new (with_memory m (stored m.memory p.0 at (crc_bytes register))) }
    ensures records { s.new.table ≡ s.old.table }
{
    let high = (register / 65536) as u8;
    let middle = (register / 256 % 256) as u8;
    let low = (register % 256) as u8;
    s.memory.store(p, at, &[high, middle, low]);
}

//! Packets in the memory of a process.

ghost use Rattle.std.specs.Prelude.{◌≡◌, ◌<◌, option_map, length};
ghost use Rattle.os9_base.specs.Cells.{FitsIn};
ghost use Rattle.guest_memory.specs.Tie.{cells_of};
ghost use Rattle.proc_model.specs.MemoryChanges.{stored};
ghost use Rattle.proc_model.specs.Processes.{Processes, cells_at, with_memory};
ghost use Rattle.proc_model.specs.UserBytes.{user_bytes};
ghost use Rattle.proc_state.specs.Tie.{RepresentsProcesses, AreProcessesSame};
ghost use Rattle.time_rules.specs.Packet as model;
ghost use Rattle.time_rules.specs.declared.clock.TheConstants.{PACKET_BYTES};

use os9_base::registers::{Pid, TimePacket};
use proc_state::state::ProcState;
use time_rules::clock::PACKET_BYTES;

/// The packet at this address in the memory of a process; None if one of its bytes is in no named
/// slot or past `FFFF`.
pub(crate) fn read_packet(s: &mut ProcState, p: Pid, at: u16) -> Option<TimePacket>
    requires { p.0 < 33 }
    ensures read { (m : Processes) → RepresentsProcesses s.old m
        → result ≡ option_map model.packet_of (user_bytes (cells_at m p.0) at PACKET_BYTES) }
    ensures same { AreProcessesSame s.old s.new }
{
    if s.read_bytes(p, at, PACKET_BYTES as u16) {
        Some(packet_of(&s.buffer[..PACKET_BYTES]))
    } else {
        None
    }
}

/// The packet with these six bytes.
fn packet_of(bytes: &[u8]) -> TimePacket
    requires { length bytes.now ≡ PACKET_BYTES }
    ensures { result ≡ model.packet_of bytes.now }
{
    TimePacket {
        year: bytes[0],
        month: bytes[1],
        day: bytes[2],
        hour: bytes[3],
        minute: bytes[4],
        second: bytes[5],
    }
}

/// Stores a packet at this address in the memory of a process; it fits there.
pub(crate) fn store_packet(s: &mut ProcState, p: Pid, at: u16, packet: TimePacket)
    requires process { p.0 < 33 }
    requires fits { FitsIn (cells_of s.old.memory p.0) at PACKET_BYTES }
    ensures tied { (m : Processes) → RepresentsProcesses s.old m → RepresentsProcesses s.new
        (with_memory m (stored m.memory p.0 at (model.packet_bytes packet))) }
    ensures records { s.new.table ≡ s.old.table }
    ensures tick { s.new.tick ≡ s.old.tick }
{
    s.memory.store(p, at, &packet_bytes(packet));
}

/// The bytes of a packet.
fn packet_bytes(t: TimePacket) -> [u8; PACKET_BYTES]
    ensures { result ≡ model.packet_bytes t }
{
    [t.year, t.month, t.day, t.hour, t.minute, t.second]
}

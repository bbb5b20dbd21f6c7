//! The calls on paths by their names.

ghost use Rattle.std.specs.Prelude.{◌≡◌, None, vec_len};
ghost use Rattle.io_state.specs.Context.{InCall, SameDrives};
ghost use Rattle.call_dispatch.specs.Staying.{MayAttemptIo};
ghost use Rattle.io_model.specs.Io.{pending_at};
ghost use Rattle.device_io.specs.Streams.{streams};
ghost use Rattle.device_io.specs.Trying.{IoAttemptedFrom, WantsMemoryFrom};

use device_io::stream_reads::{i_read, i_readln};
use device_io::stream_writes::{f_perr, i_write, i_writln};
use device_paths::numbers::{i_close, i_dup};
use device_paths::open::{i_create, i_open};
use device_paths::status::{i_getstt, i_setstt};
use device_table::devices::Devices;
use io_model::io_call::IoCall;
use io_state::requester::Requester;
use io_state::state::IoState;
use os9_base::call::CallEnd;
use os9_outer::terminal::CharDriver;
use proc_state::state::ProcState;

/// An attempt of a call on paths by a living process (System Programmer's Manual, "I/O service
/// requests"). The process does not get its result yet. If the process has a pending call, this is
/// a further attempt of it, with the registers of that call. `NoMemory` occurs only if a byte was
/// to be put on a terminal.
///
/// # Errors
///
/// Those of the calls, in the order of their definitions.
#[tactic(auto, using(crate::proofs::Quiet::is_first_if))]
pub fn attempt_on_stream(
    s: &mut ProcState,
    io: &mut IoState,
    devices: &mut Devices,
    by: Requester,
    call: IoCall,
) -> CallEnd
    requires calls { InCall by s.old }
    requires may { MayAttemptIo call s.old io.old by.p.0 (vec_len devices.old.terms) }
    requires status { call ≡ IoCall.SetStt → pending_at io.old by.p.0 ≡ None }
    ensures call { IoAttemptedFrom call (vec_len devices.old.drives) by.p.0 result s.old s.new
        (streams CharDriver-box io.old devices.old) (streams CharDriver-box io.new devices.new) }
    ensures memory { WantsMemoryFrom call (vec_len devices.old.drives) by.p.0 result s.old
        (streams CharDriver-box io.old devices.old) (streams CharDriver-box io.new devices.new) }
    ensures kept { SameDrives by s.new devices.old devices.new }
{
    // A call that moves no byte is at its first attempt; SS.Size and SS.Lock wait on files alone.
    prove!(io.pending(by.p).is_none() || call.direction().is_some());
    match call {
        IoCall::Dup => i_dup(s, io, by.p),
        IoCall::Create => i_create(s, io, by.p, devices),
        IoCall::Open => i_open(s, io, by.p, devices),
        IoCall::Close => i_close(s, io, by.p),
        IoCall::Read => i_read(s, io, devices, by),
        IoCall::ReadLn => i_readln(s, io, devices, by),
        IoCall::Write => i_write(s, io, devices, by),
        IoCall::WritLn => i_writln(s, io, devices, by),
        IoCall::GetStt => i_getstt(s, io, by.p),
        IoCall::SetStt => i_setstt(s, io, by.p),
        IoCall::PErr => f_perr(s, io, devices, by),
    }
}

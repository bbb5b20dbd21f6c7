ghost use Rattle.std.specs.Prelude.{◌≡◌};
ghost use Rattle.proc_model.specs.Codes.{call_of};

use os9_base::calls::{
    F_CHAIN, F_CMPNAM, F_CRC, F_EXIT, F_FORK, F_ICPT, F_ID, F_LINK, F_MEM, F_PRSNAM, F_SEND,
    F_SLEEP, F_SPRIOR, F_SUSER, F_UNLINK, F_UNLOAD, F_WAIT,
};

/// A call on processes and modules (System Programmer's Manual, "User mode service requests").
#[derive(Clone, Copy, Debug, PartialEq, Eq)]
pub enum ProcCall {
    /// F$Link: links a module.
    Link,
    /// F$UnLink: gives up a link to a module.
    UnLink,
    /// F$Fork: starts a process.
    Fork,
    /// F$Wait: waits for the end of a child.
    Wait,
    /// F$Chain: starts another program in this process.
    Chain,
    /// F$Exit: ends the process.
    Exit,
    /// F$Mem: sets the size of the data area.
    Mem,
    /// F$Send: sends a signal.
    Send,
    /// F$Icpt: sets the intercept.
    Icpt,
    /// F$Sleep: sleeps.
    Sleep,
    /// F$ID: returns the process number and the user.
    Id,
    /// F$SPrior: sets a priority.
    SPrior,
    /// F$PrsNam: parses a name.
    PrsNam,
    /// F$CmpNam: compares two names.
    CmpNam,
    /// F$CRC: continues a CRC.
    Crc,
    /// F$SUser: sets the user.
    SUser,
    /// F$UnLoad: gives up a link to a module by its name.
    UnLoad,
}

/// The call on processes and modules with this code, or None if no such call has it.
pub fn proc_call(code: u8) -> Option<ProcCall>
    ensures { result ≡ call_of code }
{
    match code {
        F_LINK => Some(ProcCall::Link),
        F_UNLINK => Some(ProcCall::UnLink),
        F_FORK => Some(ProcCall::Fork),
        F_WAIT => Some(ProcCall::Wait),
        F_CHAIN => Some(ProcCall::Chain),
        F_EXIT => Some(ProcCall::Exit),
        F_MEM => Some(ProcCall::Mem),
        F_SEND => Some(ProcCall::Send),
        F_ICPT => Some(ProcCall::Icpt),
        F_SLEEP => Some(ProcCall::Sleep),
        F_ID => Some(ProcCall::Id),
        F_SPRIOR => Some(ProcCall::SPrior),
        F_PRSNAM => Some(ProcCall::PrsNam),
        F_CMPNAM => Some(ProcCall::CmpNam),
        F_CRC => Some(ProcCall::Crc),
        F_SUSER => Some(ProcCall::SUser),
        F_UNLOAD => Some(ProcCall::UnLoad),
        _ => None,
    }
}

//! The calls that use an open path.

ghost use Rattle.std.specs.Prelude.{◌≡◌};
ghost use Rattle.io_model.specs.Again as model;
ghost use Rattle.call_dispatch.specs.Uses.{device_of};

use io_model::io_call::IoCall;
use io_model::modes::STANDARD_ERROR;
use os9_base::registers::Regs;

/// A call that uses an open path, and does one thing on a file or a directory and another on a
/// terminal or a pipe (System Programmer's Manual, "I/O service requests").
#[derive(Clone, Copy, Debug, PartialEq, Eq)]
pub enum PathUse {
    /// I$Read: reads bytes.
    Read,
    /// I$ReadLn: reads a line.
    ReadLn,
    /// I$Write: writes bytes.
    Write,
    /// I$WritLn: writes a line.
    WritLn,
    /// I$GetStt: gets the status of a path.
    GetStt,
    /// I$SetStt: sets the status of a path.
    SetStt,
    /// F$PErr: writes the number of an error.
    PErr,
}

impl PathUse {
    /// The same call on a terminal or a pipe.
    pub fn on_device(self) -> IoCall
        ensures { result ≡ device_of self }
    {
        match self {
            PathUse::Read => IoCall::Read,
            PathUse::ReadLn => IoCall::ReadLn,
            PathUse::Write => IoCall::Write,
            PathUse::WritLn => IoCall::WritLn,
            PathUse::GetStt => IoCall::GetStt,
            PathUse::SetStt => IoCall::SetStt,
            PathUse::PErr => IoCall::PErr,
        }
    }

    /// The number of the path that it uses, by the registers of its process: that of standard error
    /// for F$PErr, else the one in A.
    pub fn path_number(self, regs: Regs) -> u8
        ensures { result ≡ model.path_number (device_of self) regs }
    {
        match self {
            PathUse::PErr => STANDARD_ERROR,
            _ => regs.a,
        }
    }
}

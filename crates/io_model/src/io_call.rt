ghost use Rattle.std.specs.Prelude.{◌≡◌};
ghost use Rattle.io_model.specs.Codes.{io_call_of, direction_of_call};

use os9_base::calls::{
    F_PERR, I_CLOSE, I_CREATE, I_DUP, I_GETSTT, I_OPEN, I_READ, I_READLN, I_SETSTT, I_WRITE,
    I_WRITLN,
};

/// A call on paths (System Programmer's Manual, "I/O service requests").
#[derive(Clone, Copy, Debug, PartialEq, Eq)]
pub enum IoCall {
    /// I$Dup: gives a path another number.
    Dup,
    /// I$Create: makes a file; opens a terminal or a pipe.
    Create,
    /// I$Open: opens a path.
    Open,
    /// I$Close: closes a path number.
    Close,
    /// I$Read: reads bytes.
    Read,
    /// I$ReadLn: reads a line.
    ReadLn,
    /// I$Write: writes bytes.
    Write,
    /// I$WritLn: writes a line.
    WritLn,
    /// I$GetStt: asks for the status of a path.
    GetStt,
    /// I$SetStt: sets the status of a path.
    SetStt,
    /// F$PErr: writes the number of an error.
    PErr,
}

/// The call on paths that has this code; None if no such call has it.
pub fn io_call(code: u8) -> Option<IoCall>
    ensures { result ≡ io_call_of code }
{
    match code {
        I_DUP => Some(IoCall::Dup),
        I_CREATE => Some(IoCall::Create),
        I_OPEN => Some(IoCall::Open),
        I_CLOSE => Some(IoCall::Close),
        I_READ => Some(IoCall::Read),
        I_READLN => Some(IoCall::ReadLn),
        I_WRITE => Some(IoCall::Write),
        I_WRITLN => Some(IoCall::WritLn),
        I_GETSTT => Some(IoCall::GetStt),
        I_SETSTT => Some(IoCall::SetStt),
        F_PERR => Some(IoCall::PErr),
        _ => None,
    }
}

/// The direction in which a call moves bytes.
#[derive(Clone, Copy, Debug, PartialEq, Eq)]
pub enum Direction {
    /// It reads them.
    Reading,
    /// It writes them.
    Writing,
}

impl IoCall {
    /// The direction in which the call moves bytes; None if it moves none.
    pub fn direction(self) -> Option<Direction>
        ensures { result ≡ direction_of_call self }
    {
        match self {
            IoCall::Read | IoCall::ReadLn => Some(Direction::Reading),
            IoCall::Write | IoCall::WritLn | IoCall::PErr => Some(Direction::Writing),
            IoCall::Dup | IoCall::Create | IoCall::Open | IoCall::Close => None,
            IoCall::GetStt | IoCall::SetStt => None,
        }
    }
}

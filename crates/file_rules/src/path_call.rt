ghost use Rattle.std.specs.Prelude.{◌≡◌};
ghost use Rattle.file_rules.specs.Codes.{path_call_of};

use os9_base::calls::{
    F_PERR, I_CHGDIR, I_CLOSE, I_CREATE, I_DELETE, I_DELETX, I_DUP, I_GETSTT, I_MAKDIR, I_OPEN,
    I_READ, I_READLN, I_SEEK, I_SETSTT, I_WRITE, I_WRITLN,
};

/// A call on paths, files and directories (System Programmer's Manual, "I/O service requests").
#[derive(Clone, Copy, Debug, PartialEq, Eq)]
pub enum PathCall {
    /// I$Dup: gives a path another number.
    Dup,
    /// I$Create: makes a file; opens a terminal or a pipe.
    Create,
    /// I$Open: opens a path.
    Open,
    /// I$MakDir: makes a directory.
    MakDir,
    /// I$ChgDir: changes a directory of the process.
    ChgDir,
    /// I$Delete: deletes a file.
    Delete,
    /// I$DeletX: deletes a file, from the directory that the mode chooses.
    DeletX,
    /// I$Seek: sets the position of a path.
    Seek,
    /// I$Read: reads bytes.
    Read,
    /// I$Write: writes bytes.
    Write,
    /// I$ReadLn: reads a line.
    ReadLn,
    /// I$WritLn: writes a line.
    WritLn,
    /// I$GetStt: gets the status of a path.
    GetStt,
    /// I$SetStt: sets the status of a path.
    SetStt,
    /// I$Close: closes a path number.
    Close,
    /// F$PErr: writes the number of an error.
    PErr,
}

/// The call on paths, files and directories with this code; None if there is none.
pub fn path_call(code: u8) -> Option<PathCall>
    ensures { result ≡ path_call_of code }
{
    match code {
        I_DUP => Some(PathCall::Dup),
        I_CREATE => Some(PathCall::Create),
        I_OPEN => Some(PathCall::Open),
        I_MAKDIR => Some(PathCall::MakDir),
        I_CHGDIR => Some(PathCall::ChgDir),
        I_DELETE => Some(PathCall::Delete),
        I_DELETX => Some(PathCall::DeletX),
        I_SEEK => Some(PathCall::Seek),
        I_READ => Some(PathCall::Read),
        I_WRITE => Some(PathCall::Write),
        I_READLN => Some(PathCall::ReadLn),
        I_WRITLN => Some(PathCall::WritLn),
        I_GETSTT => Some(PathCall::GetStt),
        I_SETSTT => Some(PathCall::SetStt),
        I_CLOSE => Some(PathCall::Close),
        F_PERR => Some(PathCall::PErr),
        _ => None,
    }
}

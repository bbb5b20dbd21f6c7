ghost use Rattle.std.specs.Prelude.{◌≡◌};
ghost use Rattle.boot_run.specs.End.{boot_end, named_by, status_number};

use asm_model::error::AsmError;
use machine_model::ends::BootFault;
use rbf_check::CheckFault;

/// A file that the words of a command name.
#[derive(Clone, Copy, Debug, PartialEq, Eq)]
pub enum Input {
    /// The script of keys.
    Script,
    /// The list of slices.
    Slices,
    /// The file of modules.
    Modules,
    /// The image of a disk: 0 for that of `check` and of `vol`, or for a boot its place, from 0.
    Image(u8),
    /// FILE of `vol put`, which is read; or FILE of `vol get`, OUT of `asm`, or the history of a
    /// boot, which are written.
    File,
    /// SOURCE of `asm`.
    Source,
    /// COMMANDS of `debug`.
    Commands,
}

/// How a command ended.
#[derive(Clone, Copy, Debug, PartialEq, Eq)]
pub enum End {
    /// The command is done, and no process lives.
    Ended,
    /// The slices are used up, and a process lives.
    Living,
    /// A file could not be read.
    CannotRead(Input),
    /// The output stream could not be written.
    CannotWrite,
    /// The image of this place could not be written back.
    CannotWriteImage(u8),
    /// The file that the command makes, FILE of `vol get`, OUT of `asm` or the history of a boot,
    /// could not be written.
    CannotWriteFile,
    /// Out of memory.
    NoMemory,
    /// The image of this place is not well formed.
    BadImage(u8, CheckFault),
    /// The text in a file is refused: the first line, from 1, that breaks a rule.
    BadText(Input, u64),
    /// The first image has no boot file within its volume.
    BadBounds,
    /// A module of the boot file is refused: where it begins, and the number of the error.
    BadModule(u32, u8),
    /// The boot file has no program `SysGo`.
    NoFirst,
    /// The boot file is too long, or there is no room for it and the data area of `SysGo`.
    TooLarge,
    /// A drive failed when its image was mounted, or for `vol` when its tool was used: its number,
    /// and the number of its fault.
    DriveFailed(u8, u8),
    /// The tool of `vol` is refused: the number of the error.
    Refused(u8),
    /// A terminal failed when its keys were taken, for `debug` to go back: its number, 0 for TERM.
    TerminalFailed(u8),
    /// The source of `asm` is refused: the first line, from 1, that breaks a rule, and the least
    /// rule that it breaks. Line 0: all lines are right, but do not make a module.
    BadSource(u64, AsmError),
}

impl End {
    /// The status of the end.
    pub fn number(self) -> u8
        ensures { result ≡ status_number self }
    {
        match self {
            End::Ended => 0,
            End::Living => 5,
            End::CannotRead(_) => 2,
            End::CannotWrite | End::CannotWriteImage(_) | End::CannotWriteFile => 3,
            End::NoMemory => 4,
            End::BadImage(..) => 6,
            End::BadText(..) => 7,
            End::BadBounds | End::BadModule(..) | End::NoFirst | End::TooLarge => 8,
            End::DriveFailed(..) => 9,
            End::BadSource(..) => 10,
            End::Refused(_) => 11,
            End::TerminalFailed(_) => 12,
        }
    }

    /// The end of a command whose boot file is refused.
    pub fn of_boot_fault(fault: BootFault) -> End
        ensures { result ≡ boot_end fault }
    {
        match fault {
            BootFault::OutOfMemory => End::NoMemory,
            BootFault::BadModule(at, error) => End::BadModule(at, error),
            BootFault::NoFirst => End::NoFirst,
            BootFault::TooLarge => End::TooLarge,
        }
    }

    /// The file that the line of the end names, if it names one.
    pub fn named(self) -> Option<Input>
        ensures { result ≡ named_by self }
    {
        match self {
            End::CannotRead(input) | End::BadText(input, _) => Some(input),
            End::CannotWriteImage(number) | End::BadImage(number, _) => Some(Input::Image(number)),
            End::CannotWriteFile => Some(Input::File),
            End::Refused(_) => Some(Input::Image(0)),
            End::BadSource(..) => Some(Input::Source),
            _ => None,
        }
    }
}

//! What a call's mode asks for.

ghost use Rattle.std.specs.Prelude.{◌≡◌, ◌<◌, false};
ghost use Rattle.file_rules.specs.Open.{is_for_execution as is_for_execution_model, may_open as may_open_model, opens_kind as opens_kind_model, says_directory as says_directory_model};
ghost use Rattle.io_model.specs.Modes.{is_mode as is_mode_model};
ghost use Rattle.rbf_access.specs.Reading.{IsFdOf};
ghost use Rattle.rbf_model.specs.File.{DiskFile, is_directory as is_directory_model};

use file_rules::status::DIRECTORY;
use io_model::modes::{MODE_EXECUTE, MODE_READ, MODE_WRITE, can_write};
use rbf_sector::Fd;
use rbf_walk::may;

/// Is the mode for execution?
pub(crate) fn is_for_execution(mode: u8) -> bool
    ensures { result ≡ is_for_execution_model mode }
{
    mode & MODE_EXECUTE != 0
}

/// Does the mode have one of the bits for reading, writing and execution?
pub(crate) fn is_mode(mode: u8) -> bool
    ensures { result ≡ is_mode_model mode }
{
    mode & (MODE_READ + MODE_WRITE + MODE_EXECUTE) != 0
}

/// Is the file of a descriptor a directory?
pub(crate) fn is_directory(fd: &Fd) -> bool
    ensures { (file : DiskFile) → IsFdOf file fd.now → is_directory_model file ≡ result }
{
    fd.attr >> 7 & 1 == 1
}

/// May a user open the file of a descriptor with this mode (System Programmer's Manual, I$Open)?
pub(crate) fn may_open(fd: &Fd, user: u16, mode: u8) -> bool
    ensures { (file : DiskFile) → IsFdOf file fd.now → result ≡ may_open_model file user mode }
{
    may(fd, user, mode) && opens_kind(fd, mode)
}

/// Does a mode open a file of this kind: a directory with bit 7 and without writing, a file without
/// bit 7?
fn opens_kind(fd: &Fd, mode: u8) -> bool
    ensures { (file : DiskFile) → IsFdOf file fd.now → result ≡ opens_kind_model file mode }
{
    if is_directory(fd) {
        says_directory(mode) && !can_write(mode)
    } else {
        !says_directory(mode)
    }
}

/// Does a mode or an attribute byte say a directory? If not, it is below 80 hexadecimal.
pub(crate) fn says_directory(bits: u8) -> bool
    ensures says { result ≡ says_directory_model bits }
    ensures low { result ≡ false → bits < 128 }
{
    bits & DIRECTORY != 0
}
